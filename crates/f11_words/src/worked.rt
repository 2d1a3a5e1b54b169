//! Worked examples of command lines, the contract of a function that does nothing.
ghost use Rattle.f11_words.specs.Worked as worked;

/// How command lines are written.
pub fn examples()
    ensures get_text { worked.GetText }
    ensures get_image { worked.GetImage }
    ensures get_blocks { worked.GetBlocks }
    ensures get_all { worked.GetAll }
    ensures put_each { worked.PutEach }
    ensures init_max { worked.InitMax }
    ensures init { worked.Init }
    ensures to_rt { worked.ToRt }
    ensures from_rt { worked.FromRt }
    ensures rt_get_all { worked.RtGetAll }
    ensures rt_init { worked.RtInit }
    ensures quiet_run { worked.QuietRun }
    ensures update { worked.Update }
{}
