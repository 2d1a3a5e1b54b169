//! Worked examples of the conversions, the contract of a function that does nothing.
ghost use Rattle.f11_flx.specs.Worked as worked;

/// What becomes of records, of lines and of what the attributes say.
pub fn examples()
    ensures fixed_records { worked.FixedRecords }
    ensures fixed_record_cut { worked.FixedRecordCut }
    ensures variable_records { worked.VariableRecords }
    ensures length_word_cut { worked.LengthWordCut }
    ensures bad_layouts { worked.BadLayouts }
    ensures text_of_records { worked.TextOfRecords }
    ensures lines_of_text { worked.LinesOfText }
    ensures other_bytes { worked.OtherBytes }
    ensures records_of_lines { worked.RecordsOfLines }
    ensures longest_line { worked.LongestLine }
    ensures edge_of_block { worked.EdgeOfBlock }
    ensures image { worked.Image }
    ensures fixed_to_rt { worked.FixedToRt }
    ensures text_from_rt { worked.TextFromRt }
    ensures nothing_copied { worked.NothingCopied }
{}
