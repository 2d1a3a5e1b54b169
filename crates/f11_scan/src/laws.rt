//! Laws of headers and of scans, each the contract of a function that does nothing.
ghost use Rattle.f11_scan.specs.Laws as laws;

/// Which blocks are headers, what a killed one still says, and that a scan finds each header once.
pub fn scans()
    ensures use_is_exact { laws.UseIsExact }
    ensures killed { laws.KilledSaysTheRest }
    ensures each { laws.ScanFindsEach }
{}
