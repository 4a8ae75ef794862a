// What is claimed of mending (specs/Claims.antt): each claim is a clause of a function that does nothing.

ghost use Rattle.mender.specs.Claims.{MendedPasses, MendedOnce, GoodTableStays, ListedIsTrue, UnlistedStays, ReportHasRoom, StatusStays};
ghost use Rattle.mender.specs.Claims.{NoSuspicionInvented};

// Of tables and lists of changes (specs/Claims.antt).
pub fn mending()
    // Refusals 1 to 4 let a mended table through.
    ensures mended_passes { MendedPasses }
    // Mending a mended table changes and lists nothing.
    ensures mended_once { MendedOnce }
    // Mending a table that refusals 1 to 4 let through changes and lists nothing.
    ensures good_table_stays { GoodTableStays }
    // Each listed byte was the old one and is the new one.
    ensures listed_is_true { ListedIsTrue }
    // A byte that is not listed is what it was.
    ensures unlisted_stays { UnlistedStays }
    // A report of the length that refusal 23 asks for has room for every list of changes.
    ensures report_has_room { ReportHasRoom }
    // A status from 0 to 3 stays.
    ensures status_stays { StatusStays }
    // Who suspects a station after mending did so before.
    ensures no_suspicion_invented { NoSuspicionInvented }
{}
