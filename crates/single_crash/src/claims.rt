// What is claimed of grants (specs/Sweeps.antt) and drives (specs/Drives.antt), and that the plant can be as it is supposed to be
// (specs/Setting.antt), each a clause of a function that does nothing.

ghost use Rattle.single_crash.specs.Drives.{DrivesAreGrants, RoundsByDrives};
ghost use Rattle.single_crash.specs.Setting.{FreshIsSound};
ghost use Rattle.single_crash.specs.Sweeps.{GrantsGoInSweeps};

// The order of grants in a round (specs/Sweeps.antt).
pub fn sweeps()
    // Each station's first turn comes before any station's second, and so on.
    ensures in_sweeps { GrantsGoInSweeps }
{}

// What is supposed of the plant before the crash (specs/Setting.antt).
pub fn sound_plant()
    // A plant with a fresh table is sound.
    ensures fresh_is_sound { FreshIsSound }
{}

// Drives one behind the other (specs/Drives.antt).
pub fn drives()
    // They are so many grants, each followed by its turn.
    ensures drives_are_grants { DrivesAreGrants }
    // As many drives that answer 0 are enough as rounds.
    ensures rounds_by_drives { RoundsByDrives }
{}
