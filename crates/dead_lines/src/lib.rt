// What is claimed of the lines of stations that are not live (specs/Alike.antt): two valid tables with equal statuses and equal live lines give the
// same answers and run sheets, whatever their other lines hold. The claims are laws of the definitions `run` and `drive`. The functions do nothing:
// their clauses are the claims. Those of `examples` are computed.
#![tactic(auto)]

ghost use Rattle.dead_lines.specs.Alike.{RunOfAlike, GrantOfAlike, DriveOfAlike, RunsOfAlike, MixedOfAlike};
ghost use Rattle.dead_lines.specs.Pair.{WorkedPair, EachIsNeeded};

// On alike tables (specs/Alike.antt).
pub fn alike()
    // A run answers and writes the same on alike tables, which it leaves alike.
    ensures run_of_alike { RunOfAlike }
    // A grant answers the same station.
    ensures grant_of_alike { GrantOfAlike }
    // A drive answers the same, and leaves alike tables.
    ensures drive_of_alike { DriveOfAlike }
    // So does each run of a list.
    ensures runs_of_alike { RunsOfAlike }
    // So does each run and drive of a list that mixes them.
    ensures mixed_of_alike { MixedOfAlike }
{}

// Computed (specs/Pair.antt).
pub fn examples()
    // Two alike tables of four stations, one dead line of which differs in every byte that may, and the same run of both.
    ensures worked_pair { WorkedPair }
    // With one live line different, one status different, or a table that is refused, the run can differ.
    ensures each_is_needed { EachIsNeeded }
{}
