// What is claimed of suspicions and exits over any list of runs and drives (specs/Accurate.antt), with any crashes and late replies, on either
// wiring. Where first no live board suspects a live one, a live board comes to be suspected by a live one, and is told to leave, only if its own
// reply was late. The claims are laws of the definitions `run` and `drive`. The functions do nothing: their clauses are the claims. What is claimed
// of one run or drive, wherever it stands in a list (`AccurateAfter`), vcube_run and vcube_drive promise.
#![tactic(auto)]

ghost use Rattle.accuracy.specs.Accurate.{RunsAccurate, MixedAccurate, DrivesTellNobody};
ghost use Rattle.accuracy.specs.Example.{OneOfEight, TwoOfTwo};

// Suspicions and exits over any list (specs/Accurate.antt).
pub fn accuracy()
    // Every list of runs: only the late are suspected, every exit has its cause, and what late replies cost.
    ensures runs_accurate { RunsAccurate }
    // The same of every list that mixes runs and drives.
    ensures mixed_accurate { MixedAccurate }
    // Drives have no late reply: where first no live board suspects a live one, nobody leaves because told.
    ensures drives_tell_nobody { DrivesTellNobody }
{}

// Computed (specs/Example.antt).
pub fn examples()
    // One late reply, followed until the board that was late has left.
    ensures one_of_eight { OneOfEight }
    // Of two live boards one late reply costs both.
    ensures two_of_two { TwoOfTwo }
{}
