// Plants on which the detection conditions hold, computed (specs/Witness.antt), and that the worst-case latency is reached on each wiring at any
// size from 3 on (specs/WorstCase.antt). Each function does nothing: its clauses are the claims.
#![tactic(auto)]

ghost use Rattle.witness.specs.Witness.{FourBoards, ThreeBoards, FourOnRing};
ghost use Rattle.witness.specs.WorstCase.{WorstCaseIsReached};

// Computed (specs/Witness.antt).
pub fn examples()
    // Four boards, one dead, and four runs: the detection conditions hold, five rounds close, and each has the seven tests of the count.
    ensures four_boards { FourBoards }
    // The same of three boards, all live, and one round of five tests.
    ensures three_boards { ThreeBoards }
    // Four boards on the ring, one dead, and four runs: the detection conditions hold, and each of the three closed rounds has four tests.
    ensures four_on_ring { FourOnRing }
{}

// Worst case (specs/WorstCase.antt).
pub fn worst_case_is_reached()
    // On each wiring with 3 boards or more, no number of rounds below the worst-case latency is enough.
    ensures { WorstCaseIsReached }
{}
