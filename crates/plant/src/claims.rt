// What is claimed of every run (specs/Run.antt), and a worked round on the ring (specs/Example.antt), each a clause of a function that does
// nothing.

ghost use Rattle.plant.specs.Run.{EmptyRun, RunKeepsRules};
ghost use Rattle.plant.specs.Example.{RoundOnTheRing};

// Every run (specs/Run.antt).
pub fn runs()
    // An empty schedule is accepted and changes nothing.
    ensures empty_run { EmptyRun }
    // A table that obeys the rules obeys them after every run.
    ensures run_keeps_rules { RunKeepsRules }
{}

// Computed (specs/Example.antt).
pub fn round_on_the_ring()
    // A round of four boards on the ring, of which one is dead.
    ensures { RoundOnTheRing }
{}
