// What is claimed of one dead board on the ring (specs/Ring.antt), each a clause of a function that does nothing.

ghost use Rattle.single_crash.specs.Ring.{RingInGrants, RingInRounds, RingNoFewerGrants, RingNoFewerRounds};

// One dead board on the ring, from four boards on (specs/Ring.antt).
pub fn one_dead_on_ring()
    // It is known 5n − 8 grants after its crash.
    ensures in_grants { RingInGrants }
    // And when the third round closes.
    ensures in_rounds { RingInRounds }
    // At no size is one grant fewer enough.
    ensures no_fewer_grants { RingNoFewerGrants }
    // Nor are two rounds.
    ensures no_fewer_rounds { RingNoFewerRounds }
{}
