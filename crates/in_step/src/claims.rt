// What is claimed of boards that put entries in force (specs/Claims.antt, Causes.antt, Waits.antt, InForce.antt), each a clause of a function
// that does nothing.

ghost use Rattle.in_step.specs.Claims.{BoardsInStep};
ghost use Rattle.in_step.specs.Causes.{CausesInStep};
ghost use Rattle.in_step.specs.Waits.{WaitInStep};
ghost use Rattle.in_step.specs.InForce.{EntriesGetInForce};

// Of any list of happenings.
pub fn in_step()
    // Whatever happens on the cable, each board has its line of the master's table, as that was after the entries in force at the board.
    ensures boards_in_step { BoardsInStep }
    // Whatever happens, a live board is suspected, or leaves because it is told, only by an entry that got no reply of it.
    ensures causes_in_step { CausesInStep }
    // Once as many rounds as in the worst case have closed in the entries in force at a board, its own line suspects just the boards that are not
    // live.
    ensures wait_in_step { WaitInStep }
    // And nothing stands in the way: any entries that a master makes are in force at each board after some list of happenings.
    ensures entries_get_in_force { EntriesGetInForce }
{}
