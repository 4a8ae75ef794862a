// The law behind the numbers of the commissioning sheet (specs/Law.antt), and what is claimed of who stands ahead (specs/Assignments.antt). Each
// function does nothing: its clauses are the claims.

ghost use Rattle.slots.specs.Law.{DueByDigits, NobodyLeftOut, ListsCounted, TestsByLevels, TestsAtMost, NobodySuspected, OneSuspected};
ghost use Rattle.slots.specs.Law.{OneSuspectedExactly, MostOfPowers, LastTestsAll, NeverFewer, MostIsNoLess, MostCovers};
ghost use Rattle.slots.specs.Assignments.{OwnUnsuspected, SomebodyFirst, BeforeUpTo, NothingLeftOver, DueEntriesAreMarked};

// Tests, and the most that one more dead station makes of them (specs/Law.antt).
pub fn numbers_of_tests()
    // A distance at which somebody stands is due by its digits: each 1 below the highest names an own group that the row must suspect whole.
    ensures due_by_digits { DueByDigits }
    // Each other station is one that a board tests or one that it does not test, and is listed once.
    ensures nobody_left_out { NobodyLeftOut }
    // The counts are the lengths of the lists.
    ensures lists_counted { ListsCounted }
    // With 2^d boards the tests of a board are a sum over the levels: 2 to the number of own groups below that it suspects whole.
    ensures tests_by_levels { TestsByLevels }
    // With any number of boards they are at most that sum.
    ensures tests_at_most { TestsAtMost }
    // With 2^d boards and nobody suspected each board makes d tests.
    ensures nobody_suspected { NobodySuspected }
    // With 2^d boards and one suspected each other board makes at most 2d − 1 tests.
    ensures one_suspected { OneSuspected }
    // The board at distance 1 from the suspected one makes 2d − 1 tests, each other board d.
    ensures one_suspected_exactly { OneSuspectedExactly }
    // So the most of any of 2^d boards is d with nobody dead, and 2d − 1 with any one dead.
    ensures most_of_powers { MostOfPowers }
    // With 2^d + 1 boards and nobody suspected the last board tests all others.
    ensures last_tests_all { LastTestsAll }
    // Who suspects more makes no fewer tests.
    ensures never_fewer { NeverFewer }
    // The most tests with one more board dead are no fewer than the tests now.
    ensures most_is_no_less { MostIsNoLess }
    // They are no fewer than the tests by any row that suspects only whom this row suspects, and one more board.
    ensures most_covers { MostCovers }
{}

// Assignments (specs/Assignments.antt).
pub fn assignments()
    // In a table that refusals 1 to 4 let through no row suspects its own station.
    ensures own_unsuspected { OwnUnsuspected }
    // For such a row somebody is first at every distance but 0.
    ensures somebody_first { SomebodyFirst }
    // Who stands before a board at a distance does so at all distances from there to `up_to`.
    ensures before_up_to { BeforeUpTo }
    // The assignment is n − 1 entries of two bytes, and fills its list.
    ensures nothing_left_over { NothingLeftOver }
    // The due distances are those of the entries with 255, for a row that does not suspect its own station.
    ensures due_entries_are_marked { DueEntriesAreMarked }
{}
