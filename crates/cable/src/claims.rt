// What is claimed of n boards, each with its own line (specs/Claims.antt, specs/Boards.antt), each a clause of a function that does nothing.

ghost use Rattle.cable.specs.Claims.{BoardsDoTheTurn, TurnIsByLines, BoardsCloseTheRound, EitherRowServes, RowsTravel, LinesOfTables, FreshBoards};
ghost use Rattle.cable.specs.Boards.{LinesAreHeld, BoardsDoTheRun, BoardsMakeATable};

// Turn by turn and round by round (specs/Claims.antt).
pub fn boards_by_turns()
    // Two boards do what the table's turn does, each by its own line.
    ensures boards_do_the_turn { BoardsDoTheTurn }
    // The same as one equation.
    ensures turn_is_by_lines { TurnIsByLines }
    // And all boards what a closing of the round does.
    ensures boards_close_the_round { BoardsCloseTheRound }
    // A tester may send its row as it is after joining.
    ensures either_row_serves { EitherRowServes }
    // A row, packed and heard, is as it was.
    ensures rows_travel { RowsTravel }
    // Each line of a table that is let through is let through by the calls of its board.
    ensures lines_of_tables { LinesOfTables }
    // Fresh boards hold the lines of the fresh table.
    ensures fresh_boards { FreshBoards }
{}

// Of whole runs (specs/Boards.antt).
pub fn boards_by_runs()
    // n boards, each by its calls alone, do what a run does on the table.
    ensures boards_do_the_run { BoardsDoTheRun }
    // For every table there are boards that hold what it has.
    ensures lines_are_held { LinesAreHeld }
    // And for all boards whose lines are let through, a table.
    ensures boards_make_a_table { BoardsMakeATable }
{}
