// What is claimed of a board's calls (specs/Packed.antt, specs/Keeps.antt), each a clause of a function that does nothing.

ghost use Rattle.board.specs.Packed.{AnyBytesAreARow};
ghost use Rattle.board.specs.Keeps.{CallsKeepTheRules, FreshLineIsOne};

// What is sent and what is kept (specs/Packed.antt, specs/Keeps.antt).
pub fn lines_and_rows()
    // Whatever bytes come are a row, in which the sender does not suspect itself.
    ensures any_bytes_are_a_row { AnyBytesAreARow }
    // From a valid line no call leaves one that the next call refuses, whatever comes over the cable.
    ensures calls_keep_the_rules { CallsKeepTheRules }
    // A fresh line is let through.
    ensures fresh_line_is_one { FreshLineIsOne }
{}
