// What is claimed of the words that the calls write (specs/WordsFit.antt), each a clause of a function that does nothing.

ghost use Rattle.vcube.specs.WordsFit.{RefusalWordsFit, StatusWordsFit, OutcomeWordsFit};

// Words never fill their buffer.
pub fn words_fit()
    ensures refusals { RefusalWordsFit }
    ensures statuses { StatusWordsFit }
    ensures outcomes { OutcomeWordsFit }
{}
