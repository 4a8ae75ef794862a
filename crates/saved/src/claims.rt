// What is claimed of saved plants besides what the calls promise: that a file has fields exactly where it is their bytes; that loading restores what
// was saved, and that there is one form only; what the converter takes, that what it writes is read as what it took, and that the order of the fields
// that it takes does not matter; and the length of a saved plant. Each function does nothing: its clauses are the claims.

ghost use Rattle.saved.specs.Files.{FieldsOfBytes, BytesOfFields};
ghost use Rattle.saved.specs.Restoring.{SavedLength, LoadRestores, OneForm};
ghost use Rattle.saved.specs.Converting.{RulesConverted, ConverterTakes, ConvertedLoads, OrderIsFree};
ghost use Rattle.saved.specs.Examples.{TwoBoards, ExamplesHold, Conversions, OldExamplesHold};

// Files and fields (specs/Files.antt).
pub fn files()
    // The bytes of some fields have just these fields.
    ensures fields_of_bytes { FieldsOfBytes }
    // A file that has fields is the bytes of them.
    ensures bytes_of_fields { BytesOfFields }
{}

// Saving and loading (specs/Restoring.antt).
pub fn restoring()
    // A saved plant of n stations has 19 + n·(n + 10) bytes.
    ensures saved_length { SavedLength }
    // Loading a saved plant gives the size, the table and the tally that were saved.
    ensures load_restores { LoadRestores }
    // Saving what was loaded gives the very file.
    ensures one_form { OneForm }
{}

// Files of edition 1 (specs/Converting.antt).
pub fn converting()
    // The rules of the four-byte heads are those of the converted table.
    ensures rules_converted { RulesConverted }
    // The converter takes just the files that the reader of edition 1 took, less those with other tags.
    ensures converter_takes { ConverterTakes }
    // A converted file is read as the plant that the reader of edition 1 read.
    ensures converted_loads { ConvertedLoads }
    // The order of the fields does not change what is converted.
    ensures order_is_free { OrderIsFree }
{}

// Computed (specs/Examples.antt).
pub fn examples()
    // Two fresh boards are saved as worked out by hand.
    ensures two_boards { TwoBoards }
    // Each file worked out by hand has its number.
    ensures examples_hold { ExamplesHold }
    // Files of edition 1 are converted as worked out by hand.
    ensures conversions { Conversions }
    // Each file of edition 1 worked out by hand has its number.
    ensures old_examples_hold { OldExamplesHold }
{}
