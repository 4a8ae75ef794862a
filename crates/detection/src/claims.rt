// What is claimed of lists of runs and of drives (specs/), each a clause of a function that does nothing.

ghost use Rattle.detection.specs.Claim.{DetectionInSquare, DetectionInTriangle, Detection, square_rounds, triangle_rounds, worst_rounds};
ghost use Rattle.detection.specs.Claim.{FreshIsAccepted, FreshMeetsPremises};
ghost use Rattle.detection.specs.Boards.{ExactRoundTests, ExactRoundTestsAfterLatency};
ghost use Rattle.detection.specs.Driven.{DriveIsTurns, MixedDetection, DrivenDetectionInSquare, DrivenDetection};
ghost use Rattle.detection.specs.Exits.{ReplyEnds};
ghost use Rattle.detection.specs.Ceased.{TellerIsNamed, ExitsRecorded, MixedExitsRecorded};
ghost use Rattle.detection.specs.Timing.{TestsAreTheSheets, TestsByteCounts, TestsWithinDue, SlotSuffices};

// Every list of runs (specs/Claim.antt).
pub fn detection()
    // After d·d closed rounds on the cube, n − 1 on the ring, the live boards suspect just those that are not live, and the tests are those counted.
    ensures detection_in_square { DetectionInSquare }
    // The same within 1 + d(d − 1)/2 rounds on the cube, n − 1 on the ring.
    ensures detection_in_triangle { DetectionInTriangle }
    // The same within the worst-case latency on the cube, n/2 rounds on the ring.
    ensures detection_in_worst_case { Detection worst_rounds }
    // A fresh table of any size passes refusals 1 to 4, on each wiring.
    ensures fresh_is_accepted { FreshIsAccepted }
    // A fresh table, with any tally, meets the detection conditions on a table.
    ensures fresh_meets_premises { FreshMeetsPremises }
{}

// Whom each board tests in a round that begins with exact rows (specs/Boards.antt).
pub fn round_tests()
    // On the cube, in a closed round that begins with exact rows each live board makes the tests that are due, and no other.
    ensures exact_round_tests { ExactRoundTests }
    // After the worst-case latency that is so in every closed round.
    ensures exact_round_tests_after_latency { ExactRoundTestsAfterLatency }
{}

// Drives, and lists that mix runs and drives (specs/Driven.antt).
pub fn driven()
    // A drive answers and leaves what the runs of its grants do, one turn each.
    ensures drive_is_turns { DriveIsTurns }
    // Detection of every list that mixes runs and drives, within d·d rounds on the cube, n − 1 on the ring.
    ensures mixed_in_square { MixedDetection square_rounds }
    // The same within 1 + d(d − 1)/2 rounds on the cube, n − 1 on the ring.
    ensures mixed_in_triangle { MixedDetection triangle_rounds }
    // The same within the worst-case latency on the cube, n/2 rounds on the ring.
    ensures mixed_in_worst_case { MixedDetection worst_rounds }
    // Detection of driven plants within d·d rounds on the cube, n − 1 on the ring: each drive that answers 0 closes one round.
    ensures driven_in_square { DrivenDetectionInSquare }
    // The same within 1 + d(d − 1)/2 rounds on the cube, n − 1 on the ring.
    ensures driven_in_triangle { DrivenDetection triangle_rounds }
    // The same within the worst-case latency on the cube, n/2 rounds on the ring.
    ensures driven_in_worst_case { DrivenDetection worst_rounds }
{}

// Who leaves after a test with a reply (specs/Exits.antt).
pub fn reply_ends()
    // Where a tested station replies: by who suspects whom, which of the two leaves, and what becomes of the rows.
    ensures { ReplyEnds }
{}

// Bytes 4 and 5 of a line: who told a station to leave, and how many rounds ago it ceased to be live (specs/Ceased.antt).
pub fn ceased()
    // Outcome 2 or 5: byte 4 of the one that left names the other, which is live and suspects it, and byte 4 of every other line stays.
    ensures teller_is_named { TellerIsNamed }
    // Bytes 4 and 5 after any list of runs: who told a station to leave, and how many rounds ago it ceased to be live.
    ensures exits_recorded { ExitsRecorded }
    // The same after any list that mixes runs and drives.
    ensures mixed_exits_recorded { MixedExitsRecorded }
{}

// The tests that slots are timed by, beside the commissioning sheet (specs/Timing.antt).
pub fn timing()
    // On the cube, in a closed round that begins with exact rows, a live board tests whom the sheet says, in its order.
    ensures tests_are_the_sheets { TestsAreTheSheets }
    // Byte 3 of a line is the number of tests that the board has made in the open round.
    ensures tests_byte_counts { TestsByteCounts }
    // On the cube a board makes in every round no more tests than are due by its row as the round leaves it.
    ensures tests_within_due { TestsWithinDue }
    // On the cube a slot timed for the most tests with one more board dead is long enough while its board suspects only the known dead and one more.
    ensures slot_suffices { SlotSuffices }
{}
