// How long a dead board may go unseen, in turns, of which a driven plant grants one after the other (specs/). Each function of this
// file does nothing: its clauses are the claims.
#![tactic(auto)]

pub mod turns;
pub mod wait;

ghost use Rattle.latency.specs.Bound.{RoundsWithin, KnownWithin, MixedKnownWithin, DriveWithin, DrivesKnownWithin};
ghost use Rattle.latency.specs.Crash.{KnownFromAnyMoment, DrivesKnownFromAnyMoment, KnownFromCrash, MixedKnownFromCrash};

// From the start of a round on (specs/Bound.antt).
pub fn from_round_start()
    // Every round, the open one included, has at most the tests that the count says, and at most one turn more for each live board.
    ensures rounds_within { RoundsWithin }
    // After the worst case's rounds of so many turns each live board suspects just those that are not live.
    ensures known_within { KnownWithin }
    // The same of every list that mixes runs and drives.
    ensures mixed_known_within { MixedKnownWithin }
    // A drive from the start of a round makes at most that many grants.
    ensures drive_within { DriveWithin }
    // The same for drives, counted in grants.
    ensures drives_known_within { DrivesKnownWithin }
{}

// From the last crash on (specs/Crash.antt).
pub fn from_crash()
    // From any moment of a round the rest of it comes first, n·n turns at most.
    ensures known_from_any_moment { KnownFromAnyMoment }
    // The same of drives, by their grants.
    ensures drives_known_from_any_moment { DrivesKnownFromAnyMoment }
    // From the last crash of a list on, wherever in a round it comes: the rest of that round has no more turns than a whole round.
    ensures known_from_crash { KnownFromCrash }
    // The same of every list that mixes runs and drives.
    ensures mixed_known_from_crash { MixedKnownFromCrash }
{}
