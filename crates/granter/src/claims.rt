// What is claimed of grants and drives (specs/Fairness.antt, specs/Within.antt), each a clause of a function that does nothing.

ghost use Rattle.granter.specs.Fairness.{NextGoingRound, BoundedWaiting};
ghost use Rattle.granter.specs.Within.{RoundEndsInSquare, KindOneIsDriven, DriveStops};

// Who is granted next, and who waits how long (specs/Fairness.antt).
pub fn fairness()
    // The granted station is the next one, going round, that is live and unfinished.
    ensures next_going_round { NextGoingRound }
    // A station that stays live and unfinished is granted after at most n − 1 grants to others.
    ensures bounded_waiting { BoundedWaiting }
{}

// Rounds end (specs/Within.antt).
pub fn drives()
    // If no turn is refused, a round closes or nobody is left live within n·n grants, each with its turn.
    ensures round_ends_in_square { RoundEndsInSquare }
    // With turns of kind 1 only, grants and turns are those of the drive.
    ensures kind_one_is_driven { KindOneIsDriven }
    // Every drive that is not refused at its start stops within n·n grants, for one of the three reasons.
    ensures drive_stops { DriveStops }
{}
