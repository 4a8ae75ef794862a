// What is claimed of the doubt lamp over lists of runs and drives (specs/Wait.antt): a lamp that is out begins the wait of the detection claim, and
// stays out. Each function does nothing: its clauses are the claims.
#![tactic(auto)]

ghost use Rattle.detection.specs.Claim.{worst_rounds};
ghost use Rattle.lamp_claims.specs.Wait.{OutMeetsPremises, OutBeginsWait, StaysOut, MixedStaysOut};

// A lamp that is out (specs/Wait.antt).
pub fn lamp_is_out()
    // A lamp that is out at the start of a round, with two live stations, no crash and no late reply: the detection conditions.
    ensures out_meets_premises { OutMeetsPremises }
    // So after the worst case of its wiring each live station suspects just those that are not live.
    ensures out_begins_wait { OutBeginsWait worst_rounds }
    // Under the detection conditions the lamp is out after every list of runs.
    ensures stays_out { StaysOut }
    // The same after every list that mixes runs and drives.
    ensures mixed_stays_out { MixedStaysOut }
{}
