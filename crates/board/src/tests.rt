// The worked run of docs/RULES.md, by the calls of four boards, each with its own line.
use crate::calls;
use lists::bytes;
use lists::refusal::Refusal;
use station::outcome::Outcome;
use table::Station;
use table::wiring::Wiring::Cube;

// The number of the board that board i tests next; 255 for nobody, and 99 where the call is refused.
fn tested(i: u8, line: &[u8]) -> u8 {
    match calls::next(Cube, 4, Station(i), line) {
        Ok(Some(j)) => j.0,
        Ok(None) => 255,
        Err(_) => 99,
    }
}

// A turn of board i without a reply: the outcome's number.
fn unanswered(i: u8, line: &mut [u8]) -> u8 {
    match calls::not_replied(Cube, 4, Station(i), line) {
        Ok(outcome) => outcome.outcome_byte(),
        Err(_) => 99,
    }
}

// A turn of board i, to whose test board j replies, and what j then makes of what i sends: the outcome's number.
fn answered(i: u8, line: &mut [u8], j: u8, other: &mut [u8]) -> u8 {
    match exchange(Station(i), line, Station(j), other) {
        Ok(outcome) => outcome.outcome_byte(),
        Err(_) => 99,
    }
}

fn exchange(i: Station, line: &mut [u8], j: Station, other: &mut [u8]) -> Result<Outcome, Refusal> {
    let mut packed = [0u8; 1];
    calls::row(Cube, 4, j, other, &mut packed)?;
    let outcome = calls::replied(Cube, 4, i, line, &packed)?;
    match outcome {
        Outcome::Exchanged(_) => {
            calls::row(Cube, 4, i, line, &mut packed)?;
            calls::exchanged(Cube, 4, j, other, i, &packed)?;
        }
        Outcome::TestedTold(_) => calls::told(Cube, 4, j, other, i)?,
        _ => {}
    }
    Ok(outcome)
}

fn fresh(i: u8) -> [u8; 10] {
    let mut line = [77u8; 10];
    let _made = calls::fresh(Cube, 4, Station(i), &mut line);
    line
}

#[test]
fn worked_run(rt: HostRuntime) {
    let mut first = fresh(0);
    let mut second = fresh(1);
    let mut third = fresh(2);
    let mut fourth = fresh(3);
    assert_eq!(rt; tested(0, &first), 1);
    assert_eq!(rt; unanswered(0, &mut first), 3);
    assert_eq!(rt; tested(0, &first), 2);
    assert_eq!(rt; answered(0, &mut first, 2, &mut third), 1);
    assert_eq!(rt; tested(0, &first), 3);
    assert_eq!(rt; answered(0, &mut first, 3, &mut fourth), 1);
    assert_eq!(rt; tested(1, &second), 0);
    assert_eq!(rt; answered(1, &mut second, 0, &mut first), 2);
    assert_eq!(rt; tested(0, &first), 255);
    assert_eq!(rt; unanswered(0, &mut first), 0);
    assert_eq!(rt; tested(2, &third), 3);
    assert_eq!(rt; answered(2, &mut third, 3, &mut fourth), 1);
    assert_eq!(rt; tested(2, &third), 0);
    assert_eq!(rt; answered(2, &mut third, 0, &mut first), 1);
    assert_eq!(rt; tested(2, &third), 255);
    assert_eq!(rt; unanswered(2, &mut third), 0);
    assert_eq!(rt; tested(3, &fourth), 2);
    assert_eq!(rt; answered(3, &mut fourth, 2, &mut third), 1);
    assert_eq!(rt; tested(3, &fourth), 1);
    // Board 1 has left, and sends nothing.
    assert_eq!(rt; answered(3, &mut fourth, 1, &mut second), 99);
    assert_eq!(rt; unanswered(3, &mut fourth), 3);
    assert_eq!(rt; tested(3, &fourth), 255);
    assert_eq!(rt; unanswered(3, &mut fourth), 0);
    assert!(rt; calls::round_closed(Cube, 4, Station(0), &mut first).is_ok());
    assert!(rt; calls::round_closed(Cube, 4, Station(1), &mut second).is_ok());
    assert!(rt; calls::round_closed(Cube, 4, Station(2), &mut third).is_ok());
    assert!(rt; calls::round_closed(Cube, 4, Station(3), &mut fourth).is_ok());
    let live = [0u8, 1, 0, 0, 255, 0, 0, 1, 0, 0];
    let left = [2u8, 1, 0, 0, 0, 1, 0, 0, 0, 0];
    assert!(rt; bytes::same_bytes(&first, &live));
    assert!(rt; bytes::same_bytes(&second, &left));
    assert!(rt; bytes::same_bytes(&third, &live));
    assert!(rt; bytes::same_bytes(&fourth, &live));
}
