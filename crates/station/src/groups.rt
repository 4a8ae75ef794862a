// Groups, and the station at a distance.
ghost use Rattle.std.specs.Prelude.{◌≡◌, ◌<◌, ◌≤◌, length};
ghost use Rattle.station.specs.Groups.{station_at, width, group};
ghost use Rattle.station.specs.Calls.{range_check, group_check, group_after};

use lists::refusal::Refusal;
use table::{Distance, Level, Station, sizes};

// The station at distance m from i: the exclusive or of both.
pub fn station_at(i: Station, m: Distance) -> Station
    ensures { result.0 ≡ station_at i.0 m.0 }
{
    Station(i.0 ^ m.0)
}

// How many numbers a full group at level s has, and its least distance.
pub(crate) fn width_of(s: Level) -> u8
    requires level_above_0 { 0 < s.0 }
    requires level_at_most_8 { s.0 ≤ 8 }
    ensures width_of_level { result ≡ width s.0 }
    ensures upper_bound { result ≤ 128 }
{
    let h = s.0 - 1;
    1u8 << h
}

// The group list: the members of the group of i at level s, in order.
#[tactic(auto, using(crate::proofs::Refusals::group_ok), unfolding(crate::specs::Calls::group_after))]
pub fn group_list(n: usize, i: Station, s: Level, list: &mut [u8]) -> Result<(), Refusal>
    ensures check { result ≡ group_check n i.0 s.0 (length list.old) }
    ensures list_after { list.new ≡ group_after n i.0 s.0 list.old }
{
    check_group(n, i, s, list.len())?;
    write_group(n as u8, i, s, list);
    Ok(())
}

// Refusals 1, 9, 12, 13.
#[tactic(auto, using(crate::proofs::Refusals::group_bounds), unfolding(crate::specs::Calls::group_check))]
fn check_group(n: usize, i: Station, s: Level, len: usize) -> Result<(), Refusal>
    ensures { result ≡ group_check n i.0 s.0 len }
{
    if !sizes::is_size(n) {
        return Err(Refusal::SizeOutOfRange);
    }
    check_range(n as u8, i, s)?;
    if len != group_length(n as u8, i, s) {
        return Err(Refusal::ListLength);
    }
    Ok(())
}

// Refusals 9 and 12.
#[tactic(auto, unfolding(crate::specs::Calls::range_check))]
fn check_range(n: u8, i: Station, s: Level) -> Result<(), Refusal>
    ensures { result ≡ range_check n i.0 s.0 }
{
    if n <= i.0 {
        return Err(Refusal::NoSuchStation);
    }
    let d = sizes::dimension_of(n);
    if (s.0 == 0) | (d.0 < s.0) {
        return Err(Refusal::NoSuchLevel);
    }
    Ok(())
}

// This function and the next ask for a level. A struct of n, i and s with that range is no plainer: its check would have a clause for each field.
// Each has its own iterator chain: a shared one would return closures, which the gate refuses.
//
// How many stations the group of i at level s has among n. Bytes are summed: a chain that counts in a usize takes up to twice as long.
fn group_length(n: u8, i: Station, s: Level) -> usize
    requires level_above_0 { 0 < s.0 }
    requires level_at_most_8 { s.0 ≤ 8 }
    ensures { result ≡ length (group n i.0 s.0) }
{
    let w = width_of(s);
    let present = (0..w).map(|k| u8::from(station_at(i, Distance(w + k)).0 < n));
    usize::from(present.sum::<u8>())
}

// Writes the members of the group of i at level s among n.
fn write_group(n: u8, i: Station, s: Level, list: &mut [u8])
    requires level_above_0 { 0 < s.0 }
    requires level_at_most_8 { s.0 ≤ 8 }
    requires list_len { length list.old ≡ length (group n i.0 s.0) }
    ensures { list.new ≡ group n i.0 s.0 }
{
    let w = width_of(s);
    let members = (0..w)
        .map(|k| station_at(i, Distance(w + k)).0)
        .filter(|x| *x < n);
    // By places: of what is written through `iter_mut().zip(members)` no proof knows anything afterwards.
    for (k, x) in members.enumerate() {
        list[k] = x;
    }
}
