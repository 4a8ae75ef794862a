// Bytes: the greater of two, a byte or a text put into a list, and two lists place by place.
ghost use Rattle.std.specs.Prelude.{◌≡◌, ◌↔◌, IsTrue, max, set};
ghost use Rattle.std.proofs.lemmas.List.Edits.{sets};
ghost use Rattle.lists.specs.Bytes.{joined_bytes, with_joined};

// The greater of two bytes.
pub fn greater(a: u8, b: u8) -> u8
    ensures { result ≡ max a b }
{
    if a < b { b } else { a }
}

// Puts a byte at place k of the list; past its end nothing is written.
pub fn put(list: &mut [u8], k: u8, byte: u8)
    ensures { list.new ≡ set list.old k byte }
{
    // By an index: of what is written through `get_mut` no proof knows anything afterwards.
    let at = k as usize;
    if at < list.len() {
        list[at] = byte;
    }
}

// Writes bytes into a list from a place on; past its end nothing is written.
pub fn write_at(list: &mut [u8], at: usize, text: &[u8])
    ensures { list.new ≡ sets list.old at text.now }
{
    if list.len() < at {
        return;
    }
    let fits = text.len().min(list.len() - at);
    list[at..at + fits].copy_from_slice(&text[..fits]);
}

// The greater byte at each place of the first list.
pub fn join_bytes(list: &mut [u8], other: &[u8])
    ensures { list.new ≡ joined_bytes list.old other.now }
{
    // By an index: of what a loop over `iter_mut().zip(other)` writes no proof knows anything afterwards.
    for k in 0..list.len().min(other.len()) {
        list[k] = list[k].max(other[k]);
    }
}

// Writes the greater bytes of two lists to the front of a buffer. Lists of two lengths, or a buffer without room: nothing.
pub fn write_joined(list: &[u8], other: &[u8], out: &mut [u8])
    ensures { out.new ≡ with_joined list.now other.now out.old }
{
    if list.len() != other.len() {
        return;
    }
    if out.len() < list.len() {
        return;
    }
    // By an index, as `join_bytes`. Not a copy and `join_bytes`, though that is shorter: each exchange of two unequal rows calls this, and one loop
    // is faster.
    for k in 0..list.len() {
        out[k] = list[k].max(other[k]);
    }
}

// Whether two lists hold the same bytes.
pub fn same_bytes(list: &[u8], other: &[u8]) -> bool
    ensures { IsTrue result ↔ (list.now ≡ other.now) }
{
    // A loop and not `==`, with which runs are slower.
    if list.len() != other.len() {
        return false;
    }
    let mut apart = 0;
    for (x, y) in list.iter().zip(other) {
        apart = greater(apart, *x ^ *y);
    }
    apart == 0
}
