// Bytes that are read eight at a time, as a word: for processors on which each byte that is read costs about as much as a word.
#![tactic(auto)]

ghost use Rattle.std.specs.Prelude.{◌≡◌, ◌↔◌, IsTrue};
ghost use Rattle.words.specs.Words.{are_bits, eight_zeros};

use lists::bytes;

// The bits that no byte of 0 or 1 has.
const HIGH_BITS: u64 = 0xFEFE_FEFE_FEFE_FEFE;

// Whether every byte is 0 or 1: eight at a time, the last eight at their own place. Fewer than eight go one by one. No loop has an exit.
pub fn are_bits(list: &[u8]) -> bool
    ensures { result ≡ are_bits list.now }
{
    let mut all: u64 = 0;
    let Some(last) = list.last_chunk::<8>() else {
        for byte in list {
            all |= *byte as u64;
        }
        return all & HIGH_BITS == 0;
    };
    let (words, _) = list.as_chunks::<8>();
    for word in words {
        all |= u64::from_le_bytes(*word);
    }
    all |= u64::from_le_bytes(*last);
    all & HIGH_BITS == 0
}

// Whether eight bytes stand from a place on, and all are 0.
pub fn eight_zeros(list: &[u8], at: usize) -> bool
    ensures { result ≡ eight_zeros list.now at }
{
    if list.len() < at {
        return false;
    }
    let Some(word) = list[at..].first_chunk::<8>() else {
        return false;
    };
    u64::from_le_bytes(*word) == 0
}

// Whether two lists hold the same bytes: the last eight, then eight at a time from the front. Fewer than eight go one by one.
pub fn same_bytes(list: &[u8], other: &[u8]) -> bool
    ensures { IsTrue result ↔ (list.now ≡ other.now) }
{
    if list.len() != other.len() {
        return false;
    }
    let (Some(last), Some(other_last)) = (list.last_chunk::<8>(), other.last_chunk::<8>()) else {
        return bytes::same_bytes(list, other);
    };
    let (words, _) = list.as_chunks::<8>();
    let (other_words, _) = other.as_chunks::<8>();
    let mut apart = u64::from_le_bytes(*last) ^ u64::from_le_bytes(*other_last);
    for k in 0..words.len() {
        apart |= u64::from_le_bytes(words[k]) ^ u64::from_le_bytes(other_words[k]);
    }
    apart == 0
}
