// A row on the cable: a bit for each station, eight to a byte, the lowest first.
ghost use Rattle.std.specs.Prelude.{◌≡◌, ◌≤◌, ◌<◌, length};
ghost use Rattle.board.specs.Packed.{suspicion, packed_length, packed_byte, pack, heard_byte, heard};

use table::Station;

// Packs a row of at most 64 stations.
#[tactic(auto, using(lists::proofs::Loops::loops), unfolding(crate::specs::Packed::pack))]
pub(crate) fn pack(row: &[u8], packed: &mut [u8])
    requires size { length row.now ≤ 64 }
    requires room { length packed.old ≡ packed_length (length row.now) }
    ensures { packed.new ≡ pack (length row.now) row.now }
{
    for b in 0..packed.len() {
        packed[b] = packed_byte(row, b);
    }
}

// Byte b of it, from its highest bit down. Eight boards of which none is suspected cost one word.
fn packed_byte(row: &[u8], b: usize) -> u8
    requires { b < 8 }
    ensures { result ≡ packed_byte row.now b }
{
    if words::eight_zeros(row, 8 * b) {
        return 0;
    }
    let mut byte: u8 = 0;
    let mut k: usize = 8;
    while 0 < k {
        k -= 1;
        byte = 2 * byte + suspicion(row, 8 * b + k);
    }
    byte
}

// 1 if the row suspects station k; past its end 0.
fn suspicion(row: &[u8], k: usize) -> u8
    ensures { result ≡ suspicion row.now k }
{
    u8::from(row.get(k).copied().unwrap_or(0) == 1)
}

// The row of station `from`, as it came over the cable.
#[derive(Clone, Copy)]
pub(crate) struct Heard<'a> {
    pub(crate) from: Station,
    pub(crate) packed: &'a [u8],
}

impl Heard<'_> {
    ghost use Rattle.std.specs.Prelude.{◌==◌, set, slice_index};
    ghost use Rattle.station.specs.Rows.{union_byte, union};

    // Whether it suspects station k. Of the sender itself nobody is told that.
    #[tactic(auto, using(std::proofs::lemmas::Nat::Bits::shr_and_one), unfolding(crate::specs::Packed::heard_byte))]
    pub(crate) fn suspects(&self, k: Station) -> bool
        ensures { result ≡ (heard_byte self.now.from.0 self.now.packed.now k.0 == 1) }
    {
        if k == self.from {
            return false;
        }
        let byte = self.byte(k.0 as usize / 8);
        let digit = k.0 % 8;
        (byte >> digit) & 1 == 1
    }

    // Joins it into the row of station own: no row is written out for that, and a byte's bits of 0 that are left over are passed at once.
    pub(crate) fn join_into(&self, row: &mut [u8], own: Station)
        requires { length row.old ≤ 64 }
        ensures { row.new
            ≡ union row.old (heard (length row.old) self.now.from.0 self.now.packed.now) own.0 }
    {
        let mut k: usize = 0;
        while k < row.len() {
            let byte = self.byte(k / 8);
            let digit = k % 8;
            let bits = byte >> digit;
            if bits == 0 {
                k += 8 - digit;
                continue;
            }
            if bits & 1 == 1 {
                self.join_one(row, own, k);
            }
            k += 1;
        }
    }

    // Byte b; past the end 0.
    fn byte(&self, b: usize) -> u8
        ensures { result ≡ slice_index self.now.packed.now b }
    {
        self.packed.get(b).copied().unwrap_or(0)
    }

    // Joins what it says of station k.
    fn join_one(&self, row: &mut [u8], own: Station, k: usize)
        requires inside { k < length row.old }
        requires size { length row.old ≤ 64 }
        ensures { let h = heard (length row.old) self.now.from.0 self.now.packed.now in
            row.new ≡ set row.old k (union_byte row.old h own.0 k) }
    {
        if k == own.0 as usize {
            return;
        }
        if !self.suspects(Station(k as u8)) {
            return;
        }
        row[k] = row[k].max(1);
    }
}
