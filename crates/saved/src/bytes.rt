// Bytes: a number of four bytes, and a list, written into another list from a place on.
ghost use Rattle.std.specs.Prelude.{◌≡◌, ◌+◌, ◌≤◌, length};
ghost use Rattle.std.proofs.lemmas.List.Edits.{sets};
ghost use Rattle.saved.specs.Bytes.{bytes_of};

// Writes a number into four bytes of the list, high byte first.
pub(crate) fn put_word(list: &mut [u8], at: usize, v: u32)
    requires { at + 4 ≤ length list.old }
    ensures { list.new ≡ sets list.old at (bytes_of 4 v) }
{
    put_list(list, at, &v.to_be_bytes());
}

// Writes the other list into the list.
pub(crate) fn put_list(list: &mut [u8], at: usize, other: &[u8])
    requires { at + length other.now ≤ length list.old }
    ensures { list.new ≡ sets list.old at other.now }
{
    list[at..at + other.len()].copy_from_slice(other);
}
