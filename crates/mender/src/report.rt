// The report: the changes as bytes, one behind the other.
ghost use Rattle.std.specs.Prelude.{◌≡◌};

// A byte of the table that was mended: where it stands, what it was, and what it is.
#[derive(Clone, Copy, Debug, PartialEq, Eq)]
pub struct Change {
    pub offset: u16,
    pub before: u8,
    pub after: u8,
}

impl Change {
    ghost use Rattle.mender.specs.Report.{change_bytes};

    // Its four bytes in a report: the offset, high byte first, the old byte and the new one.
    pub fn bytes(self) -> [u8; 4]
        ensures { result ≡ change_bytes self }
    {
        let [high, low] = self.offset.to_be_bytes();
        [high, low, self.before, self.after]
    }
}
