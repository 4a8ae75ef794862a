// The two editions of a saved plant. The writer writes the second and the reader reads it; the converter reads the first.
ghost use Rattle.std.specs.Prelude.{◌≡◌};
ghost use Rattle.saved.specs.Reading.{line_length};

use table::cells;

// How many bytes of a line of edition 1 stand before its row.
pub(crate) const OLD_HEAD: usize = 4;

// Which edition a file is read as.
#[derive(Clone, Copy)]
pub enum Edition {
    One,
    Two,
}

impl Edition {
    // The length of a line of a plant of n stations.
    pub fn line_length(self, n: u8) -> usize
        ensures { result ≡ line_length self n }
    {
        let head = match self {
            Edition::One => OLD_HEAD,
            Edition::Two => cells::HEAD as usize,
        };
        n as usize + head
    }
}
