// The first pass over a file: whether its fields end where it ends and stand in order, its size and its tally. Refusals 18, 21, 22, 19 and 1.
ghost use Rattle.std.specs.Prelude.{◌≡◌};
ghost use Rattle.saved.specs.Reading.{field_value, found_with, complete, opened};

use crate::edition::Edition;
use crate::fields::{Field, Fields};
use crate::order::NOTHING_BEFORE;
use crate::{LINE, Loaded, SIZE, TALLY, order};
use lists::refusal::Refusal;
use plant::Tally;
use table::sizes;

// What is found of size and tally, each of which is to stand in the file once.
#[derive(Clone, Copy)]
pub struct Found {
    pub size: Option<u8>,
    pub tally: Option<Tally>,
}

impl Found {
    // What is found with one field more. It is refused if it appears twice or has the wrong length.
    #[tactic(auto, using(crate::proofs::FirstPass::size_read), unfolding(crate::specs::Reading::found_with))]
    pub fn with(self, field: Field) -> Result<Found, Refusal>
        ensures { result ≡ found_with self (field_value field.entry) }
    {
        match field.tag {
            SIZE => match (self.size, field.contents) {
                (None, [size]) => Ok(Found {
                    size: Some(*size),
                    ..self
                }),
                _ => Err(Refusal::SizeOrTallyField),
            },
            TALLY => match (self.tally, field.contents) {
                (None, [a, b, c, d, e, f, g, h]) => Ok(Found {
                    tally: Some(Tally {
                        rounds: u32::from_be_bytes([*a, *b, *c, *d]),
                        tests: u32::from_be_bytes([*e, *f, *g, *h]),
                    }),
                    ..self
                }),
                _ => Err(Refusal::SizeOrTallyField),
            },
            _ => Ok(self),
        }
    }

    // Size and tally, where both are found and the size is one. Refusals 19 and 1.
    fn complete(self) -> Result<Loaded, Refusal>
        ensures { result ≡ complete self }
    {
        let size = self.size.ok_or(Refusal::SizeOrTallyField)?;
        let tally = self.tally.ok_or(Refusal::SizeOrTallyField)?;
        if !sizes::is_size(size as usize) {
            return Err(Refusal::SizeOutOfRange);
        }
        Ok(Loaded { size, tally })
    }
}

// Size and tally of a file of that edition, or its refusal 18, 21, 22, 19 or 1. A field that is refused by one of the others does not end the pass,
// since 18 comes first, and 21 and 22 come before 19.
pub fn open(file: &[u8], edition: Edition) -> Result<Loaded, Refusal>
    ensures { result ≡ opened edition file.now }
{
    let mut fields = Fields { rest: file };
    let opens = order::opens(edition, &mut fields)?;
    let mut in_order = true;
    let mut previous = NOTHING_BEFORE;
    let mut found = Ok(Found {
        size: None,
        tally: None,
    });
    while let Some(field) = fields.next()? {
        in_order &= previous.allows(field);
        previous = previous.behind(field, edition);
        if field.tag == LINE {
            continue; // most fields are lines, and say nothing of size and tally
        }
        // Not `and_then`: a proof learns nothing of what a closure over a borrowed field returns.
        if let Ok(before) = found {
            found = before.with(field);
        }
    }
    if !opens {
        return Err(Refusal::NoOpening);
    }
    if !in_order {
        return Err(Refusal::FieldOrder);
    }
    found?.complete()
}
