// Tagged fields: a one-byte tag, a two-byte length (high byte first), then the contents. A cursor reads them one after the other.
ghost use Rattle.saved.specs.Reading.{Reads, ReadsFirst};

use lists::refusal::Refusal;

// A field of a file.
#[derive(Clone, Copy)]
pub struct Field<'a> {
    pub tag: u8,
    pub contents: &'a [u8],
}

// The fields of a file that are still to be read.
#[derive(Clone, Copy)]
pub struct Fields<'a> {
    pub rest: &'a [u8],
}

impl<'a> Fields<'a> {
    // The next field, or none at the end. Refusal 18: it or its head runs past the end.
    pub fn next(&mut self) -> Result<Option<Field<'a>>, Refusal>
        ensures fields { Reads self.old.rest.now result self.new.rest.now }
        ensures first_field { ReadsFirst self.old.rest.now result self.new.rest.now }
    {
        match self.rest {
            [] => Ok(None),
            [tag, high, low, behind @ ..] => {
                let len = u16::from_be_bytes([*high, *low]) as usize;
                let Some((contents, rest)) = behind.split_at_checked(len) else {
                    return Err(Refusal::FieldPastEnd);
                };
                self.rest = rest;
                Ok(Some(Field {
                    tag: *tag,
                    contents,
                }))
            }
            _ => Err(Refusal::FieldPastEnd),
        }
    }
}
