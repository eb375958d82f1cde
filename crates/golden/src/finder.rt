// Find: the first live record of a name, before any bad record, with the number of records opened.
ghost use Rattle.std.specs.Prelude.{not, ◌&&◌, ◌≡◌};
ghost use Rattle.envelope.specs.Told.{told_envelope};
ghost use Rattle.golden.specs.Finding.{has_name, name_of, told_name, Finds};

use crate::file::{count, records};
use crate::record::{GoodRecord, open};
use crate::refusal::Refusal;

// A record's name: what find seeks, and what no two live records of a checked file share. Names are ordered by type, then by number.
#[derive(Clone, Copy, PartialEq, Eq, PartialOrd, Ord)]
pub struct Name {
    pub message_type: u16,
    pub number: u32,
}

impl From<GoodRecord> for Name {
    ghost from_gives = { λ good name. told_name name ≡ name_of (told_envelope good.envelope) };

    fn from(good: GoodRecord) -> Name {
        let header = good.envelope.header;
        Name {
            message_type: header.message_type,
            number: header.number,
        }
    }
}

// The record found, and how many were opened.
#[derive(Clone, Copy)]
pub struct Found {
    pub record: usize,
    pub opened: usize,
}

// A refusal, and how many records were opened.
#[derive(Clone, Copy)]
pub struct RefusedAfter {
    pub refusal: Refusal,
    pub opened: usize,
}

// What is no golden file is refused with no record opened.
impl From<Refusal> for RefusedAfter {
    ghost from_gives = { λ refusal after. after ≡ record { refusal = refusal; opened = 0 } };

    fn from(refusal: Refusal) -> RefusedAfter {
        RefusedAfter { refusal, opened: 0 }
    }
}

pub fn find(file: &[u8], name: Name) -> Result<Found, RefusedAfter>
    ensures { Finds file.now name result }
{
    let count = count(file)?;
    for (n, bytes) in records(file).iter().enumerate() {
        let opened = n + 1;
        let good = open(bytes).map_err(|refusal| RefusedAfter { refusal, opened })?;
        if is_named(name, good) {
            return Ok(Found { record: n, opened });
        }
    }
    Err(RefusedAfter {
        refusal: Refusal::NotFound,
        opened: count,
    })
}

// A retired record is not found by its name.
fn is_named(name: Name, good: GoodRecord) -> bool
    ensures { result ≡ (not good.retired && has_name (told_name name) (told_envelope good.envelope)) }
{
    !good.retired && Name::from(good) == name
}
