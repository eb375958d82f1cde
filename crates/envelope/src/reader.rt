// Reading: any bytes in, the envelope out, or the first rule that they break.
ghost use Rattle.std.specs.Prelude.{◌≡◌};
ghost use Rattle.envelope.specs.Heading.{announced, bad_variable_size, heading};
ghost use Rattle.envelope.specs.Reading.{header_of};
ghost use Rattle.envelope.specs.Told.{told_header, NumbersFault, Reads};
ghost use Rattle.envelope.specs.Helpers.{told_heading};

use crate::addresses::addressing_of;
use crate::fields::{Envelope, Header, Part};
use crate::flags;
use crate::integrity_field::integrity_of;
use crate::numbers::{four_at, three_at, two_at};

// The rules of reading, in their order, each with its number in the table of refusals.
#[derive(Clone, Copy)]
pub enum Fault {
    TooShort = 1,
    WrongVersion = 2,
    BadFlags = 3,
    BadVariableSize = 4,
    WrongLength = 5,
    BadAddresses = 6,
    BadIntegrity = 7,
}

impl From<Fault> for u8 {
    ghost from_gives = { NumbersFault };

    fn from(fault: Fault) -> u8 {
        fault as u8
    }
}

// The rule that is broken, and the place in the message that it names. Whoever passes a refusal on passes it on whole.
#[derive(Clone, Copy)]
pub struct Refusal {
    pub fault: Fault,
    pub place: usize,
}

impl Fault {
    // Never inlined: of the two numbers of each refusal the compiler would make a constant in the archive.
    #[inline(never)]
    pub(crate) fn at(self, place: usize) -> Refusal
        ensures { result ≡ record { fault = self; place = place } }
    {
        Refusal { fault: self, place }
    }
}

// The rules in their order, and what the bytes say where none is broken.
pub fn read(bytes: &[u8]) -> Result<Envelope, Refusal>
    ensures { Reads bytes.now result }
{
    if bytes.len() < Envelope::LEAST_SIZE {
        return Err(Fault::TooShort.at(bytes.len()));
    }
    let header = bytes.first_chunk().unwrap();
    judge_heading(header)?;
    if announced_length(header) != bytes.len() {
        return Err(Fault::WrongLength.at(Envelope::DATA_LENGTH_PLACE));
    }
    let v = usize::from(header[Envelope::VARIABLE_SIZE_PLACE]);
    let addressing = addressing_of(bytes, v)?;
    let place = bytes.len() - Envelope::FIELD_SIZE;
    let kind = flags::kind(header[Envelope::FLAGS_PLACE]);
    let integrity = integrity_of(bytes, kind, place)?;
    let body_place = Envelope::HEADER_SIZE + v;
    let body = Part {
        place: body_place,
        size: place - body_place,
    };
    Ok(Envelope::new(header_of(header), addressing, body, integrity))
}

// Rules 2 to 4, on the header alone.
#[tactic(auto, unfolding(crate::specs::Heading::heading))]
pub(crate) fn judge_heading(header: &[u8; Envelope::HEADER_SIZE]) -> Result<(), Refusal>
    ensures { told_heading result ≡ heading header.now }
{
    if header[Envelope::VERSION_PLACE] != Envelope::HEADER_VERSION {
        return Err(Fault::WrongVersion.at(Envelope::VERSION_PLACE));
    }
    if flags::bad_flags(header[Envelope::FLAGS_PLACE]) {
        return Err(Fault::BadFlags.at(Envelope::FLAGS_PLACE));
    }
    if bad_variable_size(header[Envelope::VARIABLE_SIZE_PLACE]) {
        return Err(Fault::BadVariableSize.at(Envelope::VARIABLE_SIZE_PLACE));
    }
    Ok(())
}

// 17 + V + D + 4
#[tactic(auto, unfolding(crate::specs::Heading::announced))]
pub(crate) fn announced_length(header: &[u8; Envelope::HEADER_SIZE]) -> usize
    ensures { result ≡ announced header.now }
{
    let v = usize::from(header[Envelope::VARIABLE_SIZE_PLACE]);
    let d = three_at(header, Envelope::DATA_LENGTH_PLACE) as usize;
    Envelope::HEADER_SIZE + v + d + Envelope::FIELD_SIZE
}

#[tactic(auto, unfolding(crate::specs::Reading::header_of))]
fn header_of(header: &[u8; Envelope::HEADER_SIZE]) -> Header
    ensures { told_header result ≡ header_of header.now }
{
    Header {
        message_type: two_at(header, Envelope::TYPE_PLACE),
        version: header[Envelope::MESSAGE_VERSION_PLACE],
        flags: header[Envelope::FLAGS_PLACE],
        number: four_at(header, Envelope::NUMBER_PLACE),
        time: four_at(header, Envelope::TIME_PLACE),
    }
}

// Rule 4.
#[tactic(auto, unfolding(crate::specs::Heading::bad_variable_size))]
fn bad_variable_size(v: u8) -> bool
    ensures { result ≡ bad_variable_size v }
{
    v != 0 && !(Envelope::SMALLEST_VARIABLE..=Envelope::LARGEST_VARIABLE).contains(&usize::from(v))
}
