// Writing: what a sender gives, as a message at the front of a lent buffer.
// First the whole answer is judged, with nothing written; only a message that fits is put down.
ghost use Rattle.std.specs.Prelude.{◌≡◌, ◌+◌, ◌<◌, ◌≤◌, [], ◌∷◌, ◌++◌, length};
ghost use Rattle.envelope.specs.Flags.{told_kind};
ghost use Rattle.envelope.specs.Helpers.{Allowed, pasted, variable_of_length};
ghost use Rattle.envelope.specs.Layout.{header_size, largest_variable, largest_address, largest_body};
ghost use Rattle.envelope.specs.Message.{header_bytes, variable_of, before_field, field_number, message};
ghost use Rattle.envelope.specs.Told.{told_header};
ghost use Rattle.envelope.specs.Writing.{bad_end, bad_ends, stray_integrity, writing, answer_to_writing, told_given, told_writing, NumbersWriteFault, Writes};

use crate::fields::{Envelope, Header, Kind};
use crate::flags;
use crate::numbers::{four_digits, three_digits, two_digits};

// The front of a variable header.
#[derive(Clone, Copy)]
pub struct Routing {
    pub ttl: u16,
    pub qos: u16,
}

// What a sender gives: the ends without their zeros, and an application's integrity number.
#[derive(Clone, Copy)]
pub struct Given<'a> {
    pub header: Header,
    pub routing: Option<Routing>,
    pub source: &'a [u8],
    pub destination: &'a [u8],
    pub body: &'a [u8],
    pub application: u32,
}

// The refusals of writing, in their order, each with its number in the table of refusals.
#[derive(Clone, Copy)]
pub enum WriteFault {
    BadFlags = 11,
    BadAddresses = 12,
    BodyTooLong = 13,
    StrayIntegrity = 14,
    NoRoom = 15,
}

impl From<WriteFault> for u8 {
    ghost from_gives = { NumbersWriteFault };

    fn from(fault: WriteFault) -> u8 {
        fault as u8
    }
}

pub fn write(given: Given<'_>, buffer: &mut [u8]) -> Result<usize, WriteFault>
    ensures { Writes (told_given given.entry) buffer.old result buffer.new }
{
    let size = given.judge(buffer.len())?;
    given.fill(buffer);
    Ok(size)
}

impl Given<'_> {
    // The answer, with nothing written.
    #[tactic(auto, unfolding(crate::specs::Writing::writing))]
    fn judge(self, room: usize) -> Result<usize, WriteFault>
        ensures { told_writing result ≡ answer_to_writing (writing (told_given self.entry) room) }
    {
        if flags::bad_flags(self.header.flags) {
            return Err(WriteFault::BadFlags);
        }
        if self.bad_ends() {
            return Err(WriteFault::BadAddresses);
        }
        if Envelope::LARGEST_BODY < self.body.len() {
            return Err(WriteFault::BodyTooLong);
        }
        if stray_integrity(self.application, flags::kind(self.header.flags)) {
            return Err(WriteFault::StrayIntegrity);
        }
        let variable = self.variable_length();
        let size = Envelope::HEADER_SIZE + variable + self.body.len() + Envelope::FIELD_SIZE;
        if room < size {
            return Err(WriteFault::NoRoom);
        }
        Ok(size)
    }

    // Rule 12.
    fn bad_ends(self) -> bool
        ensures { result ≡ bad_ends (told_given self.entry).routing (told_given self.entry).source (told_given self.entry).destination }
    {
        bad_end(self.source)
            || bad_end(self.destination)
            || self.routing.is_none() && !(self.source.is_empty() && self.destination.is_empty())
    }

    // The size of the variable header.
    fn variable_length(self) -> usize
        requires { (length self.source.now < largest_address) × (length self.destination.now < largest_address) }
        ensures { (result ≡ variable_of_length (told_given self.entry)) × (result ≤ largest_variable) }
    {
        match self.routing {
            None => 0,
            Some(_) => Envelope::ROUTING_SIZE + self.source.len() + 1 + self.destination.len() + 1,
        }
    }

    // The whole message, at the front of a buffer that has room for it.
    fn fill(self, buffer: &mut [u8])
        requires { Allowed (told_given self) (length buffer.old) }
        ensures { buffer.new ≡ pasted buffer.old 0 (message (told_given self.entry)) }
    {
        let end = self.put_before_field(buffer);
        let kind = flags::kind(self.header.flags);
        let number = field_number(kind, self.application, &buffer[..end]);
        put(buffer, end, &four_digits(number));
    }

    // All that stands before the integrity field; answers where that field begins.
    fn put_before_field(self, buffer: &mut [u8]) -> usize
        requires { Allowed (told_given self) (length buffer.old) }
        ensures { (result ≡ header_size + variable_of_length (told_given self.entry) + length (told_given self.entry).body)
            × (buffer.new ≡ pasted buffer.old 0 (before_field (told_given self.entry))) }
    {
        let front = header_digits(self.header, self.variable_length(), self.body.len());
        let variable_place = put(buffer, 0, &front);
        let body_place = self.put_variable(buffer, variable_place);
        put(buffer, body_place, self.body)
    }

    fn put_variable(self, buffer: &mut [u8], place: usize) -> usize
        requires { place + variable_of_length (told_given self) ≤ length buffer.old }
        ensures { (result ≡ place + variable_of_length (told_given self.entry))
            × (buffer.new ≡ pasted buffer.old place (variable_of (told_given self.entry))) }
    {
        match self.routing {
            None => place,
            Some(routing) => {
                let ttl = two_digits(routing.ttl);
                let qos = two_digits(routing.qos);
                let source_place = put(buffer, place, &[ttl[0], ttl[1], qos[0], qos[1]]);
                let destination_place = put_end(buffer, source_place, self.source);
                put_end(buffer, destination_place, self.destination)
            }
        }
    }
}

// Always inlined: an empty end needs no search, and then there is no call.
#[inline(always)]
#[tactic(auto, unfolding(crate::specs::Writing::bad_end))]
fn bad_end(end: &[u8]) -> bool
    ensures { result ≡ bad_end end.now }
{
    Envelope::LARGEST_ADDRESS <= end.len() || !end.is_empty() && end.contains(&0)
}

// Rule 14.
#[tactic(auto, unfolding(crate::specs::Writing::stray_integrity))]
fn stray_integrity(application: u32, kind: Kind) -> bool
    ensures { result ≡ stray_integrity application (told_kind kind) }
{
    match kind {
        Kind::None | Kind::Crc => application != 0,
        Kind::Application | Kind::Unassigned => false,
    }
}

// An address and its closing zero.
fn put_end(buffer: &mut [u8], place: usize, end: &[u8]) -> usize
    requires { place + (length end.now + 1) ≤ length buffer.old }
    ensures { (result ≡ place + (length end.now + 1)) × (buffer.new ≡ pasted buffer.old place (end.now ++ 0 ∷ [])) }
{
    let zero = put(buffer, place, end);
    buffer[zero] = 0;
    zero + 1
}

// Copies a part into the buffer from a place, and answers the place after it.
// Always inlined, and nothing done for an empty part: of that, and of a part of a known size, there is no call of a copy.
#[inline(always)]
fn put(buffer: &mut [u8], place: usize, part: &[u8]) -> usize
    requires { place + length part.now ≤ length buffer.old }
    ensures { (result ≡ place + length part.now) × (buffer.new ≡ pasted buffer.old place part.now) }
{
    if part.is_empty() {
        return place;
    }
    let end = place + part.len();
    buffer[place..end].copy_from_slice(part);
    end
}

fn header_digits(header: Header, v: usize, d: usize) -> [u8; Envelope::HEADER_SIZE]
    requires { (v < 256) × (d ≤ largest_body) }
    ensures { result ≡ header_bytes (told_header header) v d }
{
    let message_type = two_digits(header.message_type);
    let data_length = three_digits(d as u32);
    let number = four_digits(header.number);
    let time = four_digits(header.time);
    [
        Envelope::HEADER_VERSION,
        message_type[0],
        message_type[1],
        header.version,
        header.flags,
        data_length[0],
        data_length[1],
        data_length[2],
        number[0],
        number[1],
        number[2],
        number[3],
        time[0],
        time[1],
        time[2],
        time[3],
        v as u8,
    ]
}

#[tactic(auto, unfolding(crate::specs::Message::field_number))]
fn field_number(kind: Kind, application: u32, before: &[u8]) -> u32
    ensures { result ≡ field_number (told_kind kind) application before.now }
{
    match kind {
        Kind::None => 0,
        Kind::Crc => sum::crc(before),
        // Rule 3 has refused a kind that is not assigned.
        Kind::Application | Kind::Unassigned => application,
    }
}
