// A record of a golden file: its sizes, how it is judged, and how a fresh one is made.
ghost use Rattle.std.specs.Prelude.{◌≡◌, ◌≤◌, length};
ghost use Rattle.golden.specs.Helpers.{told_opening, opening};
ghost use Rattle.golden.specs.Making.{record_of};
ghost use Rattle.golden.specs.Record.{message_room, stored_word, is_retired, stored_length, all_zero, bad_length};

use crate::refusal::Refusal;
use envelope::numbers::{two_bytes, two_digits};
use envelope::{Envelope, read};

#[derive(Clone, Copy)]
pub struct Record {
    pub bytes: [u8; Record::SIZE],
}

// What a good record holds.
#[derive(Clone, Copy)]
pub struct GoodRecord {
    pub size: usize,
    pub retired: bool,
    pub envelope: Envelope,
}

impl Record {
    pub const SIZE: usize = 512;
    // The stored length's own bytes.
    pub const HEAD_SIZE: usize = 2;
    // The top bit of the stored length, which marks a retired record, and that bit in its first byte.
    pub(crate) const RETIRED_MARK: u16 = 32768;

    pub(crate) const TOP_BIT: u8 = 128;
    // The longest message that fits.
    pub const MESSAGE_ROOM: usize = Record::SIZE - Record::HEAD_SIZE;
    // Where the type and the number of its message stand.
    pub(crate) const TYPE_PLACE: usize = Record::HEAD_SIZE + Envelope::TYPE_PLACE;

    pub(crate) const NUMBER_PLACE: usize = Record::HEAD_SIZE + Envelope::NUMBER_PLACE;

    // The most records that a file may have, and so its largest size.
    pub const MOST_RECORDS: usize = 128;

    pub const LARGEST_FILE: usize = Record::SIZE * Record::MOST_RECORDS;

    // A fresh record is zero bytes until length and message go in.
    pub(crate) fn of(message: &[u8]) -> Record
        requires { length message.now ≤ message_room }
        ensures { result.bytes ≡ record_of message.now }
    {
        let mut fresh = [0u8; Record::SIZE];
        fresh[..Record::HEAD_SIZE].copy_from_slice(&two_digits(message.len() as u16));
        fresh[Record::HEAD_SIZE..Record::HEAD_SIZE + message.len()].copy_from_slice(message);
        Record { bytes: fresh }
    }
}

// Judges the bytes of one record.
pub(crate) fn open(bytes: &[u8; Record::SIZE]) -> Result<GoodRecord, Refusal>
    ensures { told_opening result ≡ opening bytes.now }
{
    let size = stored_length(bytes);
    if bad_length(size) {
        return Err(Refusal::BadLength);
    }
    let end = Record::HEAD_SIZE + size;
    if !all_zero(&bytes[end..]) {
        return Err(Refusal::NotClear);
    }
    let envelope = read(&bytes[Record::HEAD_SIZE..end]).map_err(Refusal::RecordRefused)?;
    Ok(GoodRecord {
        size,
        retired: is_retired(bytes),
        envelope,
    })
}

#[tactic(auto, unfolding(crate::specs::Record::stored_length))]
pub(crate) fn stored_length(bytes: &[u8; Record::SIZE]) -> usize
    ensures { result ≡ stored_length bytes.now }
{
    usize::from(stored_word(bytes) % Record::RETIRED_MARK)
}

#[tactic(auto, unfolding(crate::specs::Record::is_retired))]
pub(crate) fn is_retired(bytes: &[u8; Record::SIZE]) -> bool
    ensures { result ≡ is_retired bytes.now }
{
    Record::RETIRED_MARK <= stored_word(bytes)
}

#[tactic(auto, using(envelope::proofs::RuleLaws::two_at_is), unfolding(crate::specs::Record::stored_word))]
fn stored_word(bytes: &[u8; Record::SIZE]) -> u16
    ensures { result ≡ stored_word bytes.now }
{
    two_bytes(bytes[0], bytes[1])
}

#[tactic(auto, unfolding(crate::specs::Record::bad_length))]
fn bad_length(size: usize) -> bool
    ensures { result ≡ bad_length size }
{
    size < Envelope::LEAST_SIZE || Record::MESSAGE_ROOM < size
}

fn all_zero(bytes: &[u8]) -> bool
    ensures { result ≡ all_zero bytes.now }
{
    bytes.iter().all(|byte| *byte == 0)
}
