// Messages as they arrive, for C: a feed in storage that the caller lends.
// Any content of the storage is a feed, and what a call leaves there is the feed that the next one finds.
ghost use Rattle.std.specs.Prelude.{◌≡◌, ℕ, ◌-◌, List};
ghost use Rattle.envelope.specs.Layout.{field_size};
ghost use Rattle.envelope.specs.Places.{place_for};
ghost use Rattle.envelope.specs.Told.{told_fault, told_refusal};
ghost use Rattle.feed.specs.Places.{in_room};
ghost use Rattle.feed.specs.Told.{told_standing, state_of, told_found};
ghost use Rattle.exports.specs.Feeds.{standing_number, refusal_for, standing_for, state_numbers, state_for, found_slots, fields_found, lent, TakesForC, EndsForC, RestartsForC, HoldsForC};
ghost use Rattle.exports.specs.Helpers.{NumbersAFault, told_slots};

use crate::answers::Slots;
use crate::envelopes::{FIELDS, numbers_of};
use envelope::{Envelope, Fault, Numbers};
use feed::{Beside, Feed, Message, Refusal, Standing, advance, close, held};

// How many numbers stand beside the bytes that a feed keeps.
pub const NUMBERS: usize = 2;

pub fn morlewen_feed_take(
    kept: &mut [u8; Feed::ROOM],
    numbers: &mut [u64; NUMBERS],
    piece: &[u8],
    fields: &mut [u64; FIELDS],
) -> u64
    ensures { TakesForC (lent kept.old numbers.old fields.old) piece.now result (lent kept.new numbers.new fields.new) }
{
    let step = advance(kept, beside_in(numbers), piece);
    *numbers = beside_numbers(step.beside);
    put_found(step.found, fields);
    found_slots(step.found, step.used).word()
}

pub fn morlewen_feed_end(numbers: &mut [u64; NUMBERS]) -> u64
    ensures { EndsForC numbers.old result numbers.new }
{
    let step = close(beside_in(numbers));
    *numbers = beside_numbers(step.beside);
    found_slots(step.found, 0).word()
}

pub fn morlewen_feed_restart(kept: &mut [u8; Feed::ROOM], numbers: &mut [u64; NUMBERS])
    ensures { RestartsForC kept.new numbers.new }
{
    *kept = [0u8; Feed::ROOM];
    *numbers = [0u64; NUMBERS];
}

pub fn morlewen_feed_message(kept: &[u8; Feed::ROOM], numbers: &[u64; NUMBERS]) -> u64
    ensures { HoldsForC kept.now numbers.now result }
{
    Slots::done(0, held(kept, beside_in(numbers)).len()).word()
}

// What stands beside the bytes kept, by its two numbers.
// Always inlined: each caller wants a part of it, and by a call the whole goes through memory.
#[inline(always)]
fn beside_in(numbers: &[u64; NUMBERS]) -> Beside
    ensures { (kept : List ℕ) → state_of kept result ≡ state_for kept numbers.now }
{
    let count = numbers[0] as usize;
    Beside {
        count,
        standing: standing_of(numbers[1], count),
    }
}

fn beside_numbers(beside: Beside) -> [u64; NUMBERS]
    ensures { (kept : List ℕ) → result ≡ state_numbers (state_of kept beside) }
{
    [beside.count as u64, standing_number(beside.standing)]
}

// Always inlined, as `beside_in`.
#[inline(always)]
fn standing_of(number: u64, count: usize) -> Standing
    ensures { told_standing result ≡ standing_for number count }
{
    match number {
        0 => Standing::Inside,
        51 => Standing::Refused(Refusal::TooLong),
        52 => Standing::Refused(Refusal::Cut),
        _ => match fault_of(number) {
            Some(fault) => Standing::Refused(Refusal::MessageRefused(refusal_of(fault, count))),
            None => Standing::Whole,
        },
    }
}

// The rule of reading that has this number, if one has.
fn fault_of(number: u64) -> Option<Fault>
    ensures { NumbersAFault number result }
{
    match number {
        1 => Some(Fault::TooShort),
        2 => Some(Fault::WrongVersion),
        3 => Some(Fault::BadFlags),
        4 => Some(Fault::BadVariableSize),
        5 => Some(Fault::WrongLength),
        6 => Some(Fault::BadAddresses),
        7 => Some(Fault::BadIntegrity),
        _ => None,
    }
}

// The refusal by this rule, where so many bytes are in: the place is not stored.
fn refusal_of(fault: Fault, count: usize) -> envelope::Refusal
    ensures { told_refusal result ≡ refusal_for (told_fault fault) count }
{
    envelope::Refusal {
        fault,
        place: place_of(fault, in_room(count)),
    }
}

// No more bytes are in than there is room for.
fn in_room(count: usize) -> usize
    ensures { result ≡ in_room count }
{
    count.min(Feed::ROOM)
}

// The place of a refusal by this rule, in a message of so many bytes.
#[tactic(auto, unfolding(envelope::specs::Places::place_for))]
fn place_of(fault: Fault, size: usize) -> usize
    ensures { result ≡ place_for (told_fault fault) size }
{
    match fault {
        Fault::TooShort => size,
        Fault::WrongVersion => Envelope::VERSION_PLACE,
        Fault::BadFlags => Envelope::FLAGS_PLACE,
        Fault::BadVariableSize => Envelope::VARIABLE_SIZE_PLACE,
        Fault::WrongLength => Envelope::DATA_LENGTH_PLACE,
        Fault::BadAddresses => Envelope::ADDRESSES_PLACE,
        Fault::BadIntegrity => before_field(size),
    }
}

// The last four bytes are the integrity field.
fn before_field(size: usize) -> usize
    ensures { result ≡ size - field_size }
{
    size.saturating_sub(Envelope::FIELD_SIZE)
}

fn standing_number(standing: Standing) -> u64
    ensures { result ≡ standing_number (told_standing standing) }
{
    match standing {
        Standing::Inside => 0,
        Standing::Whole => 255,
        Standing::Refused(refusal) => u64::from(Numbers::from(refusal).number),
    }
}

fn found_slots(found: Result<Option<Message>, Refusal>, used: usize) -> Slots
    ensures { told_slots result ≡ found_slots (told_found found) used }
{
    match found {
        Ok(None) => Slots::done(used, 0),
        Ok(Some(message)) => Slots::done(used, message.size),
        Err(refusal) => Slots::refused(Numbers::from(refusal), used),
    }
}

// By `put` of `found.ok().flatten().map(..)` it was tried: the proof of `morlewen_feed_take` did not close.
fn put_found(found: Result<Option<Message>, Refusal>, fields: &mut [u64; FIELDS])
    ensures { fields.new ≡ fields_found (told_found found) fields.old }
{
    if let Ok(Some(message)) = found {
        *fields = numbers_of(message.envelope);
    }
}
