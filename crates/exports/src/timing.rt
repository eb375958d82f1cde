// Time and sequence, for C.
ghost use Rattle.std.specs.Prelude.{◌≡◌};
ghost use Rattle.envelope.specs.Lateness.{told_lateness};
ghost use Rattle.envelope.specs.Sequence.{Distance, told_sequence};
ghost use Rattle.envelope.specs.Told.{told_addressing};
ghost use Rattle.exports.specs.Envelopes.{lateness_number, addressing_for, JudgesLatenessForC, sequence_slots, JudgesSequenceForC};
ghost use Rattle.exports.specs.Word.{word};

use crate::answers::Slots;
use envelope::lateness::Lateness;
use envelope::sequence::Sequence;
use envelope::{Addressing, Envelope, Header, Integrity, Part, lateness, sequence};

pub fn morlewen_lateness_from_entry(addressed: u8, ttl: u16, entry: u64, clock: u64) -> u8
    ensures { JudgesLatenessForC addressed ttl entry clock result }
{
    let addressing = addressing_of(addressed, ttl);
    let judged = Envelope::new(any_header(), addressing, nowhere(), Integrity::None);
    lateness_number(lateness::judge(judged, entry, clock))
}

pub fn morlewen_distance(old: u32, new: u32) -> i32
    ensures { Distance old new result }
{
    sequence::distance(old, new)
}

pub fn morlewen_sequence(old: u32, new: u32) -> u64
    ensures { JudgesSequenceForC old new result }
{
    sequence_word(sequence::judge(old, new))
}

// Only the TTL matters to lateness.
fn addressing_of(addressed: u8, ttl: u16) -> Option<Addressing>
    ensures { told_addressing result ≡ addressing_for addressed ttl }
{
    (addressed != 0).then_some(Addressing {
        ttl,
        qos: 0,
        source: nowhere(),
        destination: nowhere(),
    })
}

// Lateness does not look at the header.
fn any_header() -> Header {
    Header {
        message_type: 0,
        version: 0,
        flags: 0,
        number: 0,
        time: 0,
    }
}

fn nowhere() -> Part
    ensures { result ≡ record { place = 0; size = 0 } }
{
    Part { place: 0, size: 0 }
}

fn lateness_number(lateness: Lateness) -> u8
    ensures { result ≡ lateness_number (told_lateness lateness) }
{
    match lateness {
        Lateness::InTime => 0,
        Lateness::Late => 1,
        Lateness::NoClock => 2,
    }
}

fn sequence_word(sequence: Sequence) -> u64
    ensures { result ≡ word (sequence_slots (told_sequence sequence)) }
{
    match sequence {
        Sequence::Repeat => Slots::done(0, 0).word(),
        Sequence::Next => Slots::done(1, 1).word(),
        Sequence::Ahead(steps) => Slots::done(2, steps as usize).word(),
        Sequence::Behind(steps) => Slots::done(3, steps as usize).word(),
    }
}
