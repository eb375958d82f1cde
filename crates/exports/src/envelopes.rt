// Messages, for C: reading into sixteen numbers, writing, and writing again.
ghost use Rattle.std.specs.Prelude.{◌≡◌};
ghost use Rattle.envelope.specs.Rewriting.{told_rewriting};
ghost use Rattle.envelope.specs.Told.{told_addressing, told_integrity, told_envelope, told};
ghost use Rattle.envelope.specs.Writing.{told_routing, told_writing};
ghost use Rattle.exports.specs.Envelopes.{end_numbers, kind_number, held_number, field_numbers, read_slots, ReadsForC, routing_for, write_slots, given_for_c, WritesForC, rewrite_slots, RewritesForC};
ghost use Rattle.exports.specs.Helpers.{told_ends, told_slots};

use crate::answers::{Slots, put};
use envelope::{
    Addressing, Envelope, Given, Header, Integrity, Numbers, Refusal, RewriteFault, Routing,
    WriteFault, read, rewrite, write,
};

// How many numbers the fields of a message are.
pub const FIELDS: usize = 16;

// The numbers of an addressing; all 0 where it is absent.
#[derive(Clone, Copy)]
struct Ends {
    addressed: u64,
    ttl: u64,
    qos: u64,
    source_place: u64,
    source_size: u64,
    destination_place: u64,
    destination_size: u64,
}

pub fn morlewen_read(bytes: &[u8], fields: &mut [u64; FIELDS]) -> u64
    ensures { ReadsForC bytes.now fields.old result fields.new }
{
    let reading = read(bytes);
    put(reading.ok().map(numbers_of), fields);
    read_slots(reading).word()
}

// A field for each argument: the C interface has no `Given`.
pub fn morlewen_write(
    message_type: u16,
    version: u8,
    flags: u8,
    number: u32,
    time: u32,
    addressed: u8,
    ttl: u16,
    qos: u16,
    source: &[u8],
    destination: &[u8],
    body: &[u8],
    integrity: u32,
    buffer: &mut [u8],
) -> u64
    ensures { WritesForC (given_for_c message_type version flags number time addressed ttl qos source.now destination.now body.now integrity) buffer.old result buffer.new }
{
    let header = Header {
        message_type,
        version,
        flags,
        number,
        time,
    };
    let given = Given {
        header,
        routing: routing_of(addressed, ttl, qos),
        source,
        destination,
        body,
        application: integrity,
    };
    write_slots(write(given, buffer)).word()
}

pub fn morlewen_rewrite(bytes: &[u8], buffer: &mut [u8]) -> u64
    ensures { RewritesForC bytes.now buffer.old result buffer.new }
{
    rewrite_slots(rewrite(bytes, buffer)).word()
}

fn read_slots(reading: Result<Envelope, Refusal>) -> Slots
    ensures { told_slots result ≡ read_slots (told reading) }
{
    match reading {
        Ok(_) => Slots::done(0, 0),
        Err(refusal) => Slots::refused(Numbers::from(refusal), 0),
    }
}

pub(crate) fn numbers_of(accepted: Envelope) -> [u64; FIELDS]
    ensures { result ≡ field_numbers (told_envelope accepted) }
{
    let addressing = accepted.addressing;
    let integrity = accepted.integrity;
    let ends = ends_of(addressing);
    let kind = kind_of(integrity);
    let held = held_by(integrity);
    [
        u64::from(accepted.header.message_type),
        u64::from(accepted.header.version),
        u64::from(accepted.header.flags),
        u64::from(accepted.header.number),
        u64::from(accepted.header.time),
        ends.addressed,
        ends.ttl,
        ends.qos,
        ends.source_place,
        ends.source_size,
        ends.destination_place,
        ends.destination_size,
        accepted.body.place as u64,
        accepted.body.size as u64,
        kind,
        held,
    ]
}

fn ends_of(addressing: Option<Addressing>) -> Ends
    ensures { told_ends result ≡ end_numbers (told_addressing addressing) }
{
    match addressing {
        None => Ends {
            addressed: 0,
            ttl: 0,
            qos: 0,
            source_place: 0,
            source_size: 0,
            destination_place: 0,
            destination_size: 0,
        },
        Some(present) => Ends {
            addressed: 1,
            ttl: u64::from(present.ttl),
            qos: u64::from(present.qos),
            source_place: present.source.place as u64,
            source_size: present.source.size as u64,
            destination_place: present.destination.place as u64,
            destination_size: present.destination.size as u64,
        },
    }
}

fn kind_of(integrity: Integrity) -> u64
    ensures { result ≡ kind_number (told_integrity integrity) }
{
    match integrity {
        Integrity::None => 0,
        Integrity::Crc(_) => 1,
        Integrity::Application(_) => 2,
    }
}

fn held_by(integrity: Integrity) -> u64
    ensures { result ≡ held_number (told_integrity integrity) }
{
    match integrity {
        Integrity::None => 0,
        Integrity::Crc(held) => u64::from(held),
        Integrity::Application(held) => u64::from(held),
    }
}

fn routing_of(addressed: u8, ttl: u16, qos: u16) -> Option<Routing>
    ensures { told_routing result ≡ routing_for addressed ttl qos }
{
    (addressed != 0).then_some(Routing { ttl, qos })
}

fn write_slots(writing: Result<usize, WriteFault>) -> Slots
    ensures { told_slots result ≡ write_slots (told_writing writing) }
{
    match writing {
        Ok(size) => Slots::done(0, size),
        Err(fault) => Slots {
            number: u8::from(fault),
            reading: 0,
            count: 0,
            value: 0,
        },
    }
}

fn rewrite_slots(rewriting: Result<usize, RewriteFault>) -> Slots
    ensures { told_slots result ≡ rewrite_slots (told_rewriting rewriting) }
{
    match rewriting {
        Ok(size) => Slots::done(0, size),
        Err(RewriteFault::Refused(refusal)) => Slots::refused(Numbers::from(refusal), 0),
        Err(RewriteFault::NoRoom) => Slots {
            number: u8::from(WriteFault::NoRoom),
            reading: 0,
            count: 0,
            value: 0,
        },
    }
}
