// Late: whether a message is late at a clock, counted from its entry, and by how many seconds.
// Rests on `envelope`, which reads the message and judges it.
use crate::reading::refuse_reading;
use envelope::lateness::{Lateness, judge};
use envelope::{Addressing, Envelope, read};
use wording::{Row, Status, Teller, Told};

const TEN: u64 = 10;

// The parts of the choice in the template, in its order.
#[derive(Clone, Copy)]
enum Part {
    InTime,
    Late,
    Absent,
    Zero,
    InTimeForLong,
}

// What is told: which part of the choice, its seconds, of which the last digit may stand apart, and whether the clock is before the entry.
#[derive(Clone, Copy)]
struct Seconds {
    part: Part,
    seconds: u64,
    last: u64,
    before: bool,
}

pub fn late_message(
    teller: &Teller<'_, impl Print + Eprint>,
    message: &[u8],
    entry: u64,
    clock: u64,
) -> Told {
    match read(message) {
        Ok(accepted) => tell_lateness(teller, accepted, entry, clock, message),
        Err(refusal) => refuse_reading(teller, refusal),
    }
}

fn tell_lateness(
    teller: &Teller<'_, impl Print + Eprint>,
    accepted: Envelope,
    entry: u64,
    clock: u64,
    message: &[u8],
) -> Told {
    let addressing = accepted.addressing;
    let ttl = addressing.map_or(0, |addressing| u64::from(addressing.ttl));
    match judge(accepted, entry, clock) {
        Lateness::InTime => {
            let left = left_of(entry, ttl, clock);
            tell_seconds(teller, Status::Done, left, message)
        }
        Lateness::Late => {
            let past = clock.wrapping_sub(entry).wrapping_sub(ttl);
            let past = few(Part::Late, past, false);
            tell_seconds(teller, Status::Refused, past, message)
        }
        Lateness::NoClock => {
            let none = few(reason_of(addressing), 0, false);
            tell_seconds(teller, Status::Refused, none, message)
        }
    }
}

// Why there is no clock.
fn reason_of(addressing: Option<Addressing>) -> Part {
    match addressing {
        None => Part::Absent,
        Some(_) => Part::Zero,
    }
}

fn few(part: Part, seconds: u64, before: bool) -> Seconds {
    Seconds {
        part,
        seconds,
        last: 0,
        before,
    }
}

// The seconds up to entry + TTL. With a clock far before the entry they are past the type, and go by their last digit and what is before it.
fn left_of(entry: u64, ttl: u64, clock: u64) -> Seconds {
    let left = entry.wrapping_add(ttl).wrapping_sub(clock);
    if entry <= clock {
        return few(Part::InTime, left, false);
    }
    if ttl <= left {
        return few(Part::InTime, left, true);
    }
    many(entry - clock, ttl)
}

fn many(before: u64, ttl: u64) -> Seconds {
    let ones = before % TEN + ttl % TEN;
    Seconds {
        part: Part::InTimeForLong,
        seconds: before / TEN + ttl / TEN + ones / TEN,
        last: ones % TEN,
        before: true,
    }
}

fn tell_seconds(
    teller: &Teller<'_, impl Print + Eprint>,
    status: Status,
    told: Seconds,
    message: &[u8],
) -> Told {
    let seconds = told.seconds;
    teller.tell(
        status,
        Row::Lateness,
        &[
            told.part as u64,
            seconds,
            seconds,
            seconds,
            told.last,
            u64::from(told.before),
        ],
        message,
    )
}
