// Golden files, for C. The file is only read.
ghost use Rattle.std.specs.Prelude.{Ok, [], ◌≡◌};
ghost use Rattle.golden.specs.Checking.{told_checking};
ghost use Rattle.golden.specs.Comparing.{told_comparison};
ghost use Rattle.golden.specs.Finding.{told_finding};
ghost use Rattle.golden.specs.Listing.{told_counting, told_entry};
ghost use Rattle.golden.specs.Making.{told_making};
ghost use Rattle.golden.specs.Ordering.{told_ordering};
ghost use Rattle.golden.specs.Retiring.{told_retiring};
ghost use Rattle.golden.specs.Stepping.{told_reached};
ghost use Rattle.exports.specs.Goldens.{name_for, count_slots, CountsForC, CountsRetiredForC, check_slots, ChecksForC, find_slots, FindsForC, HalvesForC, order_slots, OrdersForC, line_slots, line_after, EntersForC, step_slots, part_after, StepsForC, compare_slots, ComparesForC, make_slots, MakesForC, retire_slots, RetiresForC};
ghost use Rattle.exports.specs.Helpers.{told_slots};

use crate::answers::{Slots, put};
use envelope::Numbers;
use golden::{
    Entry, Found, Name, Refusal, RefusedAfter, RefusedAt, Stored, ascending, check, compare, count,
    count_retired, entry_at, find, find_by_halving, make, retire, step,
};

// How many numbers a line of the listing is, and a part of the file.
pub const LINE: usize = 3;

pub const PART: usize = 2;

pub fn morlewen_records(file: &[u8]) -> u64
    ensures { CountsForC file.now result }
{
    count_slots(count(file)).word()
}

pub fn morlewen_retired_records(file: &[u8]) -> u64
    ensures { CountsRetiredForC file.now result }
{
    count_slots(count_retired(file)).word()
}

pub fn morlewen_check(file: &[u8]) -> u64
    ensures { ChecksForC file.now result }
{
    check_slots(check(file)).word()
}

pub fn morlewen_find(file: &[u8], message_type: u16, number: u32) -> u64
    ensures { FindsForC file.now (name_for message_type number) result }
{
    let name = Name {
        message_type,
        number,
    };
    find_slots(find(file, name)).word()
}

pub fn morlewen_find_by_halving(file: &[u8], message_type: u16, number: u32) -> u64
    ensures { HalvesForC file.now (name_for message_type number) result }
{
    let name = Name {
        message_type,
        number,
    };
    find_slots(find_by_halving(file, name)).word()
}

pub fn morlewen_ascending(file: &[u8]) -> u64
    ensures { OrdersForC file.now result }
{
    order_slots(ascending(file)).word()
}

pub fn morlewen_line(file: &[u8], record: usize, line: &mut [u64; LINE]) -> u64
    ensures { EntersForC file.now «record» line.old result line.new }
{
    let found = entry_at(file, record);
    put(found.ok().map(line_numbers), line);
    line_slots(found).word()
}

pub fn morlewen_step(file: &[u8], record: usize, part: &mut [u64; PART]) -> u64
    ensures { StepsForC file.now «record» part.old result part.new }
{
    let stepping = step(file, record);
    let reached = stepping.answer;
    put_part(reached, part);
    step_slots(reached, stepping.next - record).word()
}

pub fn morlewen_compare(file: &[u8], record: usize, radio: &[u8], places: &mut [u32]) -> u64
    ensures { ComparesForC file.now «record» radio.now places.old result places.new }
{
    compare_slots(compare(file, record, radio, places)).word()
}

pub fn morlewen_make(message: &[u8], buffer: &mut [u8]) -> u64
    ensures { MakesForC message.now buffer.old result buffer.new }
{
    made_slots(make(message, buffer)).word()
}

pub fn morlewen_retire(file: &[u8], record: usize, buffer: &mut [u8]) -> u64
    ensures { RetiresForC file.now «record» buffer.old result buffer.new }
{
    made_slots(retire(file, record, buffer)).word()
}

fn count_slots(counting: Result<usize, Refusal>) -> Slots
    ensures { told_slots result ≡ count_slots (told_counting counting) }
{
    match counting {
        Ok(records) => Slots::done(records, 0),
        Err(refusal) => Slots::refused(Numbers::from(refusal), 0),
    }
}

fn check_slots(checking: Result<usize, RefusedAt>) -> Slots
    ensures { told_slots result ≡ check_slots (told_checking checking) }
{
    match checking {
        Ok(records) => Slots::done(records, 0),
        Err(RefusedAt { record, refusal }) => Slots::refused(Numbers::from(refusal), record),
    }
}

fn find_slots(finding: Result<Found, RefusedAfter>) -> Slots
    ensures { told_slots result ≡ find_slots (told_finding finding) }
{
    match finding {
        Ok(Found { record, opened }) => Slots::done(opened, record),
        Err(RefusedAfter { refusal, opened }) => Slots::refused(Numbers::from(refusal), opened),
    }
}

fn order_slots(ordering: Result<Option<usize>, RefusedAt>) -> Slots
    ensures { told_slots result ≡ order_slots (told_ordering ordering) }
{
    match ordering {
        Ok(None) => Slots::done(0, 1),
        Ok(Some(record)) => Slots::done(record, 0),
        Err(RefusedAt { record, refusal }) => Slots::refused(Numbers::from(refusal), record),
    }
}

fn line_slots(found: Result<Entry, Refusal>) -> Slots
    ensures { told_slots result ≡ line_slots (told_entry found) }
{
    match found {
        Ok(entry) => Slots {
            number: 0,
            reading: u8::from(entry.retired),
            count: 0,
            value: 0,
        },
        Err(refusal) => Slots::refused(Numbers::from(refusal), 0),
    }
}

fn line_numbers(entry: Entry) -> [u64; LINE]
    ensures { result ≡ line_after (told_entry (Ok entry)) [] }
{
    [
        u64::from(entry.name.message_type),
        u64::from(entry.name.number),
        entry.size as u64,
    ]
}

fn step_slots(reached: Result<Option<Stored>, Refusal>, on: usize) -> Slots
    ensures { told_slots result ≡ step_slots (told_reached reached) on }
{
    match reached {
        Ok(Some(stored)) => Slots {
            number: 0,
            reading: u8::from(stored.retired),
            count: on,
            value: stored.part.size,
        },
        Ok(None) => Slots::done(on, 0),
        Err(refusal) => Slots::refused(Numbers::from(refusal), on),
    }
}

fn put_part(reached: Result<Option<Stored>, Refusal>, part: &mut [u64; PART])
    ensures { part.new ≡ part_after (told_reached reached) part.old }
{
    if let Ok(Some(stored)) = reached {
        *part = [stored.part.place as u64, stored.part.size as u64];
    }
}

fn compare_slots(comparison: Result<usize, Refusal>) -> Slots
    ensures { told_slots result ≡ compare_slots (told_comparison comparison) }
{
    match comparison {
        Ok(differing) => Slots::done(0, differing),
        Err(refusal) => Slots::refused(Numbers::from(refusal), 0),
    }
}

// Making and retiring answer alike.
fn made_slots(made: Result<(), Refusal>) -> Slots
    ensures { (told_slots result ≡ make_slots (told_making made)) × (told_slots result ≡ retire_slots (told_retiring made)) }
{
    match made {
        Ok(()) => Slots::done(0, 0),
        Err(refusal) => Slots::refused(Numbers::from(refusal), 0),
    }
}
