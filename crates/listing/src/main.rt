// Lists a golden file from standard input: the count, then a line for each record.
#![tactic(auto)]

use console::files::read_full;
use envelope::Numbers;
use golden::{Entry, Record, Refusal, count, entry_at};
use std::io;
use std::io::Write;

// A byte more than the largest file, so that a longer input is refused and not cut short.
const ROOM: usize = Record::LARGEST_FILE + 1;

fn main(rt: HostRuntime) -> io::Result<()> {
    let mut buffer = [0u8; ROOM];
    let size = read_full(&mut rt.stdin(), &mut buffer)?;
    list(&mut rt.stdout(), &buffer[..size])
}

fn list(out: &mut impl Write, file: &[u8]) -> io::Result<()> {
    match count(file) {
        Ok(records) => list_records(out, file, records),
        Err(refusal) => refused(out, refusal),
    }
}

fn list_records(out: &mut impl Write, file: &[u8], records: usize) -> io::Result<()> {
    writeln!(out, "records {records}")?;
    for n in 0..records {
        line(out, file, n)?;
    }
    Ok(())
}

// The record's number, and what the library answers of it.
fn line(out: &mut impl Write, file: &[u8], n: usize) -> io::Result<()> {
    write!(out, "{n} ")?;
    match entry_at(file, n) {
        Ok(entry) => good(out, entry),
        Err(refusal) => refused(out, refusal),
    }
}

fn good(out: &mut impl Write, entry: Entry) -> io::Result<()> {
    let (name, size) = (entry.name, entry.size);
    let (message_type, number) = (name.message_type, name.number);
    let retired = if entry.retired { " retired" } else { "" };
    writeln!(out, "{message_type} {number} {size}{retired}")
}

fn refused(out: &mut impl Write, refusal: Refusal) -> io::Result<()> {
    let Numbers {
        number,
        reading,
        place,
    } = Numbers::from(refusal);
    writeln!(out, "refused {number} {reading} {place}")
}
