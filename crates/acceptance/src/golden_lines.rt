// The commands about the golden file that is worked on: each is one call of the library, or one for each record.
// Rests on the crate `exports`.
ghost use Rattle.std.specs.Prelude.{◌≤◌};

use crate::byte_words::{MOST, MOST_LISTED};
use crate::line::{EIGHT, FOUR, Line, TWO};
use crate::stop::Stop;
use crate::telling::Answer;
use crate::world::World;
use exports::goldens::{
    LINE, PART, morlewen_ascending, morlewen_check, morlewen_compare, morlewen_find,
    morlewen_find_by_halving, morlewen_line, morlewen_records, morlewen_retired_records,
    morlewen_step,
};
use std::fmt;
use std::fmt::Display;
use std::io::Write;

// One of these commands, by its name.
#[derive(Clone, Copy)]
pub enum GoldenCommand {
    Check,
    Find,
    Halve,
    Order,
    Step,
    Walk,
    Compare,
    Entry,
    Retired,
    List,
}

impl GoldenCommand {
    pub fn of(name: &str) -> Option<GoldenCommand> {
        match name {
            "check" => Some(GoldenCommand::Check),
            "find" => Some(GoldenCommand::Find),
            "halve" => Some(GoldenCommand::Halve),
            "order" => Some(GoldenCommand::Order),
            "step" => Some(GoldenCommand::Step),
            "walk" => Some(GoldenCommand::Walk),
            "compare" => Some(GoldenCommand::Compare),
            "entry" => Some(GoldenCommand::Entry),
            "retired" => Some(GoldenCommand::Retired),
            "list" => Some(GoldenCommand::List),
            _ => None,
        }
    }
}

pub fn golden_line(
    out: &mut impl Write,
    command: GoldenCommand,
    line: Line,
    world: &mut World,
) -> Result<(), Stop> {
    let file = world.file.bytes();
    match command {
        GoldenCommand::Check => check(out, line, file),
        GoldenCommand::Find => found(
            out,
            line,
            |message_type, number| morlewen_find(file, message_type, number),
        ),
        GoldenCommand::Halve => found(out, line, |message_type, number| {
            morlewen_find_by_halving(file, message_type, number)
        }),
        GoldenCommand::Order => order(out, line, file),
        GoldenCommand::Step => one_step(out, line, file),
        GoldenCommand::Walk => walk(out, line, file),
        GoldenCommand::Compare => compare(out, line, world),
        GoldenCommand::Entry => one_entry(out, line, file),
        GoldenCommand::Retired => retired(out, line, file),
        GoldenCommand::List => list(out, line, file),
    }
}

fn check(out: &mut impl Write, line: Line, file: &[u8]) -> Result<(), Stop> {
    line.answer(out)?;
    let answer = Answer(morlewen_check(file));
    match answer.outcome() {
        Ok(_) => write!(out, " records {}", answer.count())?,
        Err(refused) => write!(out, " record {}{refused}", answer.count())?,
    }
    Ok(())
}

// A name is looked for in one of two ways.
fn found<F: FnOnce(u16, u32) -> u64>(
    out: &mut impl Write,
    mut line: Line,
    find: F,
) -> Result<(), Stop>
    requires { F.IsAlwaysCallable find }
{
    let message_type = line.field("type", TWO)? as u16;
    let number = line.field("number", FOUR)? as u32;
    line.answer(out)?;
    let answer = Answer(find(message_type, number));
    match answer.outcome() {
        Ok(record) => write!(out, " record {record}")?,
        Err(refused) => write!(out, "{refused}")?,
    }
    write!(out, " opened {}", answer.count())?;
    Ok(())
}

fn order(out: &mut impl Write, line: Line, file: &[u8]) -> Result<(), Stop> {
    line.answer(out)?;
    let answer = Answer(morlewen_ascending(file));
    match answer.outcome() {
        Ok(0) => write!(out, " breaks at {}", answer.count())?,
        Ok(_) => write!(out, " ascending")?,
        Err(refused) => write!(out, " record {}{refused}", answer.count())?,
    }
    Ok(())
}

fn retired(out: &mut impl Write, line: Line, file: &[u8]) -> Result<(), Stop> {
    line.answer(out)?;
    let answer = Answer(morlewen_retired_records(file));
    match answer.outcome() {
        Ok(_) => write!(out, " retired {}", answer.count())?,
        Err(refused) => write!(out, "{refused}")?,
    }
    Ok(())
}

// ---- steps

// What a step at a record answers.
#[derive(Clone, Copy)]
pub struct Step {
    answer: Answer,
    part: [u64; PART],
}

impl Step {
    pub fn at(file: &[u8], record: usize) -> Step {
        let mut part = [0; PART];
        let answer = Answer(morlewen_step(file, record, &mut part));
        Step { answer, part }
    }

    // The place and the size of the message.
    pub fn message(&self) -> Option<[u64; PART]> {
        match self.answer.outcome() {
            Ok(0) | Err(_) => None,
            Ok(_) => Some(self.part),
        }
    }
}

impl Display for Step {
    fn fmt<W: fmt::Write>(&self, f: &mut fmt::Formatter<W>) -> fmt::Result {
        let [place, size] = self.part;
        match self.answer.outcome() {
            Ok(0) => f.write_str(" end"),
            Ok(_) => write!(f, " message {place} {size}{}", Mark(self.answer)),
            Err(refused) => write!(f, "{refused}"),
        }
    }
}

// What is told of a retired record.
#[derive(Clone, Copy)]
struct Mark(Answer);

impl Display for Mark {
    fn fmt<W: fmt::Write>(&self, f: &mut fmt::Formatter<W>) -> fmt::Result {
        f.write_str(if self.0.reading() == 1 {
            " retired"
        } else {
            ""
        })
    }
}

fn one_step(out: &mut impl Write, mut line: Line, file: &[u8]) -> Result<(), Stop> {
    let record = line.field("at", EIGHT)?;
    line.answer(out)?;
    let step = Step::at(file, record as usize);
    write!(
        out,
        "{step} next {}",
        record.wrapping_add(step.answer.count())
    )?;
    Ok(())
}

// A walk ends with the step that does not move on.
fn walk(out: &mut impl Write, line: Line, file: &[u8]) -> Result<(), Stop> {
    line.answer(out)?;
    for record in 0..=file.len() {
        let step = Step::at(file, record);
        write!(out, "{step}")?;
        if step.answer.count() == 0 {
            break;
        }
        write!(out, ",")?;
    }
    Ok(())
}

// ---- entries

// What the listing has of a record.
#[derive(Clone, Copy)]
struct Entry {
    answer: Answer,
    line: [u64; LINE],
}

impl Entry {
    fn at(file: &[u8], record: usize) -> Entry {
        let mut line = [0; LINE];
        let answer = Answer(morlewen_line(file, record, &mut line));
        Entry { answer, line }
    }
}

impl Display for Entry {
    fn fmt<W: fmt::Write>(&self, f: &mut fmt::Formatter<W>) -> fmt::Result {
        let [message_type, number, size] = self.line;
        match self.answer.outcome() {
            Ok(_) => write!(f, " {message_type} {number} {size}{}", Mark(self.answer)),
            Err(refused) => write!(f, "{refused}"),
        }
    }
}

fn one_entry(out: &mut impl Write, mut line: Line, file: &[u8]) -> Result<(), Stop> {
    let record = line.field("at", EIGHT)? as usize;
    line.answer(out)?;
    write!(out, "{}", Entry::at(file, record))?;
    Ok(())
}

// How many records there are, and behind it the entry of each.
fn list(out: &mut impl Write, line: Line, file: &[u8]) -> Result<(), Stop> {
    line.answer(out)?;
    let answer = Answer(morlewen_records(file));
    match answer.outcome() {
        Ok(_) => write!(out, " records {}", answer.count())?,
        Err(refused) => write!(out, "{refused}")?,
    }
    for record in 0..answer.count() as usize {
        write!(out, "; {record}{}", Entry::at(file, record))?;
    }
    Ok(())
}

// ---- comparing

// The places that differ go over the numbers of the list, as far as there are any.
fn compare(out: &mut impl Write, mut line: Line, world: &mut World) -> Result<(), Stop> {
    let record = line.field("record", EIGHT)? as usize;
    line.word("list")?;
    let list = world.bytes.list(&mut line, "with")?;
    line.word("with")?;
    let message = world.bytes.read(&mut line, MOST, "")?;
    line.answer(out)?;
    let mut places = [0; MOST_LISTED];
    let count = numbers_in(world.bytes.of(list), &mut places);
    let listed = &mut places[..count];
    let message = world.bytes.of(message);
    match Answer(morlewen_compare(world.file.bytes(), record, message, listed)).outcome() {
        Ok(0) => write!(out, " same list")?,
        Ok(count) => write!(out, " different {count} list")?,
        Err(refused) => write!(out, "{refused} list")?,
    }
    for place in listed.iter() {
        write!(out, " {place}")?;
    }
    Ok(())
}

// The numbers that bytes make, four each: how many.
fn numbers_in(bytes: &[u8], places: &mut [u32; MOST_LISTED]) -> usize
    ensures { result ≤ MOST_LISTED }
{
    let (numbers, _) = bytes.as_chunks();
    for (place, number) in places.iter_mut().zip(numbers) {
        *place = u32::from_be_bytes(*number);
    }
    numbers.len().min(MOST_LISTED)
}
