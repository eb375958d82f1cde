// The commands that lend a buffer: each is one call of the library that writes there, and the buffer is told whole.
// Rests on the crate `exports`.
ghost use Rattle.std.specs.Prelude.{◌≤◌, IfOk};

use crate::byte_words::{Bytes, MOST, Part};
use crate::line::{EIGHT, FOUR, Line, ONE, TWO};
use crate::stop::Stop;
use crate::telling::{Answer, Lent, Unread};
use crate::world::{File, World};
use console::table::between;
use exports::envelopes::{morlewen_rewrite, morlewen_write};
use exports::frames::{morlewen_acknowledge, morlewen_wrap};
use exports::goldens::{morlewen_make, morlewen_retire};
use std::io::Write;

// What a lent buffer holds in every byte before a call.
const BLANK: u8 = 0xEE;

// The largest room of a lent buffer.
const ROOM: usize = 1_024;

// The most bytes of each part of a message that is written.
const MOST_PART: u64 = 600;

// The last number of a refusal by reading.
const LAST_READING: u64 = 7;

// One of these commands, by its name.
#[derive(Clone, Copy)]
pub enum LentCommand {
    Wrap,
    Acknowledge,
    Write,
    Rewrite,
    Make,
    Retire,
}

impl LentCommand {
    pub fn of(name: &str) -> Option<LentCommand> {
        match name {
            "wrap" => Some(LentCommand::Wrap),
            "acknowledge" => Some(LentCommand::Acknowledge),
            "write" => Some(LentCommand::Write),
            "rewrite" => Some(LentCommand::Rewrite),
            "make" => Some(LentCommand::Make),
            "retire" => Some(LentCommand::Retire),
            _ => None,
        }
    }
}

pub fn lent_line(
    out: &mut impl Write,
    command: LentCommand,
    line: Line,
    world: &mut World,
) -> Result<(), Stop> {
    match command {
        LentCommand::Wrap => wrap(out, line, &mut world.bytes),
        LentCommand::Acknowledge => acknowledge(out, line),
        LentCommand::Write => write(out, line, &mut world.bytes),
        LentCommand::Rewrite => rewrite(out, line, &mut world.bytes),
        LentCommand::Make => make(out, line, &mut world.bytes),
        LentCommand::Retire => retire(out, line, &world.file),
    }
}

fn room(line: &mut Line) -> Result<usize, Stop>
    ensures { IfOk result (λ n. n ≤ ROOM) }
{
    Ok(line.field("room", ROOM as u64)? as usize)
}

// `room N of BYTES`, to the end of the line.
fn room_of<'a>(line: &mut Line, bytes: &'a mut Bytes) -> Result<(usize, &'a [u8]), Stop>
    ensures { IfOk result (λ given. given.0 ≤ ROOM) }
{
    let room = room(line)?;
    line.word("of")?;
    Ok((room, bytes.last(line, MOST)?))
}

// A lent buffer of so many bytes as a call leaves it, and what the call answers.
#[derive(Drop)]
struct Loan {
    buffer: [u8; ROOM],
    room: usize,
    answer: Answer,
}

impl Loan {
    fn to<F: FnOnce(&mut [u8]) -> u64>(room: usize, call: F) -> Loan
        requires fits { room ≤ ROOM }
        requires can { F.IsAlwaysCallable call }
    {
        let mut buffer = [BLANK; ROOM];
        let answer = Answer(call(&mut buffer[..room]));
        Loan {
            buffer,
            room,
            answer,
        }
    }

    fn lent(&self) -> Lent<'_> {
        Lent(between(&self.buffer, 0, self.room))
    }

    // What is done in a word, with the size where there is one.
    fn tell(&self, out: &mut impl Write, done: &str) -> Result<(), Stop> {
        match self.answer.outcome() {
            Ok(0) => write!(out, " {done}{}", self.lent())?,
            Ok(size) => write!(out, " {done} {size}{}", self.lent())?,
            Err(refused) => write!(out, "{refused}{}", self.lent())?,
        }
        Ok(())
    }

    // Of a message that is written, where a refusal by reading is told apart.
    fn tell_written(&self, out: &mut impl Write) -> Result<(), Stop> {
        match self.answer.outcome() {
            Ok(size) => write!(out, " wrote {size}")?,
            Err(refused) if refused.number <= LAST_READING => write!(
                out,
                " unread{}",
                Unread(refused)
            )?,
            Err(refused) => write!(out, " refused {}", refused.number)?,
        }
        write!(out, "{}", self.lent())?;
        Ok(())
    }
}

fn wrap(out: &mut impl Write, mut line: Line, bytes: &mut Bytes) -> Result<(), Stop> {
    let commid = line.field("commid", FOUR)? as u32;
    let (room, message) = room_of(&mut line, bytes)?;
    line.answer(out)?;
    let loan = Loan::to(room, |lent| morlewen_wrap(message, commid, lent));
    loan.tell(out, "wrote")
}

fn acknowledge(out: &mut impl Write, mut line: Line) -> Result<(), Stop> {
    let commid = line.field("commid", FOUR)? as u32;
    let acknowledged = line.field("of", FOUR)? as u32;
    let room = room(&mut line)?;
    line.answer(out)?;
    let loan = Loan::to(
        room,
        |lent| morlewen_acknowledge(commid, acknowledged, lent),
    );
    loan.tell(out, "wrote")
}

fn rewrite(out: &mut impl Write, mut line: Line, bytes: &mut Bytes) -> Result<(), Stop> {
    let (room, message) = room_of(&mut line, bytes)?;
    line.answer(out)?;
    let loan = Loan::to(room, |lent| morlewen_rewrite(message, lent));
    loan.tell_written(out)
}

fn make(out: &mut impl Write, mut line: Line, bytes: &mut Bytes) -> Result<(), Stop> {
    let (room, message) = room_of(&mut line, bytes)?;
    line.answer(out)?;
    let loan = Loan::to(room, |lent| morlewen_make(message, lent));
    loan.tell(out, "made")
}

fn retire(out: &mut impl Write, mut line: Line, file: &File) -> Result<(), Stop> {
    let record = line.field("record", EIGHT)? as usize;
    let room = room(&mut line)?;
    line.answer(out)?;
    let file = file.bytes();
    let loan = Loan::to(room, |lent| morlewen_retire(file, record, lent));
    loan.tell(out, "done")
}

// What a message is written from.
#[derive(Clone, Copy)]
struct Given {
    message_type: u16,
    version: u8,
    flags: u8,
    number: u32,
    time: u32,
    routing: Option<Routing>,
    source: Part,
    destination: Part,
    body: Part,
    integrity: u32,
}

#[derive(Clone, Copy)]
struct Routing {
    ttl: u16,
    qos: u16,
}

impl Given {
    fn read(line: &mut Line, bytes: &mut Bytes) -> Result<Given, Stop> {
        Ok(Given {
            message_type: line.field("type", TWO)? as u16,
            version: line.field("version", ONE)? as u8,
            flags: line.field("flags", ONE)? as u8,
            number: line.field("number", FOUR)? as u32,
            time: line.field("time", FOUR)? as u32,
            routing: Routing::read(line)?,
            source: part(line, bytes, "source", "destination")?,
            destination: part(line, bytes, "destination", "body")?,
            body: part(line, bytes, "body", "integrity")?,
            integrity: line.field("integrity", FOUR)? as u32,
        })
    }

    fn write(&self, bytes: &Bytes, lent: &mut [u8]) -> u64 {
        let routing = self.routing.unwrap_or(Routing { ttl: 0, qos: 0 });
        morlewen_write(
            self.message_type,
            self.version,
            self.flags,
            self.number,
            self.time,
            u8::from(self.routing.is_some()),
            routing.ttl,
            routing.qos,
            bytes.of(self.source),
            bytes.of(self.destination),
            bytes.of(self.body),
            self.integrity,
            lent,
        )
    }
}

impl Routing {
    fn read(line: &mut Line) -> Result<Option<Routing>, Stop> {
        if line.takes("unaddressed") {
            return Ok(None);
        }
        Ok(Some(Routing {
            ttl: line.field("ttl", TWO)? as u16,
            qos: line.field("qos", TWO)? as u16,
        }))
    }
}

fn part(line: &mut Line, bytes: &mut Bytes, word: &'static str, next: &str) -> Result<Part, Stop> {
    line.word(word)?;
    bytes.read(line, MOST_PART, next)
}

fn write(out: &mut impl Write, mut line: Line, bytes: &mut Bytes) -> Result<(), Stop> {
    let given = Given::read(&mut line, bytes)?;
    let room = room(&mut line)?;
    line.answer(out)?;
    let loan = Loan::to(room, |lent| given.write(bytes, lent));
    loan.tell_written(out)
}
