// The commands about sums, messages, the judge, frames that are read, QoS, lateness and sequence: each is one call of the library.
// Rests on the crate `exports`.
use crate::byte_words::{Bytes, MOST};
use crate::line::{EIGHT, FOUR, Line, ONE, TWO};
use crate::stop::Stop;
use crate::telling::{Accepted, Answer, Unread};
use console::table::between;
use exports::envelopes::{FIELDS, morlewen_read};
use exports::frames::{COMMIDS, morlewen_frame_first, morlewen_unwrap};
use exports::qos::{QOS_PARTS, morlewen_qos_join, morlewen_qos_split};
use exports::sums::morlewen_crc;
use exports::timing::{morlewen_lateness_from_entry, morlewen_sequence};
use exports::verdicts::{RULES, morlewen_judge_places};
use std::io::Write;

// Where the message of a frame begins.
const BODY: usize = 12;

// One of these commands, by its name.
#[derive(Clone, Copy)]
pub enum EnvelopeCommand {
    Sum,
    Read,
    Judge,
    Unwrap,
    First,
    Qos,
    Late,
    Sequence,
}

impl EnvelopeCommand {
    pub fn of(name: &str) -> Option<EnvelopeCommand> {
        match name {
            "sum" => Some(EnvelopeCommand::Sum),
            "read" => Some(EnvelopeCommand::Read),
            "judge" => Some(EnvelopeCommand::Judge),
            "unwrap" => Some(EnvelopeCommand::Unwrap),
            "first" => Some(EnvelopeCommand::First),
            "qos" => Some(EnvelopeCommand::Qos),
            "late" => Some(EnvelopeCommand::Late),
            "sequence" => Some(EnvelopeCommand::Sequence),
            _ => None,
        }
    }
}

pub fn envelope_line(
    out: &mut impl Write,
    command: EnvelopeCommand,
    line: Line,
    bytes: &mut Bytes,
) -> Result<(), Stop> {
    match command {
        EnvelopeCommand::Sum => sum(out, line, bytes),
        EnvelopeCommand::Read => read(out, line, bytes),
        EnvelopeCommand::Judge => judge(out, line, bytes),
        EnvelopeCommand::Unwrap => unwrap(out, line, bytes),
        EnvelopeCommand::First => first(out, line, bytes),
        EnvelopeCommand::Qos => qos(out, line),
        EnvelopeCommand::Late => late(out, line),
        EnvelopeCommand::Sequence => sequence(out, line),
    }
}

fn sum(out: &mut impl Write, mut line: Line, bytes: &mut Bytes) -> Result<(), Stop> {
    let message = bytes.last(&mut line, MOST)?;
    line.answer(out)?;
    write!(out, " {} {:08x}", message.len(), morlewen_crc(message))?;
    Ok(())
}

fn read(out: &mut impl Write, mut line: Line, bytes: &mut Bytes) -> Result<(), Stop> {
    let message = bytes.last(&mut line, MOST)?;
    line.answer(out)?;
    let mut fields = [0; FIELDS];
    match Answer(morlewen_read(message, &mut fields)).outcome() {
        Ok(_) => write!(out, "{}", Accepted { fields, message })?,
        Err(refused) => write!(out, " refused{}", Unread(refused))?,
    }
    Ok(())
}

// Of each of the rules whether it is kept, and the lowest number of those that are broken.
fn judge(out: &mut impl Write, mut line: Line, bytes: &mut Bytes) -> Result<(), Stop> {
    let message = bytes.last(&mut line, MOST)?;
    line.answer(out)?;
    let mut verdicts = [0; RULES];
    let mut places = [0; RULES];
    let answer = Answer(morlewen_judge_places(message, &mut verdicts, &mut places));
    for (rule, (verdict, place)) in (1..).zip(verdicts.iter().zip(&places)) {
        match *verdict {
            0 => write!(out, " {rule} kept")?,
            1 => write!(out, " {rule} broken at {place}")?,
            _ => write!(out, " {rule} not judged")?,
        }
    }
    match answer.reading() {
        0 => write!(out, " none broken")?,
        lowest => write!(out, " lowest {lowest} {}", answer.value())?,
    }
    Ok(())
}

// What the frame is, and behind it the message that it carries.
fn unwrap(out: &mut impl Write, mut line: Line, bytes: &mut Bytes) -> Result<(), Stop> {
    let frame = bytes.last(&mut line, MOST)?;
    line.answer(out)?;
    let mut commids = [0; COMMIDS];
    let mut fields = [0; FIELDS];
    let answer = Answer(morlewen_unwrap(frame, &mut commids, &mut fields));
    let [commid, acknowledged] = commids;
    match answer.outcome() {
        Ok(size) if answer.count() == 1 => {
            let message = between(frame, BODY, frame.len());
            write!(out, " data commid {commid} size {size}")?;
            write!(out, "{}", Accepted { fields, message })?;
        }
        Ok(_) => write!(out, " acknowledgment commid {commid} of {acknowledged}")?,
        Err(refused) => write!(out, "{refused}")?,
    }
    Ok(())
}

fn first(out: &mut impl Write, mut line: Line, bytes: &mut Bytes) -> Result<(), Stop> {
    let capture = bytes.last(&mut line, MOST)?;
    line.answer(out)?;
    write!(
        out,
        " {} of {}",
        morlewen_frame_first(capture),
        capture.len()
    )?;
    Ok(())
}

fn qos(out: &mut impl Write, mut line: Line) -> Result<(), Stop> {
    if line.takes("join") {
        return join(out, line);
    }
    let field = line.field("split", TWO)? as u16;
    line.answer(out)?;
    let mut parts = [0; QOS_PARTS];
    morlewen_qos_split(field, &mut parts);
    for part in &parts {
        write!(out, " {part}")?;
    }
    Ok(())
}

fn join(out: &mut impl Write, mut line: Line) -> Result<(), Stop> {
    let mut parts = [0; QOS_PARTS];
    for part in parts.iter_mut() {
        *part = line.number(ONE)? as u8;
    }
    line.answer(out)?;
    let [a, b, c, d, e] = parts;
    match Answer(morlewen_qos_join(a, b, c, d, e)).outcome() {
        Ok(field) => write!(out, " {field}")?,
        Err(refused) => write!(out, " refused {}", refused.number)?,
    }
    Ok(())
}

fn late(out: &mut impl Write, mut line: Line) -> Result<(), Stop> {
    let ttl = late_ttl(&mut line)?;
    let entry = line.field("entry", EIGHT)?;
    let clock = line.field("clock", EIGHT)?;
    line.answer(out)?;
    let addressed = u8::from(ttl.is_some());
    match morlewen_lateness_from_entry(addressed, ttl.unwrap_or(0), entry, clock) {
        0 => write!(out, " in time")?,
        1 => write!(out, " late")?,
        _ => write!(out, " no clock")?,
    }
    Ok(())
}

fn late_ttl(line: &mut Line) -> Result<Option<u16>, Stop> {
    if line.takes("unaddressed") {
        return Ok(None);
    }
    Ok(Some(line.field("ttl", TWO)? as u16))
}

fn sequence(out: &mut impl Write, mut line: Line) -> Result<(), Stop> {
    let old = line.field("from", FOUR)? as u32;
    let new = line.field("to", FOUR)? as u32;
    line.answer(out)?;
    let answer = Answer(morlewen_sequence(old, new));
    match answer.count() {
        0 => write!(out, " repeat")?,
        1 => write!(out, " next")?,
        2 => write!(out, " ahead {}", answer.value())?,
        _ => write!(out, " behind {}", answer.value())?,
    }
    Ok(())
}
