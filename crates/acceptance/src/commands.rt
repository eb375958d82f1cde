// One line of cases: a comment, or a command.
// Rests on `line` for its words; `file_lines`, `envelope_lines`, `lent_lines`, `golden_lines`, `changes`, `feed_lines` and `sender_lines` run it.
use crate::changes::{Series, series_line};
use crate::envelope_lines::{EnvelopeCommand, envelope_line};
use crate::feed_lines::{FeedCommand, feed_line};
use crate::file_lines::file_line;
use crate::golden_lines::{GoldenCommand, golden_line};
use crate::lent_lines::{LentCommand, lent_line};
use crate::line::{LONGEST, Line, Word};
use crate::sender_lines::{SenderCommand, sender_line};
use crate::stop::{Expected, Stop};
use crate::world::World;
use std::io::Write;
use std::{io, str};

// Runs a line, or tells why it is not run to its end.
pub fn run_line(
    out: &mut impl Write,
    line: &[u8],
    number: usize,
    world: &mut World,
) -> io::Result<()> {
    match run(out, line, world) {
        Ok(()) => Ok(()),
        Err(Stop::TooLong) => writeln!(out, "line {number}: longer than 4096 characters"),
        Err(Stop::Unfit { column, expected }) => {
            writeln!(out, "line {number}, column {column}: {expected} expected")
        }
        Err(Stop::NoRoom) => writeln!(out, "line {number}: no room for a record in the file"),
        Err(Stop::Unwritten(error)) => Err(error),
    }
}

fn run(out: &mut impl Write, text: &[u8], world: &mut World) -> Result<(), Stop> {
    if LONGEST < text.len() {
        return Err(Stop::TooLong);
    }
    let mut line = Line::new(text);
    let command = line.next();
    if command.bytes.is_empty() || command.bytes.starts_with(b"#") {
        return Ok(());
    }
    line.take(command);
    world.bytes.clear();
    answer(out, command, line, world)?;
    out.write_all(b"\n")?;
    Ok(())
}

// What is written to, the line and what it works on stay apart: a struct of them would be taken apart in each command, since each works on another
// part of the world.
fn answer(out: &mut impl Write, command: Word, line: Line, world: &mut World) -> Result<(), Stop> {
    let name = str::from_utf8(command.bytes).unwrap_or("");
    if name == "file" {
        return file_line(out, line, world);
    }
    if let Some(command) = EnvelopeCommand::of(name) {
        return envelope_line(out, command, line.named()?, &mut world.bytes);
    }
    if let Some(command) = LentCommand::of(name) {
        return lent_line(out, command, line.named()?, world);
    }
    if let Some(command) = GoldenCommand::of(name) {
        return golden_line(out, command, line.named()?, world);
    }
    if let Some(series) = Series::of(name) {
        return series_line(out, series, line.named()?, &mut world.file);
    }
    if let Some(command) = FeedCommand::of(name) {
        return feed_line(out, command, line.named()?, world);
    }
    if let Some(command) = SenderCommand::of(name) {
        return sender_line(out, command, line.named()?, &mut world.sender);
    }
    Err(command.unfit(Expected::Command))
}
