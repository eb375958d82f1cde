// Runs the cases that standard input holds, one to a line, and prints an answer for each: docs/CASES.md says how.
// Every answer was worked out by a proved function; the gate holds what is printed to a stored file, and to what the peer prints.
#![tactic(auto)]

mod buffer;
mod byte_words;
mod changes;
mod commands;
mod envelope_lines;
mod feed_lines;
mod file_lines;
mod golden_lines;
mod lent_lines;
mod line;
mod sender_lines;
mod stop;
mod telling;
mod world;

use crate::commands::run_line;
use crate::world::World;
use console::files::read_full;
use console::table::between;
use std::io;
use std::io::Write;

// The most bytes that are read. The buffer has one more, so that a longer input is seen to be longer.
const INPUT: usize = 262_144;

fn main(rt: HostRuntime) -> io::Result<()> {
    let mut input = [0u8; INPUT + 1];
    let size = read_full(&mut rt.stdin(), &mut input)?;
    run_all(
        &mut rt.stdout(),
        between(&input, 0, size),
        &mut World::new(),
    )
}

// Of a longer input those lines are run whose line feed is among the bytes that are read.
fn run_all(out: &mut impl Write, input: &[u8], world: &mut World) -> io::Result<()> {
    let mut behind: usize = 0;
    for (number, line) in (1..).zip(input.split(|byte| *byte == b'\n')) {
        behind = behind.saturating_add(line.len()).saturating_add(1);
        if INPUT < input.len() && INPUT < behind {
            return writeln!(
                out,
                "line {number}: the input is longer than 262144 bytes, and nothing is run from here on"
            );
        }
        run_line(out, line, number, world)?;
    }
    Ok(())
}
