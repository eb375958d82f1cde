// Help: a command's form and what it does, or every command, option, exit status and refusal; and the version.
// Rests on the table of commands, which is lent.
use crate::arguments::filled;
use crate::commands::TAB;
use crate::rows::Row;
use crate::status::{Status, Told};
use crate::telling::{Manner, PAGE, Teller};
use console::table::piece;
use std::env::Env;

// The variable in which the launcher gives the name of the kit that proved the program.
const KIT: &str = "EMP_KIT";

const INTRODUCTION: &[u8] =
    b"emp tells what golden files, EMP messages and Class D frames hold. Files are opened for reading only.\n\n";

const REST: &[u8] = b"
GOLDEN, RADIO, MESSAGE, FRAME and FILE are names of files, from which at most 65536 bytes are taken; - is standard
input, which one of them may be. TYPE, NUMBER, RECORD, COMMID, ACKNOWLEDGED, ENTRY, CLOCK and RESENDS are numbers in
digits; the first record is 0. ENTRY and CLOCK are seconds from one moment, whichever it is. watch checks GOLDEN before it
reads a byte of standard input, tells of each message how its number follows the one before, and ends at the first
refusal, with status 1, or at the end, with status 0 also where messages differ. send goes on after a refusal, and ends
with status 1 where an event was refused, a line was not understood or a message failed.

Options, before or after names
  --plain    one record or finding a line, its fields parted by tabs, for scripts; emp help COMMAND tells which
  -q         of check and compare, no answer but the exit status
  --halving  of find, the way of at most eight openings, for a file that check says is good and in ascending order
  -h --help  this, or what a command does
  --version  the version, and the kit that proved it
  --         all words behind it are names

Exit status
  0  done, good, the same, or in time
  1  refused by a number below, different, late, no clock, not understood, or failed
  2  a complaint, which is one line on standard error
  3  the program did not come to its end
  128 and a signal's number, where a signal ended it

Refusals
";

// One command, by its row of the table: its form, what it does, and, where the whole is wanted, the lines that it tells plainly.
pub fn help_for(teller: &Teller<'_, impl Print + Eprint>, line: &[u8], whole: bool) -> Told {
    let form = piece(line, TAB, 0).len();
    let does = piece(line, TAB, 1).len();
    let behind_form = form.wrapping_add(1);
    let behind = behind_form.wrapping_add(does).wrapping_add(1);
    teller.tell(
        Status::Done,
        Row::Command,
        &[
            0,
            form as u64,
            behind_form as u64,
            does as u64,
            u64::from(whole),
            behind as u64,
            u64::MAX,
        ],
        line,
    )
}

pub fn help(teller: &Teller<'_, impl Print + Eprint>, commands: &[u8]) -> Told {
    match teller.manner {
        Manner::Words => help_in_words(teller, commands),
        _ => list_commands(teller, commands),
    }
}

fn help_in_words(teller: &Teller<'_, impl Print + Eprint>, commands: &[u8]) -> Told {
    teller.put(INTRODUCTION, ())?;
    list_commands(teller, commands)?;
    teller.put(REST, ())?;
    teller.list_refusals()
}

fn list_commands(teller: &Teller<'_, impl Print + Eprint>, commands: &[u8]) -> Told {
    for line in commands.split(|byte| *byte == b'\n') {
        if line.is_empty() {
            break;
        }
        help_for(teller, line, false)?;
    }
    Ok(Status::Done)
}

// What the tool is, and by what it was proved.
pub fn version(teller: &Teller<'_, impl Env + Print + Eprint>) -> Told {
    let mut room = [0u8; PAGE];
    let kit = kit_in(teller.rt, &mut room);
    let size = kit.len();
    teller.tell(
        Status::Done,
        Row::Version,
        &[u64::from(size != 0), 0, size as u64],
        kit,
    )
}

// Nothing, where the kit is not known.
fn kit_in<'a>(rt: &impl Env, room: &'a mut [u8]) -> &'a [u8] {
    let read = rt.var(KIT, room);
    filled(room, read)
}
