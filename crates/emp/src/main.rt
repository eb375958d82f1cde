// The operator's tool: what a golden file, a message, a frame or any other file holds, in words or plainly. Files are only read.
// Rests on the libraries, which decide every answer, and on `wording` and `console`, by which it is told.
#![tactic(auto)]

mod answering;
mod arrival;
mod comparing;
mod events;
mod fates;
mod framing;
mod golden_files;
mod judging;
mod lateness;
mod ledger;
mod making;
mod pieces;
mod reading;
mod refusing;
mod sending;
mod watching;

use crate::golden_files::GoldenFile;
use console::table::{piece, row};
use golden::Name;
use std::io::Input;
use std::rt::{Env, Files};
use wording::arguments::{Given, OPTIONS};
use wording::commands::{COMMANDS, Command, Named, Numbers, TAB, Verb, command_of, unknown_option};
use wording::files::{MOST, ROOM, file_at};
use wording::telling::complain;
use wording::{Row, Teller, Told, helping, status};

fn main(rt: HostRuntime) {
    let told = run(&rt);
    status::tell(&rt, told);
}

fn run(rt: &(impl Env + Files + Input + Print + Eprint)) -> Told {
    let given = Given::by(rt, OPTIONS);
    let helper = Teller {
        rt,
        manner: given.manner_of_help(),
    };
    if given.too_long {
        return Err(complain(rt, Row::LongWord, b"", b""));
    }
    if let Some(argument) = given.unknown {
        return Err(unknown_option(rt, OPTIONS, argument));
    }
    if given.version {
        return helping::version(&helper);
    }
    let Some(name) = given.names().first() else {
        return without_names(&helper, given.help);
    };
    let verb = Verb::named(rt, *name)?;
    if given.help {
        return helping::help_for(&helper, line_of(verb), true);
    }
    let form = piece(line_of(verb), TAB, 0);
    let command = command_of(rt, form, verb, &given)?;
    let manner = given.manner();
    answer(&Teller { rt, manner }, command)
}

// The row of a verb in the table of commands.
fn line_of(verb: Verb) -> &'static [u8] {
    row(COMMANDS, verb as usize)
}

fn without_names(helper: &Teller<'_, impl Print + Eprint>, help: bool) -> Told {
    if help {
        return helping::help(helper, COMMANDS);
    }
    Err(complain(helper.rt, Row::NoCommand, b"", b""))
}

fn answer(
    teller: &Teller<'_, impl Env + Files + Input + Print + Eprint>,
    command: Command,
) -> Told {
    match (command.verb, command.numbers) {
        (Verb::Help, _) => help_on(teller, command.files),
        (Verb::Acknowledge, Some(commids)) => {
            framing::acknowledge_commid(teller, narrow(commids.first), narrow(commids.last))
        }
        (Verb::Send, Some(resends)) => sending::send(teller, resends.first),
        _ => on_files(teller, command),
    }
}

fn help_on(teller: &Teller<'_, impl Env + Print + Eprint>, named: Option<Named>) -> Told {
    match named {
        Some(named) => {
            let verb = Verb::named(teller.rt, named.first)?;
            helping::help_for(teller, line_of(verb), true)
        }
        None => helping::help(teller, COMMANDS),
    }
}

// Any other command names a file, but for watch, which may.
fn on_files(
    teller: &Teller<'_, impl Env + Files + Input + Print + Eprint>,
    command: Command,
) -> Told {
    let Some(named) = command.files else {
        return watching::watch_alone(teller);
    };
    let mut buffer = [0u8; ROOM];
    let file = file_at(teller.rt, named.first, most_for(command.verb), &mut buffer)?;
    match (command.verb, command.numbers) {
        (Verb::Compare, Some(record)) => compare_with(teller, record.first, file, named.last),
        _ => on_file(teller, command, file),
    }
}

// A golden file that is too long is left to the library, which refuses it by its number.
fn most_for(verb: Verb) -> usize {
    match verb {
        Verb::List | Verb::Check | Verb::Find | Verb::Compare | Verb::Retire | Verb::Watch => ROOM,
        _ => MOST,
    }
}

// A command that takes numbers has them, by its form. What is left for the last arm is watch.
fn on_file(
    teller: &Teller<'_, impl Input + Print + Eprint>,
    command: Command,
    file: &[u8],
) -> Told {
    let golden = GoldenFile { teller, file };
    match (command.verb, command.numbers) {
        (Verb::List, _) => golden.list(),
        (Verb::Check, _) => golden.check(),
        (Verb::Find, Some(name)) if command.halving => golden.find_by_halving(name_of(name)),
        (Verb::Find, Some(name)) => golden.find(name_of(name)),
        (Verb::Read, _) => reading::read_message(teller, file),
        (Verb::Judge, _) => judging::judge_message(teller, file),
        (Verb::Late, Some(moments)) => {
            lateness::late_message(teller, file, moments.first, moments.last)
        }
        (Verb::Sum, _) => making::sum_file(teller, file),
        (Verb::Make, _) => making::make_record(teller, file),
        (Verb::Retire, Some(record)) => {
            making::retire_record(teller, file, record.first as usize)
        }
        (Verb::Unwrap, _) => framing::unwrap_file(teller, file),
        (Verb::Wrap, Some(commid)) => framing::wrap_message(teller, narrow(commid.first), file),
        _ => watching::watch_beside(teller, file),
    }
}

fn name_of(numbers: Numbers) -> Name {
    Name {
        message_type: (numbers.first % 65_536) as u16,
        number: narrow(numbers.last),
    }
}

// The remainder loses nothing: the table of numbers has no NUMBER, COMMID or ACKNOWLEDGED that is larger.
fn narrow(n: u64) -> u32 {
    (n % 4_294_967_296) as u32
}

fn compare_with(
    teller: &Teller<'_, impl Env + Files + Input + Print + Eprint>,
    record: u64,
    file: &[u8],
    radio: usize,
) -> Told {
    let mut buffer = [0u8; ROOM];
    let radio = file_at(teller.rt, radio, MOST, &mut buffer)?;
    comparing::compare_record(teller, file, record as usize, radio)
}
