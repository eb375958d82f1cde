// The words that the tool is called with: options, and names, of which the first is the command's.
// Rests on std's `env`; the options are a table that is lent.
ghost use Rattle.std.specs.Prelude.{◌≡◌, ◌≤◌, cond, length};

use crate::rows::NoRow;
use crate::telling::Manner;
use console::files::is_standard_input;
use console::table::row_named;
use std::env::{Env, FillError};

// The most names that a command takes, its own among them.
pub const NAMES: usize = 4;

// The most bytes of a word that are taken.
pub(crate) const WORD: usize = 4_096;

pub const BLANK: u8 = b' ';

// One row for each switch, in their order.
pub const OPTIONS: &[u8] = b"--plain\n-q\n--help\n-h\n--version\n--\n--halving\n";

#[derive(Clone, Copy)]
enum Switch {
    Plain,
    Quiet,
    Help,
    ShortHelp,
    Version,
    NamesAlone,
    Halving,
}

impl TryFrom<usize> for Switch {
    type Error = NoRow;

    fn try_from(row: usize) -> Result<Switch, NoRow> {
        match row {
            0 => Ok(Switch::Plain),
            1 => Ok(Switch::Quiet),
            2 => Ok(Switch::Help),
            3 => Ok(Switch::ShortHelp),
            4 => Ok(Switch::Version),
            5 => Ok(Switch::NamesAlone),
            6 => Ok(Switch::Halving),
            _ => Err(NoRow),
        }
    }
}

impl Switch {
    fn named(options: &[u8], word: &[u8]) -> Result<Switch, NoRow> {
        let row = row_named(options, BLANK, word).ok_or(NoRow)?;
        Switch::try_from(row)
    }
}

// What the options ask for, and the names. An argument that is a name or no option there is goes by its place.
#[derive(Clone, Copy)]
pub struct Given {
    pub plain: bool,
    pub quiet: bool,
    pub halving: bool,
    pub help: bool,
    pub version: bool,
    // of options that there are not, the first
    pub unknown: Option<usize>,
    // an argument of more bytes than are taken
    pub too_long: bool,
    pub names_alone: bool,
    // fixed memory: the places of the first of the names, and how many names there are, be there more than any command takes
    pub places: [usize; NAMES],
    pub count: usize,
}

impl Given {
    // Reads every argument.
    pub fn by(rt: &impl Env, options: &[u8]) -> Given {
        let mut given = Given {
            plain: false,
            quiet: false,
            halving: false,
            help: false,
            version: false,
            unknown: None,
            too_long: false,
            names_alone: false,
            places: [0; NAMES],
            count: 0,
        };
        let mut word = [0u8; WORD];
        // by their places: std's `args` takes the heap
        for argument in 1..usize::MAX {
            match rt.arg(argument, &mut word) {
                Ok(size) => given.take(options, argument, &word[..size]),
                Err(FillError::TooLong) => given.too_long = true,
                Err(FillError::NotPresent) => break,
            }
        }
        given
    }

    fn take(&mut self, options: &[u8], argument: usize, word: &[u8]) {
        if self.names_alone || is_name(word) {
            self.take_name(argument);
            return;
        }
        match Switch::named(options, word) {
            Ok(switch) => self.turn_on(switch),
            Err(NoRow) => self.unknown = self.unknown.or(Some(argument)),
        }
    }

    fn take_name(&mut self, argument: usize) {
        if self.count < NAMES {
            self.places[self.count] = argument;
        }
        self.count = self.count.wrapping_add(1);
    }

    fn turn_on(&mut self, switch: Switch) {
        match switch {
            Switch::Plain => self.plain = true,
            Switch::Quiet => self.quiet = true,
            Switch::Help | Switch::ShortHelp => self.help = true,
            Switch::Version => self.version = true,
            Switch::NamesAlone => self.names_alone = true,
            Switch::Halving => self.halving = true,
        }
    }

    pub fn manner(&self) -> Manner
        ensures { result ≡ cond self.now.quiet Manner.Quiet (cond self.now.plain Manner.Plain Manner.Words) }
    {
        if self.quiet {
            return Manner::Quiet;
        }
        self.manner_of_help()
    }

    // Help and version are answers that -q does not take away.
    pub fn manner_of_help(&self) -> Manner
        ensures { result ≡ cond self.now.plain Manner.Plain Manner.Words }
    {
        if self.plain {
            return Manner::Plain;
        }
        Manner::Words
    }

    // The places of the names, no more than a command takes.
    pub fn names(&self) -> &[usize]
        ensures { length result.now ≤ NAMES }
    {
        &self.places[..self.count.min(NAMES)]
    }
}

// An argument that was read before, in the room that is lent.
pub(crate) fn word_at<'a>(rt: &impl Env, argument: usize, room: &'a mut [u8]) -> &'a [u8] {
    let read = rt.arg(argument, room);
    filled(room, read)
}

// What was read into a room: nothing, where reading failed.
pub(crate) fn filled(room: &[u8], read: Result<usize, FillError>) -> &[u8] {
    read.ok().and_then(|size| room.get(..size)).unwrap_or(&[])
}

// A word that does not begin with a hyphen, and the hyphen alone, which stands for standard input.
fn is_name(word: &[u8]) -> bool {
    word.first() != Some(&b'-') || is_standard_input(word)
}
