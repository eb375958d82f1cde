// Why a line is not run to its end, as it is told.
// Rests on std's `fmt`.
use std::fmt::Display;
use std::{fmt, io};

// What a word should have been, with the most that there may be.
#[derive(Clone, Copy)]
pub enum Expected {
    Command,
    Name,
    Word(&'static str),
    Number(u64),
    Bytes,
    FewerBytes(u64),
    FewerNumbers,
    End,
}

impl Display for Expected {
    fn fmt<W: fmt::Write>(&self, f: &mut fmt::Formatter<W>) -> fmt::Result {
        match self {
            Expected::Command => f.write_str("a command"),
            Expected::Name => f.write_str("a name and a colon"),
            Expected::Word(word) => write!(f, "the word {word}"),
            Expected::Number(most) => write!(f, "a number from 0 to {most}"),
            Expected::Bytes => f.write_str("bytes"),
            Expected::FewerBytes(most) => write!(f, "at most {most} bytes"),
            Expected::FewerNumbers => f.write_str("at most 600 numbers"),
            Expected::End => f.write_str("the end of the line"),
        }
    }
}

#[derive(Clone, Copy)]
pub enum Stop {
    TooLong,
    Unfit { column: usize, expected: Expected },
    NoRoom,
    Unwritten(io::Error),
}

impl Stop {
    // Columns are counted from 1.
    pub fn at(place: usize, expected: Expected) -> Stop {
        Stop::Unfit {
            column: place.saturating_add(1),
            expected,
        }
    }
}

impl From<io::Error> for Stop {
    fn from(error: io::Error) -> Stop {
        Stop::Unwritten(error)
    }
}
