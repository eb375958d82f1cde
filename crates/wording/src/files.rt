// The files that a command names, or the complaint.
// Rests on `console`, which opens them for reading only and takes them whole.
use crate::arguments::{WORD, word_at};
use crate::rows::Row;
use crate::status::{Complained, Told};
use crate::telling::{PAGE, SHOWN, complain};
use console::errors;
use console::files::{TakeFault, take};
use console::filling::fill;
use std::io::{Error, Input};
use std::rt::{Env, Files};

// The most bytes that are taken from a file, and a byte more, so that a longer file is seen to be longer.
pub const MOST: usize = 65_536;

pub const ROOM: usize = MOST + 1;

// The file that an argument names. One with more than the most bytes is taken where the library is to refuse it.
pub fn file_at<'a>(
    rt: &(impl Env + Files + Input + Print + Eprint),
    argument: usize,
    most: usize,
    buffer: &'a mut [u8],
) -> Told<&'a [u8]> {
    let mut word = [0u8; WORD];
    let name = word_at(rt, argument, &mut word);
    let size = take(rt, name, buffer).map_err(|fault| failed(rt, name, fault))?;
    if most < size {
        return Err(complain(rt, Row::LargeFile, name, name));
    }
    Ok(&buffer[..size])
}

// The name, and the system's reason.
fn failed(rt: &impl Eprint, name: &[u8], fault: TakeFault) -> Complained {
    let (reading, error): (u64, Error) = match fault {
        TakeFault::NotOpened(error) => (0, error),
        TakeFault::NotRead(error) => (1, error),
    };
    let mut page = [0u8; PAGE];
    let size = fill(
        &mut page,
        0,
        b"emp: cannot {open|read} '^'",
        &[reading, 0, SHOWN],
        name,
    );
    errors::fail(rt, &page[..size], error);
    Complained
}
