// Files opened for reading only and taken whole, and standard input, which goes by the name of a hyphen.
// Rests on `folders`, and on std's files and readers.
ghost use Rattle.std.specs.Prelude.{◌≤◌, IfOk, length};

use crate::folders::is_there;
use std::io::{Error, ErrorKind, Input, Read};
use std::rt::Files;
use std::{fs, io, str};

// Why a file was not taken, with the system's reason.
#[derive(Clone, Copy)]
pub enum TakeFault {
    NotOpened(Error),
    NotRead(Error),
}

// The system's number for a file that is not there.
const NO_SUCH_FILE: i32 = 2;

pub fn is_standard_input(name: &[u8]) -> bool {
    name == b"-".as_slice()
}

// The bytes of the file, as far as the buffer has room: how many.
pub fn take(rt: &(impl Files + Input), name: &[u8], buffer: &mut [u8]) -> Result<usize, TakeFault>
    ensures { IfOk result (λ size. size ≤ length buffer.new) }
{
    if is_standard_input(name) {
        return read_full(&mut rt.reader(), buffer).map_err(TakeFault::NotRead);
    }
    let mut file = open(rt, name).map_err(TakeFault::NotOpened)?;
    read_full(&mut file, buffer).map_err(TakeFault::NotRead)
}

// A file is opened by text alone, so one whose name is no text is there and yet not opened.
fn open<R: Files>(rt: &R, name: &[u8]) -> io::Result<R::File> {
    match str::from_utf8(name) {
        Ok(path) => fs::open(rt, path),
        Err(_) => Err(reason_of(is_there(rt, name))),
    }
}

fn reason_of(there: io::Result<bool>) -> Error {
    match there {
        Ok(true) => Error::from(ErrorKind::InvalidFilename),
        Ok(false) => Error::from_raw_os_error(NO_SUCH_FILE),
        Err(error) => error,
    }
}

// Reads until the buffer is full or the input ends: how many bytes.
pub fn read_full(input: &mut impl Read, buffer: &mut [u8]) -> io::Result<usize>
    ensures { IfOk result (λ size. size ≤ length buffer.new) }
{
    let mut size = 0;
    // a `for` has no count to go by: a read tells only afterwards how far it went
    while size < buffer.len() {
        let taken = input.read(&mut buffer[size..])?;
        if taken == 0 {
            break;
        }
        size += taken;
    }
    Ok(size)
}
