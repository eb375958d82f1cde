// Whether a folder has an entry of a name, which need not be text.
// Rests on std's files and text.
ghost use Rattle.std.specs.Prelude.{◌≤◌, length};

use std::io::{Error, ErrorKind, Read, Result};
use std::rt::Files;
use std::str;

// Room for many names; no read ends inside one.
const ROOM: usize = 4_096;

// What stands behind each name.
const NAME_END: u8 = 0;

// Whether there is such a file or folder, by the names of the folder that it would stand in. That folder goes by text.
pub(crate) fn is_there(rt: &impl Files, name: &[u8]) -> Result<bool> {
    let (folder, entry) = name.split_at(behind_slash(name));
    let mut names = open(rt, folder)?;
    let mut room = [0u8; ROOM];
    // the contract of reading does not say that the names come to an end, so a bound has to stand here
    for _ in 0..u64::MAX {
        let size = names.read(&mut room)?;
        if size == 0 {
            return Ok(false);
        }
        if is_among(&room[..size], entry) {
            return Ok(true);
        }
    }
    Ok(false)
}

// Where the part behind the last slash begins.
fn behind_slash(name: &[u8]) -> usize
    ensures { result ≤ length name.now }
{
    name.iter()
        .rposition(|byte| *byte == b'/')
        .map_or(0, |place| place + 1)
}

fn open<R: Files>(rt: &R, folder: &[u8]) -> Result<R::Dir> {
    match str::from_utf8(folder) {
        Ok("") => rt.open_dir("."),
        Ok(path) => rt.open_dir(path),
        Err(_) => Err(Error::from(ErrorKind::InvalidFilename)),
    }
}

fn is_among(names: &[u8], entry: &[u8]) -> bool {
    names
        .split(|byte| *byte == NAME_END)
        .any(|name| name == entry)
}
