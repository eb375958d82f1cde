// What goes to standard error: bytes of the tool's own, and what failed with the system's reason.
// Rests on std's `fmt` and `io`.
use crate::table::between;
use std::fmt::Display;
use std::io::{Cursor, Eprint, Error, Result, Write};
use std::{fmt, str};

// Room for any reason.
const ROOM: usize = 512;

// Bytes that are ASCII.
#[derive(Drop)]
struct Line<'a>(&'a [u8]);

impl Display for Line<'_> {
    fn fmt<W: fmt::Write>(&self, f: &mut fmt::Formatter<W>) -> fmt::Result {
        for byte in self.0 {
            f.write_char(char::from(*byte))?;
        }
        Ok(())
    }
}

// The words of an error by themselves.
#[derive(Drop)]
struct Reason(Error);

impl Display for Reason {
    fn fmt<W: fmt::Write>(&self, f: &mut fmt::Formatter<W>) -> fmt::Result {
        let mut page = Cursor::new([0u8; ROOM]);
        let error = self.0;
        let _ = write!(page, "{error}");
        let size = page.position() as usize;
        let page = page.into_inner();
        f.write_str(without_number(between(&page, 0, size)))
    }
}

// Behind the words std puts the system's number in brackets.
fn without_number(words: &[u8]) -> &str {
    let words = str::from_utf8(words).unwrap_or("");
    words
        .rsplit_once(" (os error ")
        .map_or(words, |(reason, _)| reason)
}

// Bytes on standard error.
pub fn put(rt: &impl Eprint, bytes: &[u8]) -> Result<()> {
    rt.eprint(Line(bytes))
}

// A line on standard error: what failed, and the reason. Where even that cannot be written, nothing more is done.
pub fn fail(rt: &impl Eprint, what: &[u8], error: Error) {
    let (what, reason) = (Line(what), Reason(error));
    let _ = eprintln!(rt; "{what}: {reason}");
}
