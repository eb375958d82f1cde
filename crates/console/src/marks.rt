// The marks of a template, each for the next of the numbers, and what is put on a page for them.
// `#` digits; `&` two hex digits, `$` eight; `*` an s, unless the number before is 1; `_` nothing.
// `!` takes two: the row that has the number for its name, in the text lent, as `N, words`; and behind a colon that of the other, unless it is 0.
// For a place and a size of the text lent: `~` these bytes as they are, `^` as text that is printable, `%` in rows of hex.
// Where a template ends a line, the blanks before it on the page are left out.
use crate::page::Page;
use crate::table::{between, piece, row, row_named};

const TAB: u8 = b'\t';

// What the marks are filled in from.
#[derive(Clone, Copy)]
pub(crate) struct Given<'a> {
    pub(crate) numbers: &'a [u64],
    pub(crate) lent: &'a [u8],
}

impl<'a> Given<'a> {
    // A number that is not there counts as 0.
    pub(crate) fn number(&self, k: usize) -> u64 {
        self.numbers.get(k).copied().unwrap_or(0)
    }

    // The part of the text lent that two numbers tell, its place and its size.
    fn part(&self, k: usize) -> &'a [u8] {
        let from = self.number(k) as usize;
        let size = self.number(k.saturating_add(1)) as usize;
        between(self.lent, from, from.saturating_add(size))
    }
}

// How many numbers a mark takes.
pub(crate) fn taken_by(byte: u8) -> usize {
    match byte {
        b'#' | b'&' | b'$' | b'_' => 1,
        b'!' | b'~' | b'^' | b'%' => 2,
        _ => 0,
    }
}

// Puts down what a mark shows of the numbers from a place on, or the byte itself.
pub(crate) fn put(page: &mut Page, byte: u8, given: Given, next: usize) {
    match byte {
        b'#' => page.put_decimal(given.number(next)),
        b'&' => page.put_hex(given.number(next), 2),
        b'$' => page.put_hex(given.number(next), 8),
        b'*' => put_plural(
            page,
            next.checked_sub(1).map_or(0, |before| given.number(before)),
        ),
        b'_' => {}
        b'!' => put_rows_named(page, given, next),
        b'~' => page.lay(given.part(next)),
        b'^' => page.put_text(given.part(next)),
        b'%' => page.put_rows(given.part(next)),
        b'\n' => page.end_line(),
        _ => page.lay(&[byte]),
    }
}

fn put_plural(page: &mut Page, n: u64) {
    if n != 1 {
        page.lay(b"s");
    }
}

fn put_rows_named(page: &mut Page, given: Given, next: usize) {
    put_row_named(page, given.number(next), given.lent);
    let other = given.number(next.saturating_add(1));
    if other != 0 {
        page.lay(b": ");
        put_row_named(page, other, given.lent);
    }
}

fn put_row_named(page: &mut Page, n: u64, table: &[u8]) {
    let mut digits = [0u8; 20];
    let count = io::decimal(n, &mut digits);
    let named: &[u8] = row_named(table, TAB, &digits[..count]).map_or(&[], |k| row(table, k));
    page.lay(&digits[..count]);
    page.lay(b", ");
    page.lay(piece(named, TAB, 1));
}
