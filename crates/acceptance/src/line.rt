// A line of cases, read word by word from left to right. The first word that does not fit is told, and nothing after it.
// Rests on the crate `console`.
ghost use Rattle.std.specs.Prelude.{◌≤◌, IfOk};

use crate::stop::{Expected, Stop};
use console::table::between;
use std::io::Write;
use std::str;

// The most characters of a line.
pub const LONGEST: usize = 4_096;

// The largest numbers of one, two, four and eight bytes.
pub const ONE: u64 = 0xFF;

pub const TWO: u64 = 0xFFFF;

pub const FOUR: u64 = 0xFFFF_FFFF;

pub const EIGHT: u64 = u64::MAX;

// A word, and where it stands in its line.
#[derive(Clone, Copy)]
pub struct Word<'a> {
    pub from: usize,
    pub bytes: &'a [u8],
}

impl Word<'_> {
    pub fn is(&self, text: &str) -> bool {
        self.bytes == text.as_bytes()
    }

    pub fn unfit(&self, expected: Expected) -> Stop {
        Stop::at(self.from, expected)
    }
}

// What is left of a line begins at a place. Its head, up to the colon behind the name, is told before what it answers.
#[derive(Clone, Copy)]
pub struct Line<'a> {
    bytes: &'a [u8],
    head: &'a [u8],
    place: usize,
}

impl<'a> Line<'a> {
    pub fn new(bytes: &'a [u8]) -> Line<'a> {
        Line {
            bytes,
            head: &[],
            place: 0,
        }
    }

    fn left(&self) -> &'a [u8] {
        between(self.bytes, self.place, self.bytes.len())
    }

    // The next word, which is empty at the end of the line.
    pub fn next(&self) -> Word<'a> {
        let left = self.left();
        let spaces = left
            .iter()
            .position(|byte| *byte != b' ')
            .unwrap_or(left.len());
        let mut words = between(left, spaces, left.len()).split(|byte| *byte == b' ');
        Word {
            from: self.place.saturating_add(spaces),
            bytes: words.next().unwrap_or(&[]),
        }
    }

    pub fn take(&mut self, word: Word) {
        self.place = word.from.saturating_add(word.bytes.len());
    }

    // Whether the next word is this one, which is taken then.
    pub fn takes(&mut self, text: &str) -> bool {
        let word = self.next();
        let same = word.is(text);
        if same {
            self.take(word);
        }
        same
    }

    // A word that must stand.
    pub fn word(&mut self, text: &'static str) -> Result<(), Stop> {
        if self.takes(text) {
            return Ok(());
        }
        Err(self.next().unfit(Expected::Word(text)))
    }

    pub fn number(&mut self, most: u64) -> Result<u64, Stop>
        ensures { IfOk result (λ n. n ≤ most) }
    {
        let word = self.next();
        let Ok(n) = decimal(word.bytes, most) else {
            return Err(word.unfit(Expected::Number(most)));
        };
        self.take(word);
        Ok(n)
    }

    // A number behind the word that names it.
    pub fn field(&mut self, text: &'static str, most: u64) -> Result<u64, Stop>
        ensures { IfOk result (λ n. n ≤ most) }
    {
        self.word(text)?;
        self.number(most)
    }

    // Behind the name, which is all up to a colon, and no spaces alone.
    pub fn named(self) -> Result<Line<'a>, Stop> {
        let left = self.left();
        let colon = left
            .iter()
            .position(|byte| *byte == b':')
            .unwrap_or(left.len());
        let name = between(left, 0, colon);
        if colon == left.len() || name.iter().all(|byte| *byte == b' ') {
            return Err(Stop::at(self.place, Expected::Name));
        }
        let begun = Line::new(self.bytes).next().from;
        let place = self.place.saturating_add(colon).saturating_add(1);
        Ok(Line {
            bytes: self.bytes,
            head: between(self.bytes, begun, place),
            place,
        })
    }

    pub fn end(&self) -> Result<(), Stop> {
        let word = self.next();
        if word.bytes.is_empty() {
            return Ok(());
        }
        Err(word.unfit(Expected::End))
    }

    // All words are read: what the line answers follows.
    pub fn answer(&self, out: &mut impl Write) -> Result<(), Stop> {
        self.end()?;
        out.write_all(self.head)?;
        Ok(())
    }
}

// Why a word is not taken.
#[derive(Clone, Copy)]
pub enum Misfit {
    Form,
    Size,
}

// A number of digits alone, and no more than the most. Console's `decimal_of` takes no more than 20 digits, and does not tell form from size.
pub fn decimal(word: &[u8], most: u64) -> Result<u64, Misfit>
    ensures { IfOk result (λ n. n ≤ most) }
{
    if word.is_empty() || !word.iter().all(|byte| byte.is_ascii_digit()) {
        return Err(Misfit::Form);
    }
    let digits = str::from_utf8(word).unwrap_or("");
    match digits.parse::<u64>() {
        Ok(n) if n <= most => Ok(n),
        _ => Err(Misfit::Size),
    }
}
