// BYTES, words that each add bytes in one of four forms, and LIST, words that each add a number once or so many times, four bytes each.
// Rests on `line` and `buffer`.
use crate::buffer::Buffer;
use crate::line::{FOUR, LONGEST, Line, Misfit, decimal};
use crate::stop::{Expected, Stop};
use std::iter;

// Room for the bytes of a line, and the most that one BYTES has.
const ROOM: usize = 300_000;

pub const MOST: u64 = ROOM as u64;

// The most numbers of a LIST.
pub const MOST_LISTED: usize = 600;

// The bytes of a line, one BYTES behind another.
pub type Bytes = Buffer<ROOM>;

// Where the bytes of one BYTES or LIST stand.
#[derive(Clone, Copy)]
pub struct Part {
    from: usize,
    to: usize,
}

// What words are: BYTES, with the most that there may be, or a LIST.
#[derive(Clone, Copy)]
enum Words {
    Bytes(u64),
    Numbers,
}

impl Words {
    fn expected(self, misfit: Misfit) -> Expected {
        match (self, misfit) {
            (Words::Bytes(_), Misfit::Form) => Expected::Bytes,
            (Words::Bytes(most), Misfit::Size) => Expected::FewerBytes(most),
            (Words::Numbers, Misfit::Form) => Expected::Number(FOUR),
            (Words::Numbers, Misfit::Size) => Expected::FewerNumbers,
        }
    }
}

impl Bytes {
    pub fn of(&self, part: Part) -> &[u8] {
        self.part(part.from, part.to)
    }

    // BYTES up to the word that must follow, or to the end of the line.
    pub fn read(&mut self, line: &mut Line, most: u64, next: &str) -> Result<Part, Stop> {
        self.words(line, Words::Bytes(most), next)
    }

    // BYTES to the end of the line.
    pub fn last(&mut self, line: &mut Line, most: u64) -> Result<&[u8], Stop> {
        let part = self.read(line, most, "")?;
        line.end()?;
        Ok(self.of(part))
    }

    // LIST up to the word that must follow.
    pub fn list(&mut self, line: &mut Line, next: &str) -> Result<Part, Stop> {
        self.words(line, Words::Numbers, next)
    }

    fn words(&mut self, line: &mut Line, words: Words, next: &str) -> Result<Part, Stop> {
        let from = self.used();
        // a count, as the words of a line are no slice to go over; there are fewer of them than characters
        for _ in 0..LONGEST {
            let word = line.next();
            if word.bytes.is_empty() || word.is(next) {
                break;
            }
            let so_far = self.used().saturating_sub(from) as u64;
            let added = self.add_word(words, word.bytes, so_far);
            if let Err(misfit) = added {
                return Err(word.unfit(words.expected(misfit)));
            }
            line.take(word);
        }
        let to = self.used();
        Ok(Part { from, to })
    }

    // Adds what a word says behind so many bytes.
    fn add_word(&mut self, words: Words, word: &[u8], so_far: u64) -> Result<(), Misfit> {
        match words {
            Words::Bytes(most) => self.add(word, most.saturating_sub(so_far)),
            Words::Numbers => {
                self.add_number(word, (MOST_LISTED as u64).saturating_sub(so_far / 4))
            }
        }
    }

    fn add(&mut self, word: &[u8], left: u64) -> Result<(), Misfit> {
        if word.starts_with(b"'") {
            return self.add_quoted(word, left);
        }
        match at_star(word) {
            (what, Some(times)) => self.add_repeated(what, times, left),
            (hex, None) => self.add_pairs(hex, left),
        }
    }

    fn add_quoted(&mut self, word: &[u8], left: u64) -> Result<(), Misfit> {
        let inner = quoted(word).ok_or(Misfit::Form)?;
        within(inner.len() as u64, left)?;
        self.extend(inner.iter().copied());
        Ok(())
    }

    fn add_pairs(&mut self, hex: &[u8], left: u64) -> Result<(), Misfit> {
        if hex.len() % 2 != 0 || !is_hex(hex) {
            return Err(Misfit::Form);
        }
        within(hex.len() as u64 / 2, left)?;
        self.extend(hex.chunks(2).map(byte_of));
        Ok(())
    }

    // The pattern's length is a prime, so that it meets no power of two.
    fn add_repeated(&mut self, what: &[u8], times: &[u8], left: u64) -> Result<(), Misfit> {
        if what == b"pattern".as_slice() {
            let times = decimal(times, left)?;
            self.extend((0..times).map(|i| (i % 251) as u8));
        } else if what.len() == 2 && is_hex(what) {
            let times = decimal(times, left)?;
            self.extend(iter::repeat_n(byte_of(what), times as usize));
        } else {
            return Err(Misfit::Form);
        }
        Ok(())
    }

    fn add_number(&mut self, word: &[u8], left: u64) -> Result<(), Misfit> {
        let (what, times) = at_star(word);
        let number = decimal(what, FOUR).map_err(|_| Misfit::Form)? as u32;
        let times = match times {
            Some(times) => decimal(times, left)?,
            None => within(1, left)?,
        };
        for _ in 0..times {
            self.extend(number.to_be_bytes().into_iter());
        }
        Ok(())
    }
}

// What stands before the first star of a word, and what stands behind it.
fn at_star(word: &[u8]) -> (&[u8], Option<&[u8]>) {
    match word.iter().position(|byte| *byte == b'*') {
        Some(star) => (&word[..star], Some(&word[star + 1..])),
        None => (word, None),
    }
}

fn within(n: u64, most: u64) -> Result<u64, Misfit> {
    if most < n {
        return Err(Misfit::Size);
    }
    Ok(n)
}

// The characters between two quotes.
fn quoted(word: &[u8]) -> Option<&[u8]> {
    let inner = word.strip_prefix(b"'")?.strip_suffix(b"'")?;
    let fits = inner
        .iter()
        .all(|byte| byte.is_ascii_graphic() && *byte != b'\'');
    fits.then_some(inner)
}

fn is_hex(word: &[u8]) -> bool {
    word.iter().all(|byte| byte.is_ascii_hexdigit())
}

// The byte of two hex digits.
fn byte_of(pair: &[u8]) -> u8 {
    pair.iter().fold(0, |byte: u8, digit| {
        let value = char::from(*digit).to_digit(16).unwrap_or(0);
        byte.wrapping_mul(16).wrapping_add((value % 16) as u8)
    })
}
