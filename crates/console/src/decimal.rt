// A decimal number out of the bytes of an argument.
// Rests on std's `parse`; what counts as a number is defined in specs/Decimal.
ghost use Rattle.std.specs.Prelude.{◌≡◌, ◌^◌, ◌<◌, length, SomeIff, true};
ghost use Rattle.console.specs.Decimal.{all_digits, well_formed, value_of, Parses};

use std::str;

// The most digits that are taken: the largest number has as many.
const LONGEST: usize = 20;

pub fn decimal_of(word: &[u8], most: u64) -> Option<u64>
    ensures { Parses most word.now result }
{
    if !well_formed(word) {
        return None;
    }
    number_in(word).filter(|n| *n <= most)
}

fn well_formed(word: &[u8]) -> bool
    ensures { result ≡ well_formed word.now }
{
    !word.is_empty() && word.len() <= LONGEST && all_digits(word)
}

fn all_digits(word: &[u8]) -> bool
    ensures { result ≡ all_digits word.now }
{
    word.iter().all(|byte| byte.is_ascii_digit())
}

// The number that digits write, where its type has it.
fn number_in(digits: &[u8]) -> Option<u64>
    requires some { 0 < length digits.now }
    requires all { all_digits digits.now ≡ true }
    ensures { SomeIff result (value_of digits.now < 2 ^ 64) (value_of digits.now) }
{
    let Ok(text) = str::from_utf8(digits) else {
        return None;
    };
    text.parse().ok()
}
