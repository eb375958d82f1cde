// Find by halving (K9), for files in ascending order of type, then number: each record that it opens halves the range.
ghost use Rattle.golden.specs.Halving.{Halves};

use crate::file::{count, open_at};
use crate::finder::{Found, Name, RefusedAfter};
use crate::refusal::Refusal;
use std::cmp::Ordering;

pub fn find_by_halving(file: &[u8], name: Name) -> Result<Found, RefusedAfter>
    ensures { Halves file.now name result }
{
    let mut first = 0;
    let mut end = count(file)?;
    let mut opened = 0;
    // Halves a range, and counts no index. The library's binary search neither stops at a refusal nor counts what it opens.
    while first < end {
        let middle = (first + end) / 2;
        opened += 1;
        let good = open_at(file, middle).map_err(|refusal| RefusedAfter { refusal, opened })?;
        match Name::from(good).cmp(&name) {
            Ordering::Less => first = middle + 1,
            Ordering::Greater => end = middle,
            // a retired match is none, and there is no other
            Ordering::Equal if good.retired => break,
            Ordering::Equal => return Ok(Found {
                record: middle,
                opened,
            }),
        }
    }
    let refusal = Refusal::NotFound;
    Err(RefusedAfter { refusal, opened })
}
