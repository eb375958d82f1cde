// The walk's step, and where a message is stored, from a file and a number.
ghost use Rattle.std.specs.Prelude.{◌≡◌};
ghost use Rattle.golden.specs.Stepping.{step_at, next_after, told_reached, Steps, Stores};

use crate::file::{count, has_record, open_at, record_at};
use crate::record::{Record, stored_length};
use crate::refusal::Refusal;
use envelope::Part;

// A message in the file, and whether its record is retired.
#[derive(Clone, Copy)]
pub struct Stored {
    pub part: Part,
    pub retired: bool,
}

// The answer, None at the end, and the number of the next record.
#[derive(Clone, Copy)]
pub struct Stepping {
    pub answer: Result<Option<Stored>, Refusal>,
    pub next: usize,
}

pub fn step(file: &[u8], n: usize) -> Stepping
    ensures { Steps file.now n result }
{
    let answer = answer_at(file, n);
    let next = next_after(file, n);
    Stepping { answer, next }
}

pub(crate) fn answer_at(file: &[u8], n: usize) -> Result<Option<Stored>, Refusal>
    ensures { told_reached result ≡ step_at file.now n }
{
    if count(file)? <= n {
        return Ok(None);
    }
    let good = open_at(file, n)?;
    Ok(Some(Stored {
        part: Part {
            place: n * Record::SIZE + Record::HEAD_SIZE,
            size: good.size,
        },
        retired: good.retired,
    }))
}

// One on, except at the end and where the file is refused.
fn next_after(file: &[u8], n: usize) -> usize
    ensures { result ≡ next_after file.now n }
{
    if has_record(file, n) { n + 1 } else { n }
}

// Where the message of a record lies by its stored length, good or not, and be it past the record; no bytes, where there is no such record or file.
pub fn stored_message(file: &[u8], n: usize) -> Part
    ensures { Stores file.now n result }
{
    if !has_record(file, n) {
        // no Option: README and docs/ACCEPTANCE.md name this function, and `Stores` has no bytes here
        return Part { place: 0, size: 0 };
    }
    Part {
        place: n * Record::SIZE + Record::HEAD_SIZE,
        size: stored_length(record_at(file, n)),
    }
}
