// Compare: a golden record with a radio's message, the differing positions into a lent list.
ghost use Rattle.std.specs.Prelude.{◌≡◌, ◌<◌, ◌^◌, length};
ghost use Rattle.golden.specs.Comparing.{differs_at, differing, Compares};
ghost use Rattle.golden.specs.Positions.{noted};

use crate::positions::note;
use crate::refusal::Refusal;
use crate::stepper::answer_at;
use envelope::read;

// In how many places the two differ, 0 where they are the same.
pub fn compare(file: &[u8], n: usize, radio: &[u8], list: &mut [u32]) -> Result<usize, Refusal>
    ensures { Compares file.now n radio.now list.old result list.new }
{
    let stored = answer_at(file, n)?.ok_or(Refusal::NoRecord)?;
    if stored.retired {
        return Err(Refusal::RecordRetired);
    }
    read(radio).map_err(Refusal::RadioRefused)?;
    let total = list_positions(stored.part.slice(file), radio, list);
    Ok(total)
}

// Puts the differing positions into the list, as far as it has room, and answers how many there are: C lends the list, and the total may be past its end.
fn list_positions(golden: &[u8], radio: &[u8], list: &mut [u32]) -> usize
    requires { (length golden.now < 2 ^ 32) × (length radio.now < 2 ^ 32) }
    ensures { (result ≡ length (differing golden.now radio.now))
        × (list.new ≡ noted (differing golden.now radio.now) list.old) }
{
    let end = golden.len().max(radio.len());
    let mut total = 0;
    // by position: past the end of the shorter one the two differ as well, and `zip` ends there
    for position in 0..end {
        if differ_at(golden, radio, position) {
            note(list, total, position as u32);
            total += 1;
        }
    }
    total
}

#[tactic(auto, unfolding(crate::specs::Comparing::differs_at))]
fn differ_at(golden: &[u8], radio: &[u8], position: usize) -> bool
    ensures { result ≡ differs_at golden.now radio.now position }
{
    golden.len() <= position || radio.len() <= position || golden[position] != radio[position]
}
