// What a listing needs: the count of a file and of its retired records, and a line for each record.
ghost use Rattle.golden.specs.Listing.{CountsRetired, Enters};

pub use crate::file::count;
use crate::file::{open_at, records};
use crate::finder::Name;
use crate::record::open;
use crate::refusal::Refusal;

#[derive(Clone, Copy)]
pub struct Entry {
    pub name: Name,
    pub size: usize,
    pub retired: bool,
}

// How many records are good and retired.
pub fn count_retired(file: &[u8]) -> Result<usize, Refusal>
    ensures { CountsRetired file.now result }
{
    count(file)?;
    let mut retired = 0;
    for bytes in records(file) {
        if open(bytes).is_ok_and(|good| good.retired) {
            retired += 1;
        }
    }
    Ok(retired)
}

pub fn entry_at(file: &[u8], n: usize) -> Result<Entry, Refusal>
    ensures { Enters file.now n result }
{
    if count(file)? <= n {
        return Err(Refusal::NoRecord);
    }
    let good = open_at(file, n)?;
    Ok(Entry {
        name: Name::from(good),
        size: good.size,
        retired: good.retired,
    })
}
