// The file rule, the count of a file, and one record of it.
ghost use Rattle.std.specs.Prelude.{not, ◌&&◌, ◌≡◌, ◌<◌};
ghost use Rattle.golden.specs.File.{bad_file, count_of, not_there, record_at};
ghost use Rattle.golden.specs.Helpers.{told_opening, opening, records_of};
ghost use Rattle.golden.specs.Listing.{Counts};

use crate::record::{GoodRecord, Record, open};
use crate::refusal::Refusal;

#[tactic(auto, unfolding(crate::specs::File::bad_file, crate::specs::Listing::counting))]
pub fn count(file: &[u8]) -> Result<usize, Refusal>
    ensures { Counts file.now result }
{
    if file.len() % Record::SIZE != 0 || Record::LARGEST_FILE < file.len() {
        return Err(Refusal::NotAGoldenFile);
    }
    Ok(file.len() / Record::SIZE)
}

// The records of a file, the bytes of each. What is left over after the last one belongs to none.
pub(crate) fn records(file: &[u8]) -> &[[u8; Record::SIZE]]
    ensures { result.now ≡ records_of file.now }
{
    file.as_chunks().0
}

// Whether it is a golden file that has the record.
pub(crate) fn has_record(file: &[u8], n: usize) -> bool
    ensures { result ≡ (not (bad_file file.now) && not (not_there file.now n)) }
{
    count(file).is_ok_and(|count| n < count)
}

// Judges a record that is there.
pub(crate) fn open_at(file: &[u8], n: usize) -> Result<GoodRecord, Refusal>
    requires { n < count_of file.now }
    ensures { told_opening result ≡ opening (record_at file.now n) }
{
    open(record_at(file, n))
}

// The bytes of a record that is there. A file and a number stay two: they are the interface, and a struct of both would be no shorter here.
pub(crate) fn record_at(file: &[u8], n: usize) -> &[u8; Record::SIZE]
    requires { n < count_of file.now }
    ensures { result.now ≡ record_at file.now n }
{
    let start = n * Record::SIZE;
    file[start..start + Record::SIZE].as_array().unwrap()
}
