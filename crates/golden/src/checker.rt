// Check: every record of a file, and that no two live ones have one name.
ghost use Rattle.std.specs.Prelude.{false, ◌≡◌, ◌≤◌, ◌<◌};
ghost use Rattle.envelope.specs.Told.{told_envelope};
ghost use Rattle.golden.specs.Checking.{Checks};
ghost use Rattle.golden.specs.File.{count_of};
ghost use Rattle.golden.specs.Finding.{name_of, told_name};
ghost use Rattle.golden.specs.Helpers.{written_name, is_written, written_before, repeats_by, buckets, bucket_of};

use crate::file::{count, record_at, records};
use crate::finder::Name;
use crate::record::{GoodRecord, Record, is_retired, open};
use crate::refusal::{Refusal, RefusedAt};
use envelope::numbers::{four_bytes, two_bytes};

const BUCKETS: usize = 256;

pub fn check(file: &[u8]) -> Result<usize, RefusedAt>
    ensures { Checks file.now result }
{
    let count = count(file)?;
    let mut used = [false; BUCKETS];
    for (n, bytes) in records(file).iter().enumerate() {
        let good = open(bytes).map_err(|refusal| RefusedAt { record: n, refusal })?;
        let bucket = bucket_of(Name::from(good));
        if is_repeated(file, good, n, used[bucket]) {
            let refusal = Refusal::NameTaken;
            return Err(RefusedAt { record: n, refusal });
        }
        used[bucket] = true;
    }
    Ok(count)
}

// A bucket for each name, by type plus number. Names that follow each other in type or number have buckets apart; those a multiple of 256 apart share one.
#[tactic(auto, unfolding(crate::specs::Helpers::bucket_of))]
fn bucket_of(name: Name) -> usize
    ensures { (result ≡ bucket_of (told_name name)) × (result < buckets) }
{
    (usize::from(name.message_type) + name.number as usize) % BUCKETS
}

// 26 of a good record, behind records that are good. A retired one bears no name here.
fn is_repeated(file: &[u8], good: GoodRecord, n: usize, used: bool) -> bool
    requires { (n ≤ count_of file.now) × (used ≡ false → written_before file.now (name_of (told_envelope good.envelope)) n ≡ false) }
    ensures { result ≡ repeats_by good.retired (told_envelope good.envelope) file.now n }
{
    !good.retired && name_taken(file, Name::from(good), n, used)
}

// Whether a live record before `end` has the name. They are good, so the mark and the bytes of type and number tell it, and none is read again.
// Where no earlier name used the bucket of this one, none has it, and no record is looked at.
fn name_taken(file: &[u8], name: Name, end: usize, used: bool) -> bool
    requires { (end ≤ count_of file.now) × (used ≡ false → written_before file.now (told_name name) end ≡ false) }
    ensures { result ≡ written_before file.now (told_name name) end }
{
    // by number, as the definition counts the earlier ones
    used && (0..end).any(|earlier| is_written(record_at(file, earlier), name))
}

fn is_written(bytes: &[u8; Record::SIZE], name: Name) -> bool
    ensures { result ≡ is_written (told_name name) bytes.now }
{
    !is_retired(bytes) && written_name(bytes) == name
}

fn written_name(bytes: &[u8; Record::SIZE]) -> Name
    ensures { told_name result ≡ written_name bytes.now }
{
    let at = Record::TYPE_PLACE;
    let message_type = two_bytes(bytes[at], bytes[at + 1]);
    let at = Record::NUMBER_PLACE;
    let number = four_bytes(bytes[at], bytes[at + 1], bytes[at + 2], bytes[at + 3]);
    Name {
        message_type,
        number,
    }
}
