// Ascending: whether the records of a file stand in strictly ascending order of type, then number.
ghost use Rattle.golden.specs.Ordering.{Orders};

use crate::file::{count, records};
use crate::finder::Name;
use crate::record::open;
use crate::refusal::RefusedAt;

// The first record that does not come after the one before it, if there is one.
pub fn ascending(file: &[u8]) -> Result<Option<usize>, RefusedAt>
    ensures { Orders file.now result }
{
    count(file)?;
    let mut last: Option<Name> = None;
    for (n, bytes) in records(file).iter().enumerate() {
        let good = open(bytes).map_err(|refusal| RefusedAt { record: n, refusal })?;
        let name = Name::from(good);
        if last.is_some_and(|last| name <= last) {
            return Ok(Some(n));
        }
        last = Some(name);
    }
    Ok(None)
}
