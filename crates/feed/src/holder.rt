// The message that was found, as the feed keeps it.
// It is there until the next byte comes.
ghost use Rattle.feed.specs.Told.{Holds};

use crate::step::{Beside, Standing};

// The bytes of the message found, out of those kept. None where there is no message.
pub fn held<'a>(kept: &'a [u8], beside: Beside) -> &'a [u8]
    ensures { Holds kept.now beside result.now }
{
    match beside.standing {
        Standing::Whole => &kept[..beside.count.min(kept.len())],
        Standing::Inside | Standing::Refused(_) => &kept[..0],
    }
}
