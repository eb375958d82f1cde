// The end of the bytes: inside a message it is refused, as 52.
// The bytes kept stay as they are, so that they need not be lent.
ghost use Rattle.feed.specs.Told.{Closes};

use crate::refusal::Refusal;
use crate::step::{Beside, Step};

// `Feed::end` where the feed is lent in parts.
pub fn close(beside: Beside) -> Step
    ensures { Closes beside result }
{
    if beside.begun() == 0 {
        return beside.stay();
    }
    Step::settled(beside.count, 0, Err(Refusal::Cut))
}
