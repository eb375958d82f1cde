// What stands beside the bytes that a feed keeps, and what a call finds.
// The steps that more than one function takes are made here.
ghost use Rattle.std.specs.Prelude.{ℕ, List, ◌≡◌, ◌<◌};
ghost use Rattle.feed.specs.Feeding.{begun_by, closing, still};
ghost use Rattle.feed.specs.Helpers.{goes_on, told_verdict};
ghost use Rattle.feed.specs.Told.{told_standing, state_of, told_step};
ghost use Rattle.feed.specs.Verdict.{room};

use crate::feeder::Feed;
use crate::refusal::Refusal;
use envelope::Envelope;

// By name, as a Result of a flag would not say which of the two that go on is whole.
#[derive(Clone, Copy)]
pub enum Standing {
    // so many bytes of a message are in; between messages none
    Inside,
    // so many bytes are a message, until the next byte comes
    Whole,
    Refused(Refusal),
}

// The first `count` of the bytes kept are those of the message that is on its way, or was found, or was refused.
#[derive(Clone, Copy)]
pub struct Beside {
    pub count: usize,
    pub standing: Standing,
}

// A whole message. Its bytes stay with the feed until the next byte, and what `read` hands out of them comes along.
#[derive(Clone, Copy)]
pub struct Message {
    pub size: usize,
    pub envelope: Envelope,
}

// What a call leaves beside the bytes kept, how many bytes it used, and what it found.
#[derive(Clone, Copy)]
pub struct Step {
    pub beside: Beside,
    pub used: usize,
    pub found: Result<Option<Message>, Refusal>,
}

impl Beside {
    // Whether the next byte goes in: unless a refusal stands.
    pub(crate) fn goes_on(self) -> bool
        ensures { result ≡ goes_on (told_standing self.standing) }
    {
        !matches!(self.standing, Standing::Refused(_))
    }

    // How many bytes of the next message are in. A count that no feed has counts as none.
    pub(crate) fn begun(self) -> usize
        ensures { (result ≡ begun_by (told_standing self.standing) self.count) × (result < room) }
    {
        match self.standing {
            Standing::Inside if self.count < Feed::ROOM => self.count,
            Standing::Inside | Standing::Whole | Standing::Refused(_) => 0,
        }
    }

    // Nothing is used, and a refusal that stands is repeated.
    pub(crate) fn stay(self) -> Step
        ensures { (kept : List ℕ) → told_step result kept ≡ still (state_of kept self) }
    {
        Step {
            beside: self,
            used: 0,
            found: match self.standing {
                Standing::Refused(refusal) => Err(refusal),
                Standing::Inside | Standing::Whole => Ok(None),
            },
        }
    }
}

impl Step {
    // So many bytes are in, and so many of the piece were used: nothing is settled yet, a message is whole, or it is refused.
    pub(crate) fn settled(
        count: usize,
        used: usize,
        verdict: Result<Option<Envelope>, Refusal>,
    ) -> Step
        ensures { (kept : List ℕ) → told_step result kept ≡ closing (told_verdict verdict) kept count used }
    {
        let standing = match verdict {
            Ok(None) => Standing::Inside,
            Ok(Some(_)) => Standing::Whole,
            Err(refusal) => Standing::Refused(refusal),
        };
        Step {
            beside: Beside { count, standing },
            used,
            found: verdict.map(|whole| whole.map(|envelope| Message {
                size: count,
                envelope,
            })),
        }
    }
}
