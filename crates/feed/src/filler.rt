// From the heading to the announced length: bytes go in, and when all are in, reading judges them.
// Once for each message, so that whoever is handed a message need not read it again.
ghost use Rattle.std.specs.Prelude.{◌≡◌, ◌+◌, ◌≤◌, length};
ghost use Rattle.envelope.specs.Reading.{reading};
ghost use Rattle.feed.specs.Helpers.{laid_in, outcome_at, Announced, told_verdict};
ghost use Rattle.feed.specs.Told.{told_step};
ghost use Rattle.feed.specs.Verdict.{room, settled};

use crate::feeder::Feed;
use crate::refusal::Refusal;
use crate::step::Step;
use envelope::{Envelope, read};

// The heading has passed, and announced a whole of so many bytes.
pub(crate) fn fill(
    kept: &mut [u8; Feed::ROOM],
    count: usize,
    whole: usize,
    used: usize,
    rest: &[u8],
) -> Step
    requires { Announced kept.old count whole used }
    ensures { told_step result kept.new ≡ outcome_at kept.old count used rest.now }
{
    let part = &rest[..rest.len().min(whole.saturating_sub(count))];
    lay(kept, count, part);
    let in_all = count + part.len();
    if in_all < whole {
        return Step::settled(in_all, used + part.len(), Ok(None));
    }
    Step::settled(in_all, used + part.len(), judged(&kept[..in_all]))
}

// All that was announced is in.
fn judged(message: &[u8]) -> Result<Option<Envelope>, Refusal>
    ensures { told_verdict result ≡ settled (reading message.now) }
{
    Ok(Some(read(message)?))
}

// A part goes in from a place.
pub(crate) fn lay(kept: &mut [u8; Feed::ROOM], place: usize, part: &[u8])
    requires { place + length part.now ≤ room }
    ensures { kept.new ≡ laid_in kept.old place part.now }
{
    kept[place..place + part.len()].copy_from_slice(part);
}
