// A piece goes in: the work of a feed, where the bytes kept are lent and nothing is copied but the piece.
// It goes in bulk, to the 17th byte and then to the announced length; byte by byte it would come to the same.
ghost use Rattle.std.specs.Prelude.{◌≡◌, ◌<◌, length};
ghost use Rattle.feed.specs.Feeding.{taking};
ghost use Rattle.feed.specs.Helpers.{opened, Heading, Stretch};
ghost use Rattle.feed.specs.Messages.{Few};
ghost use Rattle.feed.specs.Places.{PointsShort};
ghost use Rattle.feed.specs.Told.{state_of, told_step, Advances};
ghost use Rattle.feed.specs.Verdict.{room};

use crate::feeder::Feed;
use crate::filler::{fill, lay};
use crate::refusal::Refusal;
use crate::step::{Beside, Step};
use envelope::{Envelope, announce};

// `Feed::take` where the feed is lent in parts: the bytes kept, and what stands beside them.
// What follows for a caller is said too: no call uses more bytes than the longest message has or finds a longer one, nor, where the count tells the place of what stands, points past it.
pub fn advance(kept: &mut [u8; Feed::ROOM], beside: Beside, piece: &[u8]) -> Step
    ensures { Advances kept.old beside piece.now result kept.new × Few (told_step result kept.new) × PointsShort (state_of kept.old beside) (told_step result kept.new) }
{
    if piece.is_empty() || !beside.goes_on() {
        return beside.stay();
    }
    grow(kept, beside.begun(), piece)
}

// Past the heading, the bytes up to the announced length.
// From here on the bytes kept and their count are two parameters: a struct around the `&mut` would need a clause in each function, that it still lends the same bytes.
fn grow(kept: &mut [u8; Feed::ROOM], count: usize, piece: &[u8]) -> Step
    requires { (count < room) × (0 < length piece.now) }
    ensures { told_step result kept.new ≡ taking (opened kept.old count) piece.now }
{
    // fewer announce nothing yet, and `through_heading` asks again
    if Envelope::HEADER_SIZE <= count {
        match announced(&kept[..count]) {
            Ok(Some(whole)) if count < whole => return fill(kept, count, whole, 0, piece),
            _ => {}
        }
    }
    through_heading(kept, count, piece)
}

// The bytes up to the 17th, or one byte, and then those up to the announced length.
fn through_heading(kept: &mut [u8; Feed::ROOM], count: usize, piece: &[u8]) -> Step
    requires { (count < room) × (0 < length piece.now) }
    ensures { told_step result kept.new ≡ taking (opened kept.old count) piece.now }
{
    let first = stretch(count, piece.len());
    lay(kept, count, &piece[..first]);
    let in_all = count + first;
    match announced(&kept[..in_all]) {
        Ok(Some(whole)) => fill(kept, in_all, whole, first, &piece[first..]),
        Ok(None) => Step::settled(in_all, first, Ok(None)),
        Err(refusal) => Step::settled(in_all, first, Err(refusal)),
    }
}

// The length that the bytes of a message announce, none while fewer than a header has are in. One over the room is refused.
fn announced(message: &[u8]) -> Result<Option<usize>, Refusal>
    ensures { Heading message.now result }
{
    match announce(message)? {
        Some(whole) if Feed::ROOM < whole => Err(Refusal::TooLong),
        length => Ok(length),
    }
}

// How many bytes to take before the heading is judged: up to the 17th. One, where that is in: in a state that
// no feed comes to, the bytes kept may be a message or a refused heading already, and the next byte settles that.
fn stretch(count: usize, offered: usize) -> usize
    requires { 0 < offered }
    ensures { Stretch count offered result }
{
    Envelope::HEADER_SIZE
        .saturating_sub(count)
        .clamp(1, offered)
}
