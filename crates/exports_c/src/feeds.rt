// Messages as they arrive, for C: a feed in storage that the caller lends.
ghost use Rattle.exports.specs.Feeds.{lent, TakesForC, EndsForC, RestartsForC, HoldsForC};

use exports::envelopes::FIELDS;
use exports::feeds::NUMBERS;
use feed::Feed;

#[unsafe(no_mangle)]
pub extern "C" fn morlewen_feed_take(
    kept: &mut [u8; Feed::ROOM],
    numbers: &mut [u64; NUMBERS],
    piece: &[u8],
    fields: &mut [u64; FIELDS],
) -> u64
    ensures { TakesForC (lent kept.old numbers.old fields.old) piece.now result (lent kept.new numbers.new fields.new) }
{
    exports::feeds::morlewen_feed_take(kept, numbers, piece, fields)
}

#[unsafe(no_mangle)]
pub extern "C" fn morlewen_feed_end(numbers: &mut [u64; NUMBERS]) -> u64
    ensures { EndsForC numbers.old result numbers.new }
{
    exports::feeds::morlewen_feed_end(numbers)
}

#[unsafe(no_mangle)]
pub extern "C" fn morlewen_feed_restart(kept: &mut [u8; Feed::ROOM], numbers: &mut [u64; NUMBERS])
    ensures { RestartsForC kept.new numbers.new }
{
    exports::feeds::morlewen_feed_restart(kept, numbers)
}

#[unsafe(no_mangle)]
pub extern "C" fn morlewen_feed_message(kept: &[u8; Feed::ROOM], numbers: &[u64; NUMBERS]) -> u64
    ensures { HoldsForC kept.now numbers.now result }
{
    exports::feeds::morlewen_feed_message(kept, numbers)
}
