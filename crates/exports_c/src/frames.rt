// Class D frames, for C: unwrapped into numbers, and written into a lent buffer.
ghost use Rattle.frame.specs.Capturing.{MeasuresFirst};
ghost use Rattle.exports.specs.Frames.{lent_for, UnwrapsForC, WrapsForC, AcknowledgesForC};

use exports::envelopes::FIELDS;
use exports::frames::COMMIDS;

#[unsafe(no_mangle)]
pub extern "C" fn morlewen_unwrap(
    bytes: &[u8],
    commids: &mut [u32; COMMIDS],
    fields: &mut [u64; FIELDS],
) -> u64
    ensures { UnwrapsForC bytes.now (lent_for commids.old fields.old) result (lent_for commids.new fields.new) }
{
    exports::frames::morlewen_unwrap(bytes, commids, fields)
}

#[unsafe(no_mangle)]
pub extern "C" fn morlewen_wrap(message: &[u8], commid: u32, buffer: &mut [u8]) -> u64
    ensures { WrapsForC message.now commid buffer.old result buffer.new }
{
    exports::frames::morlewen_wrap(message, commid, buffer)
}

#[unsafe(no_mangle)]
pub extern "C" fn morlewen_acknowledge(commid: u32, acknowledged: u32, buffer: &mut [u8]) -> u64
    ensures { AcknowledgesForC commid acknowledged buffer.old result buffer.new }
{
    exports::frames::morlewen_acknowledge(commid, acknowledged, buffer)
}

#[unsafe(no_mangle)]
pub extern "C" fn morlewen_frame_first(capture: &[u8]) -> usize
    ensures { MeasuresFirst capture.now result }
{
    exports::frames::morlewen_frame_first(capture)
}
