// Class D frames, for C: unwrapped into numbers, and written into a lent buffer.
ghost use Rattle.std.specs.Prelude.{◌≡◌};
ghost use Rattle.frame.specs.Capturing.{MeasuresFirst};
ghost use Rattle.frame.specs.Unwrapping.{told_unwrapped};
ghost use Rattle.frame.specs.Wrapping.{told_wrapped};
ghost use Rattle.exports.specs.Frames.{unwrap_slots, commids_after, message_fields, lent_for, UnwrapsForC, wrap_slots, WrapsForC, AcknowledgesForC};
ghost use Rattle.exports.specs.Helpers.{told_slots};

use crate::answers::Slots;
use crate::envelopes::{FIELDS, numbers_of};
use envelope::Numbers;
use frame::{FrameType, Refusal, Unwrapped, acknowledge, first, unwrap, wrap};

// A frame's own COMMID, and the acknowledged one.
pub const COMMIDS: usize = 2;

pub fn morlewen_unwrap(
    bytes: &[u8],
    commids: &mut [u32; COMMIDS],
    fields: &mut [u64; FIELDS],
) -> u64
    ensures { UnwrapsForC bytes.now (lent_for commids.old fields.old) result (lent_for commids.new fields.new) }
{
    let unwrapped = unwrap(bytes);
    put_commids(unwrapped, commids);
    put_message(unwrapped, fields);
    unwrap_slots(unwrapped).word()
}

pub fn morlewen_wrap(message: &[u8], commid: u32, buffer: &mut [u8]) -> u64
    ensures { WrapsForC message.now commid buffer.old result buffer.new }
{
    wrap_slots(wrap(message, commid, buffer)).word()
}

pub fn morlewen_acknowledge(commid: u32, acknowledged: u32, buffer: &mut [u8]) -> u64
    ensures { AcknowledgesForC commid acknowledged buffer.old result buffer.new }
{
    wrap_slots(acknowledge(commid, acknowledged, buffer)).word()
}

pub fn morlewen_frame_first(capture: &[u8]) -> usize
    ensures { MeasuresFirst capture.now result }
{
    first(capture)
}

fn put_commids(unwrapped: Result<Unwrapped, Refusal>, commids: &mut [u32; COMMIDS])
    ensures { commids.new ≡ commids_after (told_unwrapped unwrapped) commids.old }
{
    match unwrapped {
        Ok(Unwrapped::Data(data)) => {
            *commids = [data.commid, 0];
        }
        Ok(Unwrapped::Acknowledged(acknowledgment)) => {
            *commids = [acknowledgment.commid, acknowledgment.acknowledged];
        }
        Err(_) => {}
    }
}

// For `put` the one variant would go into an Option first: no plainer.
fn put_message(unwrapped: Result<Unwrapped, Refusal>, fields: &mut [u64; FIELDS])
    ensures { fields.new ≡ message_fields (told_unwrapped unwrapped) fields.old }
{
    if let Ok(Unwrapped::Data(data)) = unwrapped {
        *fields = numbers_of(data.envelope);
    }
}

fn unwrap_slots(unwrapped: Result<Unwrapped, Refusal>) -> Slots
    ensures { told_slots result ≡ unwrap_slots (told_unwrapped unwrapped) }
{
    match unwrapped {
        Ok(Unwrapped::Data(data)) => {
            Slots::done(usize::from(u8::from(FrameType::Data)), data.message.size)
        }
        Ok(Unwrapped::Acknowledged(_)) => Slots::done(
            usize::from(u8::from(FrameType::Acknowledgment)),
            0,
        ),
        Err(refusal) => Slots::refused(Numbers::from(refusal), 0),
    }
}

fn wrap_slots(wrapped: Result<usize, Refusal>) -> Slots
    ensures { told_slots result ≡ wrap_slots (told_wrapped wrapped) }
{
    match wrapped {
        Ok(size) => Slots::done(0, size),
        Err(refusal) => Slots::refused(Numbers::from(refusal), 0),
    }
}
