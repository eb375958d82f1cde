// Wrapping: a good message as a data message at the front of a lent buffer, and an acknowledgment likewise.
// First the whole answer is judged, with nothing written; only a frame that fits is put down.
ghost use Rattle.std.specs.Prelude.{◌≡◌, ◌+◌, ◌≤◌, length};
ghost use Rattle.frame.specs.Wrapping.{Wraps, Acknowledges, put_down};
ghost use Rattle.frame.specs.Frames.{header_bytes, frame};
ghost use Rattle.frame.specs.Layout.{least_size, largest_length};
ghost use Rattle.frame.specs.Types.{told_type};

use crate::frame_type::FrameType;
use crate::layout;
use crate::refusal::Refusal;
use envelope::numbers::four_digits;
use envelope::read;

#[tactic(auto, using(crate::proofs::WrapLaws::sizes), unfolding(crate::specs::Wrapping::wrapping))]
pub fn wrap(message: &[u8], commid: u32, buffer: &mut [u8]) -> Result<usize, Refusal>
    ensures { Wraps message.now commid buffer.old result buffer.new }
{
    read(message)?;
    let size = layout::LEAST_SIZE + message.len();
    if buffer.len() < size {
        return Err(Refusal::NoRoom);
    }
    put_frame(FrameType::Data, commid, message, buffer);
    Ok(size)
}

// Acknowledges a COMMID; the acknowledgment has a COMMID of its own.
#[tactic(auto, using(crate::proofs::WrapLaws::sizes), unfolding(crate::specs::Wrapping::acknowledging))]
pub fn acknowledge(commid: u32, acknowledged: u32, buffer: &mut [u8]) -> Result<usize, Refusal>
    ensures { Acknowledges commid acknowledged buffer.old result buffer.new }
{
    if buffer.len() < layout::ACKNOWLEDGMENT_SIZE {
        return Err(Refusal::NoRoom);
    }
    let body = four_digits(acknowledged);
    put_frame(FrameType::Acknowledgment, commid, &body, buffer);
    Ok(layout::ACKNOWLEDGMENT_SIZE)
}

// A whole frame, at the front of a buffer that has room for it.
#[tactic(auto, using(crate::proofs::PutLaws::put_down_lem))]
fn put_frame(frame_type: FrameType, commid: u32, body: &[u8], buffer: &mut [u8])
    requires { (least_size + length body.now ≤ length buffer.old) × (length body.now ≤ largest_length) }
    ensures { buffer.new ≡ put_down (frame (told_type frame_type) commid body.now) buffer.old }
{
    let header = header_digits(frame_type, commid, body.len());
    buffer[..layout::BODY_PLACE].copy_from_slice(&header);
    buffer[layout::BODY_PLACE..layout::BODY_PLACE + body.len()].copy_from_slice(body);
    buffer[layout::BODY_PLACE + body.len()] = layout::ETX;
}

fn header_digits(frame_type: FrameType, commid: u32, size: usize) -> [u8; layout::BODY_PLACE]
    requires { size ≤ largest_length }
    ensures { result ≡ header_bytes (told_type frame_type) commid size }
{
    let commid = four_digits(commid);
    let size = four_digits(size as u32);
    [
        layout::STX,
        layout::PROTOCOL_VERSION,
        commid[0],
        commid[1],
        commid[2],
        commid[3],
        u8::from(frame_type),
        layout::MESSAGE_VERSION,
        size[0],
        size[1],
        size[2],
        size[3],
    ]
}
