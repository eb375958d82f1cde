// Unwrapping: any bytes in, the message or the acknowledgment out, or the first rule that they break.
ghost use Rattle.std.specs.Prelude.{false, ◌≡◌, ◌+◌, ◌<◌, ◌≤◌, length};
ghost use Rattle.envelope.specs.Numbers.{four_at};
ghost use Rattle.frame.specs.Unwrapping.{data_length, wrong_version, wrong_length, carrying, told_unwrapped, Unwraps};
ghost use Rattle.frame.specs.Layout.{body_place};
ghost use Rattle.frame.specs.Types.{told_type};

use crate::frame_type::FrameType;
use crate::layout;
use crate::refusal::Refusal;
use envelope::numbers::four_bytes;
use envelope::{Envelope, Part, read};

// A data message: the EMP message is a part of the frame's bytes; the envelope's own parts count from the message's first byte.
#[derive(Clone, Copy)]
pub struct DataMessage {
    pub commid: u32,
    pub message: Part,
    pub envelope: Envelope,
}

// Its own COMMID, and that of the message which it acknowledges.
#[derive(Clone, Copy)]
pub struct Acknowledgment {
    pub commid: u32,
    pub acknowledged: u32,
}

#[derive(Clone, Copy)]
pub enum Unwrapped {
    Data(DataMessage),
    Acknowledged(Acknowledgment),
}

#[tactic(auto, unfolding(crate::specs::Unwrapping::unwrapping, crate::specs::Unwrapping::other_type, crate::specs::Unwrapping::wrong_length))]
pub fn unwrap(bytes: &[u8]) -> Result<Unwrapped, Refusal>
    ensures { Unwraps bytes.now result }
{
    if bytes.len() < layout::LEAST_SIZE {
        return Err(Refusal::TooShort);
    }
    if bytes[layout::STX_PLACE] != layout::STX {
        return Err(Refusal::NoStx);
    }
    if wrong_version(
        bytes[layout::PROTOCOL_VERSION_PLACE],
        bytes[layout::MESSAGE_VERSION_PLACE],
    ) {
        return Err(Refusal::WrongVersion);
    }
    let frame_type = FrameType::try_from(bytes[layout::TYPE_PLACE])?;
    let size = four_at(bytes, layout::LENGTH_PLACE);
    if wrong_length(frame_type, size, bytes.len()) {
        return Err(Refusal::WrongLength);
    }
    let end = layout::BODY_PLACE + size as usize;
    if bytes[end] != layout::ETX {
        return Err(Refusal::NoEtx);
    }
    carried_by(bytes, frame_type, end)
}

// Rule 63.
#[tactic(auto, unfolding(crate::specs::Unwrapping::wrong_version))]
fn wrong_version(protocol: u8, message: u8) -> bool
    ensures { result ≡ wrong_version protocol message }
{
    protocol != layout::PROTOCOL_VERSION || message != layout::MESSAGE_VERSION
}

// Rule 65.
#[tactic(auto, unfolding(crate::specs::Unwrapping::wrong_length))]
fn wrong_length(frame_type: FrameType, size: u32, given: usize) -> bool
    ensures { result ≡ wrong_length (told_type frame_type) size given }
{
    let size = size as usize;
    layout::LEAST_SIZE + size != given
        || frame_type == FrameType::Acknowledgment && size != layout::COMMID_SIZE
}

// What a whole frame carries; its body ends before `end`.
#[tactic(auto, unfolding(crate::specs::Unwrapping::carrying, crate::specs::Unwrapping::wrong_length))]
fn carried_by(bytes: &[u8], frame_type: FrameType, end: usize) -> Result<Unwrapped, Refusal>
    requires { (end < length bytes.now) × (end ≡ body_place + data_length bytes.now) × (wrong_length (told_type frame_type) (data_length bytes.now) (length bytes.now) ≡ false) }
    ensures { told_unwrapped result ≡ carrying bytes.now (told_type frame_type) }
{
    let commid = four_at(bytes, layout::COMMID_PLACE);
    match frame_type {
        FrameType::Acknowledgment => {
            let acknowledged = four_at(bytes, layout::BODY_PLACE);
            Ok(Unwrapped::Acknowledged(Acknowledgment {
                commid,
                acknowledged,
            }))
        }
        FrameType::Data => {
            let envelope = read(&bytes[layout::BODY_PLACE..end])?;
            let message = Part {
                place: layout::BODY_PLACE,
                size: end - layout::BODY_PLACE,
            };
            Ok(Unwrapped::Data(DataMessage {
                commid,
                message,
                envelope,
            }))
        }
    }
}

// That of `envelope` is not public, for it requires the bytes to be there, which no public function may.
#[tactic(auto, unfolding(envelope::specs::Numbers::four_at))]
pub(crate) fn four_at(bytes: &[u8], place: usize) -> u32
    requires { place + 4 ≤ length bytes.now }
    ensures { result ≡ four_at bytes.now place }
{
    four_bytes(
        bytes[place],
        bytes[place + 1],
        bytes[place + 2],
        bytes[place + 3],
    )
}
