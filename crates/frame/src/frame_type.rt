// The type of a frame: which of the two kinds of frame that are ours it is, and its number in the header.
ghost use Rattle.frame.specs.Types.{NumbersType, TypeOfNumber};

use crate::refusal::Refusal;

// Each by its number.
#[derive(Clone, Copy, PartialEq, Eq)]
pub enum FrameType {
    Data = 1,
    Acknowledgment = 2,
}

impl From<FrameType> for u8 {
    ghost from_gives = { NumbersType };

    fn from(frame_type: FrameType) -> u8 {
        frame_type as u8
    }
}

// Rule 64.
impl TryFrom<u8> for FrameType {
    type Error = Refusal;

    ghost try_from_gives = { TypeOfNumber };

    fn try_from(number: u8) -> Result<FrameType, Refusal> {
        match number {
            1 => Ok(FrameType::Data),
            2 => Ok(FrameType::Acknowledgment),
            _ => Err(Refusal::OtherType),
        }
    }
}
