// The refusals of frames, in the order of their numbers: six of unwrapping, reading's passed on whole, and want of room.
// 69 has no case: an accepted message is shorter than the data length can state.
ghost use Rattle.frame.specs.Refusal.{PassesMessageOn, NumbersFrameAlone, NumbersFrameRefusal};

use envelope::Numbers;

#[derive(Clone, Copy)]
pub enum Refusal {
    TooShort,
    NoStx,
    WrongVersion,
    OtherType,
    WrongLength,
    NoEtx,
    MessageRefused(envelope::Refusal),
    NoRoom,
}

// Of unwrapping and wrapping alike: the message that the frame carries.
impl From<envelope::Refusal> for Refusal {
    ghost from_gives = { PassesMessageOn };

    fn from(refusal: envelope::Refusal) -> Refusal {
        Refusal::MessageRefused(refusal)
    }
}

// The number of the table of refusals alone; by a match, for one variant holds a value.
impl From<Refusal> for u8 {
    ghost from_gives = { NumbersFrameAlone };

    fn from(refusal: Refusal) -> u8 {
        match refusal {
            Refusal::TooShort => 61,
            Refusal::NoStx => 62,
            Refusal::WrongVersion => 63,
            Refusal::OtherType => 64,
            Refusal::WrongLength => 65,
            Refusal::NoEtx => 66,
            Refusal::MessageRefused(_) => 67,
            Refusal::NoRoom => 68,
        }
    }
}

// In two steps, for of one match the compiler makes a table in the archive.
impl From<Refusal> for Numbers {
    ghost from_gives = { NumbersFrameRefusal };

    fn from(refusal: Refusal) -> Numbers {
        let number = u8::from(refusal);
        match refusal {
            Refusal::MessageRefused(reading) => Numbers::passing_on(number, reading),
            _ => Numbers::plainly(number),
        }
    }
}
