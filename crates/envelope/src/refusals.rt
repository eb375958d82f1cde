// The numbers of a refusal, for whoever rests on reading and passes its refusals on.
ghost use Rattle.envelope.specs.Refusals.{NumbersByReading, NumbersPlainly, NumbersPassingOn};

use crate::reader::Refusal;

// Its own number, that of reading, or 0, and the place in the message, or 0.
#[derive(Clone, Copy)]
pub struct Numbers {
    pub number: u8,
    pub reading: u8,
    pub place: usize,
}

// Of a refusal of reading itself, whose number is its own.
impl From<Refusal> for Numbers {
    ghost from_gives = { NumbersByReading };

    fn from(refusal: Refusal) -> Numbers {
        Numbers {
            number: u8::from(refusal.fault),
            reading: 0,
            place: refusal.place,
        }
    }
}

impl Numbers {
    // Of a refusal in which reading had no part.
    pub fn plainly(number: u8) -> Numbers
        ensures { NumbersPlainly number result }
    {
        Numbers {
            number,
            reading: 0,
            place: 0,
        }
    }

    // Of one that passes on the refusal of reading.
    pub fn passing_on(number: u8, refusal: Refusal) -> Numbers
        ensures { NumbersPassingOn number refusal result }
    {
        Numbers {
            number,
            reading: u8::from(refusal.fault),
            place: refusal.place,
        }
    }
}
