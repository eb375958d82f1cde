// The refusals of the send side, in the order of their numbers: two of a submission, one of any other event, one of the start.
ghost use Rattle.sender.specs.Told.{NumbersSenderRefusal};

use envelope::Numbers;

#[derive(Clone, Copy)]
pub enum Refusal {
    // 70: 16 wait already
    Full,
    // 71: the COMMID waits or is in flight
    Known,
    // 72: the COMMID is not the one in flight
    NotInFlight,
    // 73: more than 10 resends
    TooManyResends,
}

// The numbers of the table of refusals.
impl From<Refusal> for Numbers {
    ghost from_gives = { NumbersSenderRefusal };

    fn from(refusal: Refusal) -> Numbers {
        match refusal {
            Refusal::Full => Numbers::plainly(70),
            Refusal::Known => Numbers::plainly(71),
            Refusal::NotInFlight => Numbers::plainly(72),
            Refusal::TooManyResends => Numbers::plainly(73),
        }
    }
}
