// What a feed refuses: the refusals of reading, passed on whole, and two of its own.
// At the 17th byte 2, 3, 4 and 51, with the last announced byte 6 and 7, at the end 52.
ghost use Rattle.std.specs.Prelude.{◌≡◌};
ghost use Rattle.feed.specs.Told.{NumbersFeedRefusal};
ghost use Rattle.feed.specs.declared.refusal.Refusal.TheVariants.{MessageRefused};

use envelope::Numbers;

#[derive(Clone, Copy)]
pub enum Refusal {
    // 2, 3, 4, 6 and 7; 1 and 5 only in a feed that no calls lead to
    MessageRefused(envelope::Refusal),
    // 51: the announced length is over the room
    TooLong,
    // 52: the end came inside a message
    Cut,
}

// A refusal of reading is passed on whole.
impl From<envelope::Refusal> for Refusal {
    ghost from_gives = { λ r f. f ≡ MessageRefused r };

    fn from(refusal: envelope::Refusal) -> Refusal {
        Refusal::MessageRefused(refusal)
    }
}

// The numbers of the table of refusals, with the place in the message.
impl From<Refusal> for Numbers {
    ghost from_gives = { NumbersFeedRefusal };

    fn from(refusal: Refusal) -> Numbers {
        match refusal {
            Refusal::MessageRefused(reading) => Numbers::from(reading),
            Refusal::TooLong => Numbers::plainly(51),
            Refusal::Cut => Numbers::plainly(52),
        }
    }
}
