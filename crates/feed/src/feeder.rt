// A feed as one value, by value in and out: its own bytes, over the functions on a feed that is lent in parts.
// Any value of these fields is a feed; one that no run of calls leads to has an answer too.
ghost use Rattle.feed.specs.Told.{Fresh, Takes, Ends};

use crate::advancer::advance;
use crate::closer::close;
use crate::refusal::Refusal;
use crate::step::{Beside, Message, Standing};

// The bytes and their count stand apart: C lends the bytes alone, and `Takes` fixes those past the count too.
#[derive(Clone, Copy)]
pub struct Feed {
    pub kept: [u8; Feed::ROOM],
    pub beside: Beside,
}

#[derive(Clone, Copy)]
pub struct Taken {
    pub feed: Feed,
    pub used: usize,
    pub found: Result<Option<Message>, Refusal>,
}

#[derive(Clone, Copy)]
pub struct Ended {
    pub feed: Feed,
    pub found: Result<Option<Message>, Refusal>,
}

impl Feed {
    // The longest message that a feed takes.
    pub const ROOM: usize = 510;

    pub fn new() -> Feed
        ensures { Fresh result }
    {
        Feed {
            kept: [0u8; Feed::ROOM],
            beside: Beside {
                count: 0,
                standing: Standing::Inside,
            },
        }
    }

    // Uses bytes of the piece until something is found. What is left of it goes into the next call.
    // By value, for README and docs/ACCEPTANCE.md name it with its promise, `Takes self piece result`; `advance` is the form in place.
    pub fn take(mut self, piece: &[u8]) -> Taken
        ensures { Takes self piece.now result }
    {
        let step = advance(&mut self.kept, self.beside, piece);
        self.beside = step.beside;
        Taken {
            feed: self,
            used: step.used,
            found: step.found,
        }
    }

    // The end of the bytes: no refusal between messages.
    pub fn end(mut self) -> Ended
        ensures { Ends self result }
    {
        let step = close(self.beside);
        self.beside = step.beside;
        Ended {
            feed: self,
            found: step.found,
        }
    }

    // A feed as `new` makes it, whatever this one was.
    pub fn restart(self) -> Feed
        ensures { Fresh result }
    {
        Feed::new()
    }
}
