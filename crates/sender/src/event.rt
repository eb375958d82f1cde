// The events that a bench meets, as one type, for whoever has them one after the other.
// Each goes to the function of its name.
ghost use Rattle.std.specs.Prelude.{◌≡◌};
ghost use Rattle.sender.specs.History.{commid_of};
ghost use Rattle.sender.specs.Told.{told_event, Answers};

use crate::bench::{Answer, Bench};
use crate::refusal::Refusal;

// Each with the COMMID that it names.
#[derive(Clone, Copy)]
pub enum Event {
    Submit(u32),
    Ack(u32),
    Nak(u32),
    TimeOut(u32),
}

impl Event {
    pub fn commid(self) -> u32
        ensures { result ≡ commid_of (told_event self) }
    {
        match self {
            Event::Submit(commid)
            | Event::Ack(commid)
            | Event::Nak(commid)
            | Event::TimeOut(commid) => commid,
        }
    }
}

impl Bench {
    // Whatever comes next. Always inlined: a caller may know which event it is.
    #[inline(always)]
    pub fn take(
        &mut self,
        waiting: &mut [u32; Bench::PLACES],
        event: Event,
    ) -> Result<Answer, Refusal>
        ensures { Answers (told_event event) self.old waiting.old result self.new waiting.new }
    {
        match event {
            Event::Submit(commid) => self.submit(waiting, commid),
            Event::Ack(commid) => self.ack(waiting, commid),
            Event::Nak(commid) => self.nak(waiting, commid),
            Event::TimeOut(commid) => self.time_out(waiting, commid),
        }
    }
}
