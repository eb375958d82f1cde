// The send side of the bench: what waits, what is in flight, and what each event answers.
// The places of those that wait are lent; what stands beside them is the Bench. Any content of the two is the state of some queue.
ghost use Rattle.std.specs.Prelude.{◌≡◌, ◌<◌, ◌≤◌, take};
ghost use Rattle.sender.specs.Helpers.{Accepts, FindsFlight, Frees};
ghost use Rattle.sender.specs.Queue.{most_waiting, among, known, submit, ack, nak, time_out};
ghost use Rattle.sender.specs.Told.{told_flight, Starts, Answers, CountsWaiting};

use crate::places::{in_places, store, store_with};
use crate::refusal::Refusal;

// What is in flight, and how many resends it has left.
#[derive(Clone, Copy)]
pub struct Flight {
    pub commid: u32,
    pub left: u8,
}

// What stands beside the places. Those that wait are in the first `count` of them, oldest first; at most one is in flight.
// It has no invariant and does not hold the places: C lends the two apart, and `AnswersForC` answers for any numbers in them.
#[derive(Clone, Copy)]
pub struct Bench {
    pub resends: u8,
    pub flight: Option<Flight>,
    pub count: usize,
}

// `Settled` and `Failed` have the COMMID that goes out because the slot fell free, where one waits.
#[derive(Clone, Copy)]
pub enum Answer {
    // to a submission
    Sent,
    Waits,
    // to an ACK
    Settled(Option<u32>),
    // to a NAK or a time-out
    Again,
    Failed(Option<u32>),
}

impl Bench {
    // How many messages may wait.
    pub const PLACES: usize = 16;

    // The largest number of resends that may be set.
    pub const MOST_RESENDS: u64 = 10;

    // An empty bench. The places may hold anything, for none of them counts yet.
    pub fn new(resends: u64) -> Result<Bench, Refusal>
        ensures { Starts resends result }
    {
        if Bench::MOST_RESENDS < resends {
            return Err(Refusal::TooManyResends);
        }
        Ok(Bench {
            resends: resends as u8,
            flight: None,
            count: 0,
        })
    }

    // A message is handed in: it goes out if nothing is in flight, else it waits.
    #[tactic(auto, unfolding(crate::specs::Queue::submitting))]
    pub fn submit(
        &mut self,
        waiting: &mut [u32; Bench::PLACES],
        commid: u32,
    ) -> Result<Answer, Refusal>
        ensures { Answers (submit commid) self.old waiting.old result self.new waiting.new }
    {
        if Bench::PLACES <= self.count {
            return Err(Refusal::Full);
        }
        if self.knows(waiting, commid) {
            return Err(Refusal::Known);
        }
        Ok(self.accept(waiting, commid))
    }

    // The one in flight is acknowledged.
    #[tactic(auto, unfolding(crate::specs::Queue::acking))]
    pub fn ack(
        &mut self,
        waiting: &mut [u32; Bench::PLACES],
        commid: u32,
    ) -> Result<Answer, Refusal>
        ensures { Answers (ack commid) self.old waiting.old result self.new waiting.new }
    {
        self.in_flight(commid).ok_or(Refusal::NotInFlight)?;
        Ok(Answer::Settled(self.release(waiting)))
    }

    // The one in flight goes again while it has a resend left, and then it fails.
    #[tactic(auto, unfolding(crate::specs::Queue::naking))]
    pub fn nak(
        &mut self,
        waiting: &mut [u32; Bench::PLACES],
        commid: u32,
    ) -> Result<Answer, Refusal>
        ensures { Answers (nak commid) self.old waiting.old result self.new waiting.new }
    {
        let flight = self.in_flight(commid).ok_or(Refusal::NotInFlight)?;
        if flight.left == 0 {
            return Ok(Answer::Failed(self.release(waiting)));
        }
        self.flight = Some(Flight {
            commid,
            left: flight.left - 1,
        });
        self.count = in_places(self.count);
        *waiting = store(&waiting[..self.count]);
        Ok(Answer::Again)
    }

    // The bench treats a time-out as a NAK.
    pub fn time_out(
        &mut self,
        waiting: &mut [u32; Bench::PLACES],
        commid: u32,
    ) -> Result<Answer, Refusal>
        ensures { Answers (time_out commid) self.old waiting.old result self.new waiting.new }
    {
        self.nak(waiting, commid)
    }

    // How many wait: the first so many of the places, oldest first. The one in flight is `flight`.
    pub fn waiting(self, waiting: &[u32; Bench::PLACES]) -> usize
        ensures { CountsWaiting self waiting.now result }
    {
        // by a length, so that the answer is one for any places
        waiting[..in_places(self.count)].len()
    }

    // The one in flight, where this is its COMMID.
    fn in_flight(&self, commid: u32) -> Option<Flight>
        ensures { FindsFlight commid self.now result }
    {
        self.flight.filter(|flight| flight.commid == commid)
    }

    // Whether this COMMID is in flight or waits.
    fn knows(&self, waiting: &[u32; Bench::PLACES], commid: u32) -> bool
        requires { self.now.count ≤ most_waiting }
        ensures { result ≡ among commid (known (told_flight self.now.flight) (take self.now.count waiting.now)) }
    {
        self.in_flight(commid).is_some() || waiting[..self.count].contains(&commid)
    }

    // A submission that nothing stands against.
    fn accept(&mut self, waiting: &mut [u32; Bench::PLACES], commid: u32) -> Answer
        requires { self.old.count < most_waiting }
        ensures { Accepts self.old commid waiting.old result self.new waiting.new }
    {
        if self.flight.is_some() {
            *waiting = store_with(&waiting[..self.count], commid);
            self.count += 1;
            return Answer::Waits;
        }
        *waiting = store(&waiting[..self.count]);
        self.flight = Some(Flight {
            commid,
            left: self.resends,
        });
        Answer::Sent
    }

    // The slot falls free: the oldest that waits goes out.
    fn release(&mut self, waiting: &mut [u32; Bench::PLACES]) -> Option<u32>
        ensures { Frees self.old waiting.old result self.new waiting.new }
    {
        let count = in_places(self.count);
        if count == 0 {
            *waiting = [0; Bench::PLACES];
            self.flight = None;
            self.count = 0;
            return None;
        }
        let oldest = waiting[0];
        *waiting = store(&waiting[1..count]);
        self.flight = Some(Flight {
            commid: oldest,
            left: self.resends,
        });
        self.count = count - 1;
        Some(oldest)
    }
}
