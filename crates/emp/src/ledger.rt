// The ledger of a run of the send side: each accepted submission in its order, and what has become of it.
// Rests on the order that `sender` keeps: submissions go out and end in the order in which they were accepted.

// The most submissions that it holds; of those behind them it tells nothing.
pub const ROOM: usize = 65_536;

// What became of a submission, and how often it was sent.
#[derive(Clone, Copy)]
pub enum Fate {
    Waiting,
    InFlight { times: u8 },
    Acknowledged { times: u8 },
    Failed { times: u8 },
}

#[derive(Clone, Copy)]
pub struct Entry {
    pub commid: u32,
    pub fate: Fate,
}

// Fixed memory: beside the entries stands how many submissions were accepted, be there more than the entries.
#[derive(Drop)]
pub struct Ledger {
    entries: [Entry; ROOM],
    pub accepted: usize,
    // those that have ended, and those of them that were acknowledged
    pub ended: usize,
    pub acknowledged: usize,
}

impl Ledger {
    pub fn new() -> Ledger {
        Ledger {
            entries: [Entry {
                commid: 0,
                fate: Fate::Waiting,
            }; ROOM],
            accepted: 0,
            ended: 0,
            acknowledged: 0,
        }
    }

    // A submission is accepted, and waits.
    pub fn enter(&mut self, commid: u32) {
        if let Some(entry) = self.entries.get_mut(self.accepted) {
            *entry = Entry {
                commid,
                fate: Fate::Waiting,
            };
        }
        self.accepted = self.accepted.wrapping_add(1);
    }

    // The next one goes out, or the one in flight once more.
    pub fn send(&mut self) {
        if let Some(entry) = self.entries.get_mut(self.ended) {
            entry.fate = Fate::InFlight {
                times: entry.fate.times().wrapping_add(1),
            };
        }
    }

    // The one in flight is acknowledged.
    pub fn acknowledge(&mut self) {
        if let Some(entry) = self.entries.get_mut(self.ended) {
            entry.fate = Fate::Acknowledged {
                times: entry.fate.times(),
            };
        }
        self.ended = self.ended.wrapping_add(1);
        self.acknowledged = self.acknowledged.wrapping_add(1);
    }

    // The one in flight has failed.
    pub fn fail(&mut self) {
        if let Some(entry) = self.entries.get_mut(self.ended) {
            entry.fate = Fate::Failed {
                times: entry.fate.times(),
            };
        }
        self.ended = self.ended.wrapping_add(1);
    }

    // The submissions that it holds.
    pub fn entries(&self) -> &[Entry] {
        &self.entries[..self.accepted.min(ROOM)]
    }
}

impl Fate {
    pub fn times(self) -> u8 {
        match self {
            Fate::Waiting => 0,
            Fate::InFlight { times } | Fate::Acknowledged { times } | Fate::Failed { times } => {
                times
            }
        }
    }
}
