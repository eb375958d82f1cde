// The line of a message that has arrived: what it is, how it follows the one before, and the record of its type and number.
// Rests on `envelope` for the sequence and on `golden` for the record; the line is written in one call.
use crate::golden_files::retired_named;
use crate::watching::Watch;
use envelope::Header;
use envelope::sequence::{Sequence, judge};
use golden::{Found, Name, compare, find};
use wording::{Row, Status, Told};

// How a message follows the last one, in the order of the template's choices.
#[derive(Clone, Copy)]
enum Following {
    First,
    Repeat,
    Next,
    Ahead,
    Behind,
}

// How a message and its record go together, in the order of the template's choices.
#[derive(Clone, Copy)]
enum Compared {
    NoFile,
    NoRecord,
    Same,
    Different,
    NotCompared,
    Retired,
}

// What is told of the record: the choice, and the numbers that stand in its words.
#[derive(Clone, Copy)]
struct Recorded {
    compared: Compared,
    record: usize,
    differing: usize,
}

impl Recorded {
    fn new(compared: Compared, record: usize, differing: usize) -> Recorded {
        Recorded {
            compared,
            record,
            differing,
        }
    }
}

impl<R: Print + Eprint> Watch<'_, R> {
    // What went by is still as it was before this message.
    pub(crate) fn tell_message(&self, header: Header) -> Told {
        let message = self.message();
        let (following, steps) = follows(self.last, header.number);
        let recorded = self.recorded(header, message);
        let record = recorded.record as u64;
        self.teller.tell(
            Status::Done,
            Row::Message,
            &[
                self.messages.saturating_add(1),
                u64::from(header.message_type),
                u64::from(header.number),
                message.len() as u64,
                following as u64,
                steps,
                steps,
                recorded.compared as u64,
                record,
                record,
                recorded.differing as u64,
                record,
                record,
            ],
            message,
        )
    }

    // The golden file was checked, so a record is found, or no live one has that type and number; one that is retired may.
    fn recorded(&self, header: Header, message: &[u8]) -> Recorded {
        let Some(golden) = self.golden else {
            return Recorded::new(Compared::NoFile, 0, 0);
        };
        let name = Name {
            message_type: header.message_type,
            number: header.number,
        };
        match find(golden, name) {
            Ok(Found { record, .. }) => compared_with(message, golden, record),
            Err(_) => match retired_named(golden, name) {
                Some(record) => Recorded::new(Compared::Retired, record, 0),
                None => Recorded::new(Compared::NoRecord, 0, 0),
            },
        }
    }
}

// And how many steps ahead or behind.
fn follows(last: Option<u32>, number: u32) -> (Following, u64) {
    match last.map(|last| judge(last, number)) {
        None => (Following::First, 0),
        Some(Sequence::Repeat) => (Following::Repeat, 0),
        Some(Sequence::Next) => (Following::Next, 0),
        Some(Sequence::Ahead(steps)) => (Following::Ahead, u64::from(steps)),
        Some(Sequence::Behind(steps)) => (Following::Behind, u64::from(steps)),
    }
}

// Of the places only their total is told. Other answers are not met: the record is good and live, and the message was read.
fn compared_with(message: &[u8], golden: &[u8], record: usize) -> Recorded {
    let mut places = [0u32; 1];
    match compare(golden, record, message, &mut places) {
        Ok(0) => Recorded::new(Compared::Same, record, 0),
        Ok(total) => Recorded::new(Compared::Different, record, total),
        Err(_) => Recorded::new(Compared::NotCompared, record, 0),
    }
}
