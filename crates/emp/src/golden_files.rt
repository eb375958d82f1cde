// List, check and find: what a golden file holds.
// Rests on `golden`, which judges, finds and counts, and knows where a record has its message. Which retired record has a name is told by its entries.
use crate::refusing::refuse;
use envelope::Numbers;
use golden::{
    Found, Name, Refusal, RefusedAfter, RefusedAt, ascending, check, count, count_retired,
    entry_at, find, find_by_halving, stored_message,
};
use wording::refusals::{Subject, What, Whole};
use wording::{Row, Status, Teller, Told};

// A golden file, and who tells of it.
#[derive(Drop)]
pub struct GoldenFile<'a, R> {
    pub teller: &'a Teller<'a, R>,
    pub file: &'a [u8],
}

impl<R: Print + Eprint> GoldenFile<'_, R> {
    // Every record, a line each, good or bad.
    pub fn list(&self) -> Told {
        match count(self.file) {
            Ok(count) => {
                self.tell(Status::Done, Row::Counted, &[count as u64])?;
                self.list_records(count)
            }
            Err(refusal) => self.refuse_record(0, refusal),
        }
    }

    fn list_records(&self, records: usize) -> Told {
        let mut status = Status::Done;
        for n in 0..records {
            if self.list_record(n)? == Status::Refused {
                status = Status::Refused;
            }
        }
        Ok(status)
    }

    fn list_record(&self, n: usize) -> Told {
        match entry_at(self.file, n) {
            Ok(entry) => self.tell(
                Status::Done,
                Row::Listed,
                &[
                    n as u64,
                    u64::from(entry.name.message_type),
                    u64::from(entry.name.number),
                    entry.size as u64,
                    u64::from(entry.retired),
                ],
            ),
            Err(refusal) => self.refuse_record(n, refusal),
        }
    }

    pub fn check(&self) -> Told {
        match check(self.file) {
            Ok(count) => self.tell_checked(count),
            Err(refused) => self.refuse_checked(refused),
        }
    }

    // The count, how many are retired, and each of those: no sum guards the mark.
    fn tell_checked(&self, records: usize) -> Told {
        let retired = count_retired(self.file).unwrap_or(0);
        let numbers = [records as u64, retired as u64];
        self.tell(Status::Done, Row::Checked, &numbers)?;
        self.tell_retired(records)?;
        self.tell_order()
    }

    fn tell_retired(&self, records: usize) -> Told {
        for n in 0..records {
            if entry_at(self.file, n).is_ok_and(|entry| entry.retired) {
                self.tell(Status::Done, Row::OneRetired, &[n as u64])?;
            }
        }
        self.tell(Status::Done, Row::LineEnd, &[])
    }

    // The records are good, so they stand in order or break it.
    fn tell_order(&self) -> Told {
        match ascending(self.file) {
            Ok(breaks) => {
                let numbers = [u64::from(breaks.is_some()), breaks.unwrap_or(0) as u64];
                self.tell(Status::Done, Row::Order, &numbers)
            }
            Err(_) => Ok(Status::Done),
        }
    }

    // Of a name that is taken, with the record's name, by which find gives the earlier one: golden/Theorems `RefusesTheLater`, `EarlierIsFound`.
    fn refuse_checked(&self, refused: RefusedAt) -> Told {
        let RefusedAt { record, refusal } = refused;
        if let Refusal::NameTaken = refusal
            && let Ok(entry) = entry_at(self.file, record)
            && let Ok(earlier) = find(self.file, entry.name)
        {
            return self.tell_taken(refused, entry.name, earlier.record);
        }
        self.refuse_record(record, refusal)
    }

    fn tell_taken(&self, refused: RefusedAt, name: Name, earlier: usize) -> Told {
        let number = Numbers::from(refused.refusal).number;
        self.tell(
            Status::Refused,
            Row::Taken,
            &[
                refused.record as u64,
                u64::from(number),
                u64::from(name.message_type),
                u64::from(name.number),
                earlier as u64,
            ],
        )
    }

    pub fn find_by_halving(&self, name: Name) -> Told {
        match find_by_halving(self.file, name) {
            Ok(found) => self.tell_found(found),
            Err(refused) => self.refuse_halving(refused),
        }
    }

    fn tell_found(&self, found: Found) -> Told {
        let numbers = [found.record as u64, found.opened as u64];
        self.tell(Status::Done, Row::Found, &numbers)
    }

    // 27 says nothing about the records that were not opened. A bad record has no number in this answer: one of those opened is bad.
    fn refuse_halving(&self, refused: RefusedAfter) -> Told {
        let opened = refused.opened as u64;
        match refused.refusal {
            Refusal::NotFound => {
                let number = u64::from(Numbers::from(refused.refusal).number);
                let numbers = [number, opened, opened, number];
                self.tell(Status::Refused, Row::Missed, &numbers)
            }
            refusal => {
                let what = What::SearchedFile { opened };
                let whole = Whole::Record;
                refuse(self.teller, Subject { what, whole }, refusal)
            }
        }
    }

    pub fn find(&self, name: Name) -> Told {
        match find(self.file, name) {
            Ok(found) => self.tell_found(found),
            Err(refused) => {
                self.refuse_searched(refused)?;
                self.tell_named_retired(name, refused.refusal)
            }
        }
    }

    // A bad record is the last of those opened.
    fn refuse_searched(&self, refused: RefusedAfter) -> Told {
        let record = refused.opened.saturating_sub(1);
        let opened = refused.opened as u64;
        let what = if is_of_one(refused.refusal) {
            What::SearchedRecord {
                number: record as u64,
                opened,
            }
        } else {
            What::SearchedFile { opened }
        };
        self.refuse_in(record, what, refused.refusal)
    }

    // With 27 the first record of that name that is retired, if there is one.
    fn tell_named_retired(&self, name: Name, refusal: Refusal) -> Told {
        if let Refusal::NotFound = refusal
            && let Some(record) = retired_named(self.file, name)
        {
            return self.tell(Status::Refused, Row::NamedRetired, &[record as u64]);
        }
        Ok(Status::Refused)
    }

    fn refuse_record(&self, record: usize, refusal: Refusal) -> Told {
        let what = if is_of_one(refusal) {
            What::Record {
                number: record as u64,
            }
        } else {
            What::GoldenFile
        };
        self.refuse_in(record, what, refusal)
    }

    // The record's message begins there at a place.
    fn refuse_in(&self, record: usize, what: What, refusal: Refusal) -> Told {
        let whole = Whole::File {
            from: stored_message(self.file, record).place as u64,
        };
        refuse(self.teller, Subject { what, whole }, refusal)
    }

    fn tell(&self, status: Status, row: Row, numbers: &[u64]) -> Told {
        self.teller.tell(status, row, numbers, self.file)
    }
}

// The first record that is retired and has the name.
pub fn retired_named(file: &[u8], name: Name) -> Option<usize> {
    let records = count(file).ok()?;
    (0..records).find(|n| entry_at(file, *n).is_ok_and(|entry| entry.retired && entry.name == name))
}

// Whether the refusal is a record's own or the whole file's.
fn is_of_one(refusal: Refusal) -> bool {
    matches!(
        refusal,
        Refusal::BadLength | Refusal::NotClear | Refusal::RecordRefused(_) | Refusal::NameTaken
    )
}
