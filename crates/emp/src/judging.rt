// Judge: every rule of reading by itself, with the numbers that it goes by, and then the first reader's verdict.
// Rests on `judge`, which judges and divides, and on `envelope`, the first reader; nothing is judged here.
use crate::reading::refuse_reading;
use console::table::between;
use envelope::flags::kind;
use envelope::{Envelope, Kind, read};
use judge::{Judging, Verdict, divide, judge};
use wording::sides::byte_at;
use wording::{Row, Status, Teller, Told};

// What became of a rule, in the order of the templates' choices.
#[derive(Clone, Copy, PartialEq)]
enum Outcome {
    Kept,
    Broken,
    NotJudged,
}

// A verdict as it is told: the place stands in the words of a broken rule alone.
#[derive(Clone, Copy)]
struct Ruling {
    outcome: Outcome,
    place: usize,
}

impl From<Verdict> for Ruling {
    fn from(verdict: Verdict) -> Ruling {
        let (outcome, place) = match verdict {
            Verdict::Kept => (Outcome::Kept, 0),
            Verdict::Broken(place) => (Outcome::Broken, place),
            Verdict::NotJudged => (Outcome::NotJudged, 0),
        };
        Ruling { outcome, place }
    }
}

impl Ruling {
    fn choice(self) -> u64 {
        self.outcome as u64
    }

    fn place(self) -> u64 {
        self.place as u64
    }

    // 1 where the rule is not judged: the template's choice of the words behind the verdict.
    fn unjudged(self) -> u64 {
        u64::from(self.outcome == Outcome::NotJudged)
    }
}

// What rule 6 found, in the order of the template's choices.
#[derive(Clone, Copy)]
enum AddressesFound {
    Both,
    SourceAlone,
    Neither,
    TooFewBytes,
    // a V that the rule does not speak of
    OtherSize,
}

// What rule 7 found, in the order of the template's choices.
#[derive(Clone, Copy)]
enum IntegrityFound {
    ByKind,
    ByDivision,
    TooFewBytes,
}

// The sizes that a header states, of which bytes that are not there count as 0.
#[derive(Clone, Copy)]
struct Sizes {
    variable: usize,
    data: usize,
    // where the integrity field begins, and ends
    field: usize,
    end: usize,
}

// A message with every verdict, and who tells of it.
#[derive(Drop)]
struct Judged<'a, R> {
    teller: &'a Teller<'a, R>,
    message: &'a [u8],
    judging: Judging,
    sizes: Sizes,
}

pub fn judge_message(teller: &Teller<'_, impl Print + Eprint>, message: &[u8]) -> Told {
    let judged = Judged {
        teller,
        message,
        judging: judge(message),
        sizes: sizes_in(message),
    };
    judged.tell_rules()?;
    match read(message) {
        Ok(_) => teller.tell(
            Status::Done,
            Row::Accepted,
            &[message.len() as u64],
            message,
        ),
        Err(refusal) => refuse_reading(teller, refusal),
    }
}

impl<R: Print + Eprint> Judged<'_, R> {
    fn tell_rules(&self) -> Told {
        self.tell_least_size()?;
        self.tell_bytes()?;
        self.tell_length()?;
        self.tell_addresses()?;
        self.tell_integrity()
    }

    fn tell_least_size(&self) -> Told {
        let least = Ruling::from(self.judging.least);
        self.tell(
            Row::RuleOfLeastSize,
            &[least.choice(), least.place(), self.message.len() as u64],
        )
    }

    // Rules 2, 3 and 4, each about one byte.
    fn tell_bytes(&self) -> Told {
        let version = Ruling::from(self.judging.version);
        let flags = Ruling::from(self.judging.flags);
        let variable_size = Ruling::from(self.judging.variable_size);
        let length = self.message.len() as u64;
        let held = byte_at(self.message, Envelope::FLAGS_PLACE);
        self.tell(
            Row::RulesOfOneByte,
            &[
                version.choice(),
                version.place(),
                version.unjudged(),
                u64::from(byte_at(self.message, Envelope::VERSION_PLACE)),
                Envelope::VERSION_PLACE as u64 + 1,
                length,
                flags.choice(),
                flags.place(),
                flags.unjudged(),
                u64::from(held),
                kind(held) as u64,
                Envelope::FLAGS_PLACE as u64 + 1,
                length,
                variable_size.choice(),
                variable_size.place(),
                variable_size.unjudged(),
                self.sizes.variable as u64,
                Envelope::HEADER_SIZE as u64,
                length,
            ],
        )
    }

    // Rule 5 goes by the sizes that the header states.
    fn tell_length(&self) -> Told {
        let length = Ruling::from(self.judging.length);
        let has = self.message.len() as u64;
        self.tell(
            Row::RuleOfLength,
            &[
                length.choice(),
                length.place(),
                length.unjudged(),
                self.sizes.variable as u64,
                self.sizes.data as u64,
                self.sizes.end as u64,
                has,
                Envelope::HEADER_SIZE as u64,
                has,
            ],
        )
    }

    // An address is counted with its closing zero.
    fn tell_addresses(&self) -> Told {
        let addresses = Ruling::from(self.judging.addresses);
        let needed = needed_for_addresses(self.sizes.variable);
        let region = between(self.message, Envelope::ADDRESSES_PLACE, needed);
        let source = with_zero(region);
        let rest = between(region, source.unwrap_or(0), region.len());
        let destination = with_zero(rest);
        let left = between(rest, destination.unwrap_or(0), rest.len()).len() as u64;
        let found = match self.judging.addresses {
            Verdict::NotJudged if self.message.len() < needed => AddressesFound::TooFewBytes,
            Verdict::NotJudged => AddressesFound::OtherSize,
            _ => addresses_found(source, destination),
        };
        let source = source.unwrap_or(0) as u64;
        self.tell(
            Row::RuleOfAddresses,
            &[
                addresses.choice(),
                addresses.place(),
                found as u64,
                source,
                destination.unwrap_or(0) as u64,
                left,
                source,
                left,
                left,
                needed as u64,
                self.message.len() as u64,
            ],
        )
    }

    fn tell_integrity(&self) -> Told {
        let integrity = Ruling::from(self.judging.integrity);
        let kind = kind(byte_at(self.message, Envelope::FLAGS_PLACE));
        let place = self.sizes.field;
        let field = between(self.message, place, self.sizes.end);
        // one by one, for a byte that is not there counts as 0
        let held = u64::from(u32::from_be_bytes([
            byte_at(field, 0),
            byte_at(field, 1),
            byte_at(field, 2),
            byte_at(field, 3),
        ]));
        let found = match self.judging.integrity {
            Verdict::NotJudged => IntegrityFound::TooFewBytes,
            _ if kind == Kind::Crc => IntegrityFound::ByDivision,
            _ => IntegrityFound::ByKind,
        };
        self.tell(
            Row::RuleOfIntegrity,
            &[
                u64::from(kind == Kind::Crc),
                integrity.choice(),
                integrity.place(),
                found as u64,
                held,
                kind as u64,
                held,
                u64::from(divide(between(self.message, 0, place))),
                self.sizes.end as u64,
                self.message.len() as u64,
            ],
        )
    }

    fn tell(&self, row: Row, numbers: &[u64]) -> Told {
        self.teller.tell(Status::Done, row, numbers, self.message)
    }
}

// The bytes up to the variable header's end; for a V that is not 6 to 132, those that tell so.
fn needed_for_addresses(v: usize) -> usize {
    match v {
        Envelope::SMALLEST_VARIABLE..=Envelope::LARGEST_VARIABLE => Envelope::HEADER_SIZE + v,
        _ => Envelope::HEADER_SIZE,
    }
}

// Of the bytes that are there.
fn addresses_found(source: Option<usize>, destination: Option<usize>) -> AddressesFound {
    match (source, destination) {
        (Some(_), Some(_)) => AddressesFound::Both,
        (Some(_), None) => AddressesFound::SourceAlone,
        (None, _) => AddressesFound::Neither,
    }
}

fn sizes_in(message: &[u8]) -> Sizes {
    let variable = usize::from(byte_at(message, Envelope::VARIABLE_SIZE_PLACE));
    // one by one, for a byte that is not there counts as 0
    let data = u32::from_be_bytes([
        0,
        byte_at(message, Envelope::DATA_LENGTH_PLACE),
        byte_at(message, Envelope::DATA_LENGTH_PLACE + 1),
        byte_at(message, Envelope::DATA_LENGTH_PLACE + 2),
    ]) as usize;
    let field = Envelope::HEADER_SIZE + variable + data;
    Sizes {
        variable,
        data,
        field,
        end: field + Envelope::FIELD_SIZE,
    }
}

// The size of the first address, with its zero, where one ends in a zero.
fn with_zero(bytes: &[u8]) -> Option<usize> {
    Some(bytes.iter().position(|byte| *byte == 0)? + 1)
}
