// Refusals, in words: every number of their tables, what is refused, and where.
// Rests on `telling`, which has the template of them all and fills the words in.
use crate::rows::Row;
use crate::status::{Status, Told};
use crate::telling::{Teller, To};

// What is refused, with the numbers told of it. A number here is a record's, a message's, a frame's or a line's own.
#[derive(Clone, Copy)]
pub enum What {
    Alone,
    ToBeMade,
    GoldenFile,
    Record { number: u64 },
    // and the bytes of the stream so far
    Message { number: u64, bytes: u64 },
    Frame { number: u64, place: u64 },
    // of a search the file, or the record that was opened last, and how many were opened
    SearchedFile { opened: u64 },
    SearchedRecord { number: u64, opened: u64 },
    // a line of the send side
    Event { number: u64, commid: u64 },
}

// What a message is part of, and where that has the message's first byte.
#[derive(Clone, Copy)]
pub enum Whole {
    Nothing,
    // something, of which this one is not
    Other,
    File { from: u64 },
    Stream { from: u64 },
    // a record whose number is not told
    Record,
}

// What a refusal is of. Either may be lent as an Option, and be none.
#[derive(Clone, Copy)]
pub struct Subject<W = What, H = Whole> {
    pub what: W,
    pub whole: H,
}

impl<W> Subject<W> {
    // A message by itself, or one that something was to be made of.
    pub fn by_itself(what: W) -> Subject<W> {
        Subject {
            what,
            whole: Whole::Nothing,
        }
    }
}

// By which the template's choices go, and the numbers that stand in them.
#[derive(Clone, Copy)]
struct Choice {
    choice: u64,
    number: u64,
    further: u64,
}

impl From<What> for Choice {
    fn from(what: What) -> Choice {
        match what {
            What::Alone => Choice::new(0, 0, 0),
            What::ToBeMade => Choice::new(1, 0, 0),
            What::GoldenFile => Choice::new(2, 0, 0),
            What::Record { number } => Choice::new(3, number, 0),
            What::Message { number, bytes } => Choice::new(4, number, bytes),
            What::Frame { number, place } => Choice::new(5, number, place),
            What::SearchedFile { opened } => Choice::new(6, 0, opened),
            What::SearchedRecord { number, opened } => Choice::new(7, number, opened),
            What::Event { number, commid } => Choice::new(8, number, commid),
        }
    }
}

impl From<Whole> for Choice {
    fn from(whole: Whole) -> Choice {
        match whole {
            Whole::Nothing => Choice::new(0, 0, 0),
            Whole::Other => Choice::new(1, 0, 0),
            Whole::File { from } => Choice::new(2, from, 0),
            Whole::Stream { from } => Choice::new(3, from, 0),
            Whole::Record => Choice::new(4, 0, 0),
        }
    }
}

impl Choice {
    // Where no kind is named nothing is shown of it: no template has so many choices.
    fn of<K>(kind: Option<K>) -> Choice
    where
        Choice: From<K>,
    {
        kind.map_or(Choice::new(u64::MAX, 0, 0), Choice::from)
    }

    fn new(choice: u64, number: u64, further: u64) -> Choice {
        Choice {
            choice,
            number,
            further,
        }
    }
}

// The last of the rules of reading, which alone tell a place.
const LAST_RULE: u8 = 7;

const REFUSALS: &[u8] = b"1\tfewer than 21 bytes
2\tthe header version is not 4
3\tan unassigned flag is set, or the integrity kind is 3, which is unassigned
4\tthe variable header size is 1 to 5, or above 132
5\tthe sizes stated in the header do not add up to the length of the message
6\tsource and destination do not fill the variable header, or one is over 64 bytes with its zero
7\tthe integrity field is not the CRC, or is not zero where the kind is none
21\tnot a golden file: its length is not a multiple of 512, or is above 65536
22\tthe file has no such record
23\tthe stored length is below 21 or above 510
24\ta byte after the message is not zero
25\tthe record's message is refused by reading
26\tan earlier live record has the type and number of this one
27\tevery record is good and no live one has that type and number
31\tthe radio's message is refused by reading
33\tthe message is over 510 bytes, the most that a record holds
34\tthe message for the record is refused by reading
35\tthe room for the record is not 512 bytes
36\tthe record is retired already
37\tthe room for the copy is not as long as the file
38\tthe record is retired
51\tthe announced length is over 510 bytes
52\tthe end came inside a message
61\tfewer than 13 bytes, the least that a frame has
62\tthe first byte is not STX
63\tthe protocol version or the message version is not 2
64\tthe type is neither 1, a data message, nor 2, an acknowledgment
65\tthe data length does not put ETX last, or is not 4 in an acknowledgment
66\tthe last byte is not ETX
67\tthe message is refused by reading
68\tthe buffer is shorter than the frame
69\tthe message is longer than a data length can state, which cannot occur
70\t16 messages wait already
71\tthe COMMID waits or is in flight
72\tthe COMMID is not the one in flight
73\tmore than 10 resends
";

impl<R: Print + Eprint> Teller<'_, R> {
    // A refusal by its number, that of reading, or 0, and the place in the message.
    pub fn refuse(
        &self,
        of: Subject<impl Into<Option<What>>, impl Into<Option<Whole>>>,
        refusal: u8,
        reading: u8,
        place: usize,
    ) -> Told {
        let rule = rule_of(refusal, reading);
        let of_what = of.what.into();
        let what = Choice::of(of_what);
        let whole = Choice::of(whole_of(rule, of.whole.into()));
        let place = place as u64;
        let in_whole = whole.number.wrapping_add(place);
        let (choice, number, further) = (what.choice, what.number, what.further);
        self.tell_to(
            stream_for(of_what),
            Some(Row::Refused),
            &[
                choice,
                number,
                number,
                further,
                number,
                further,
                further,
                number,
                further,
                u64::from(refusal),
                u64::from(reading),
                u64::from(rule.is_some()),
                place,
                whole.choice,
                in_whole,
                in_whole,
                u64::from(rule.unwrap_or(0)),
                choice,
                further,
                further,
                number,
                further,
            ],
            REFUSALS,
        )?;
        Ok(Status::Refused)
    }

    // All of them, a line each.
    pub(crate) fn list_refusals(&self) -> Told {
        self.tell(Status::Done, Row::AllRefusals, &[0, u64::MAX], REFUSALS)
    }
}

// Where something was to be made, standard output is for its bytes.
fn stream_for(what: Option<What>) -> To {
    match what {
        Some(What::ToBeMade) => To::Errors,
        _ => To::Output,
    }
}

// The rule of reading that is broken, be it passed on: none where reading had no part.
fn rule_of(refusal: u8, reading: u8) -> Option<u8> {
    let rule = if refusal <= LAST_RULE {
        refusal
    } else {
        reading
    };
    (rule != 0).then_some(rule)
}

// Without a place in the message there is none in what it is part of.
fn whole_of(rule: Option<u8>, whole: Option<Whole>) -> Option<Whole> {
    match whole {
        Some(Whole::Nothing) => whole,
        _ if rule.is_none() => Some(Whole::Other),
        _ => whole,
    }
}
