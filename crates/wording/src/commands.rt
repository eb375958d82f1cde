// A command with its numbers, out of the words that the tool is called with, before any file is opened.
// Rests on `console` for tables and numbers, and on `arguments`. A verb goes by the table here; a row goes by one that is lent.
ghost use Rattle.wording.specs.Verbs.{VerbOfRow};

use crate::arguments::{BLANK, Given, WORD, word_at};
use crate::rows::{NoRow, Row};
use crate::status::{Complained, Told};
use crate::telling::complain;
use console::decimal::decimal_of;
use console::files::is_standard_input;
use console::nearest::nearest;
use console::table::{piece, pieces, row, row_named};
use std::env::Env;

pub const TAB: u8 = b'\t';

// What a command does: the rows of the table of commands, in their order.
#[derive(Clone, Copy, PartialEq, Eq)]
pub enum Verb {
    List,
    Check,
    Find,
    Compare,
    Read,
    Judge,
    Late,
    Sum,
    Make,
    Retire,
    Unwrap,
    Wrap,
    Acknowledge,
    Watch,
    Send,
    Help,
}

impl TryFrom<usize> for Verb {
    type Error = NoRow;

    ghost try_from_gives = { VerbOfRow };

    fn try_from(row: usize) -> Result<Verb, NoRow> {
        match row {
            0 => Ok(Verb::List),
            1 => Ok(Verb::Check),
            2 => Ok(Verb::Find),
            3 => Ok(Verb::Compare),
            4 => Ok(Verb::Read),
            5 => Ok(Verb::Judge),
            6 => Ok(Verb::Late),
            7 => Ok(Verb::Sum),
            8 => Ok(Verb::Make),
            9 => Ok(Verb::Retire),
            10 => Ok(Verb::Unwrap),
            11 => Ok(Verb::Wrap),
            12 => Ok(Verb::Acknowledge),
            13 => Ok(Verb::Watch),
            14 => Ok(Verb::Send),
            15 => Ok(Verb::Help),
            _ => Err(NoRow),
        }
    }
}

// One row for each verb: its form, what it does, and what it tells plainly.
pub const COMMANDS: &[u8] =
    b"list GOLDEN\tevery record: its type, number and length and whether it is retired, or its refusal\tgood RECORD TYPE NUMBER LENGTH, and the word retired behind these where it is, or refused RECORD REFUSAL READING PLACE FILE-PLACE
check GOLDEN\tthe count of records, which are retired and whether they stand in ascending order of type, then number, or the first that is bad or is live and has the type and number of an earlier live one\tgood COUNT RETIRED, which is how many are retired, and then the number of each, with a second line, ascending or breaks RECORD; or else refused RECORD REFUSAL READING PLACE FILE-PLACE, and with 26 the EARLIER record behind these
find GOLDEN TYPE NUMBER\tthe first live record of that type and number, and how many were opened; with --halving the record that at most eight openings lead to\tfound RECORD OPENED, or refused RECORD OPENED REFUSAL READING PLACE FILE-PLACE, and with 27, but not by halving, retired RECORD where a retired one has them; by halving RECORD and FILE-PLACE of a refusal are -
compare GOLDEN RECORD RADIO\ta record beside the radio's message: same, or where the two differ\tsame LENGTH, or different TOTAL and then place PLACE GOLDEN RADIO FIELD for each place below 512, or refused REFUSAL READING PLACE FILE-PLACE
read MESSAGE\tevery field of a message, or its refusal, and its bytes with the place in brackets\taccepted LENGTH TYPE VERSION FLAGS DATA-LENGTH NUMBER TIME VARIABLE-SIZE TTL QOS SOURCE DESTINATION BODY-PLACE INTEGRITY KIND, or refused REFUSAL READING PLACE
judge MESSAGE\tevery rule of reading by itself: kept, broken or not judged, with the numbers found; then what read says\trule RULE VERDICT PLACE for each rule, kept, broken or unjudged, and then accepted LENGTH, or refused REFUSAL READING PLACE
late MESSAGE ENTRY CLOCK\twhether a message that entered the messaging infrastructure at second ENTRY is late at second CLOCK, and by how much\tin-time SECONDS, late SECONDS, no-clock REASON, which is absent without a variable header and zero with a time to live of 0, or refused REFUSAL READING PLACE
sum FILE\tthe CRC of all bytes of a file\tsum CRC LENGTH
make MESSAGE\tthe record of 512 bytes that holds a message, to standard output\tthe record, or on standard error refused REFUSAL READING PLACE
retire GOLDEN RECORD\ta copy of a golden file in which that record is retired, to standard output\tthe copy, or on standard error refused REFUSAL READING PLACE FILE-PLACE
unwrap FRAME\ta frame: what it is, its COMMIDs, and its message as read tells it; of a capture, which is frames end to end, a line for each, up to the first refused\tdata FRAME PLACE COMMID TYPE NUMBER LENGTH, acknowledgment FRAME PLACE COMMID ACKNOWLEDGED, or refused FRAME PLACE REFUSAL READING MESSAGE-PLACE FILE-PLACE
wrap COMMID MESSAGE\tthe data message, with that COMMID, that carries a message, to standard output\tthe frame, or on standard error refused REFUSAL READING PLACE
acknowledge COMMID ACKNOWLEDGED\tthe acknowledgment, with a COMMID of its own, of the COMMID ACKNOWLEDGED, to standard output\tthe frame
watch [GOLDEN]\tevery message of standard input the moment its last byte is in, and the record of its type and number: same, in how many places the two differ, or that it is retired\tmessage MESSAGE TYPE NUMBER LENGTH DISTANCE RECORD DIFFERING, and the word retired behind these where the record is, or refused MESSAGE BYTES REFUSAL READING PLACE STREAM-PLACE; of a GOLDEN that check refuses what check tells
send RESENDS\twhat becomes of each message sent, with so many resends each, 0 to 10: each line of standard input is submit, ack, nak or timeout, one blank and a COMMID, and is answered at once; at the end of the input what became of each submission\tsent COMMID, waits COMMID, resent COMMID, acknowledged COMMID NEXT and failed COMMID NEXT, where NEXT is the COMMID then sent, or -; refused REFUSAL READING PLACE LINE COMMID, or unknown LINE; at the end submission SUBMISSION COMMID FATE TIMES for each of the first 65536, where FATE is waiting, in-flight, acknowledged or failed, and TIMES how often it was sent, and total SUBMISSIONS WAITING IN-FLIGHT ACKNOWLEDGED FAILED
help [COMMAND]\tthis, or what a command does\tthe form of each command
";

// A word of a form that this table has is a number, with its largest; any other names a file.
const NUMBERS: &[u8] = b"TYPE 65535
NUMBER 4294967295
RECORD 4294967295
COMMID 4294967295
ACKNOWLEDGED 4294967295
ENTRY 18446744073709551615
CLOCK 18446744073709551615
RESENDS 18446744073709551615
";

// The places of the arguments that name files: of the first of them, and of the last.
#[derive(Clone, Copy)]
pub struct Named {
    pub first: usize,
    pub last: usize,
}

// The numbers of a command: the first of them, and the last.
#[derive(Clone, Copy)]
pub struct Numbers {
    pub first: u64,
    pub last: u64,
}

// A command, with the numbers and the files where it takes any.
#[derive(Clone, Copy)]
pub struct Command<V = Verb> {
    pub verb: V,
    pub halving: bool,
    pub numbers: Option<Numbers>,
    pub files: Option<Named>,
}

// The arguments of a command, so far.
#[derive(Clone, Copy)]
struct Taken {
    numbers: Option<Numbers>,
    files: Option<Named>,
    inputs: usize,
}

impl Verb {
    // By its name, or the complaint that there is none.
    pub fn named(rt: &(impl Env + Print + Eprint), argument: usize) -> Told<Verb> {
        let row = row_of(rt, COMMANDS, argument)?;
        // each row of this table has its verb: this is never told
        Verb::try_from(row).map_err(|_| complain(rt, Row::NoCommand, b"", b""))
    }
}

// The row of a command's name in a table, which is lent since it may be another one; or the complaint that there is none.
pub fn row_of(rt: &(impl Env + Print + Eprint), commands: &[u8], argument: usize) -> Told<usize> {
    let mut room = [0u8; WORD];
    let word = word_at(rt, argument, &mut room);
    row_named(commands, BLANK, word).ok_or_else(|| {
        let near = piece(nearest_row(commands, word), BLANK, 0);
        complain(rt, Row::UnknownCommand, word, near)
    })
}

pub fn unknown_option(
    rt: &(impl Env + Print + Eprint),
    options: &[u8],
    argument: usize,
) -> Complained {
    let mut room = [0u8; WORD];
    let word = word_at(rt, argument, &mut room);
    complain(rt, Row::UnknownOption, word, nearest_row(options, word))
}

fn nearest_row<'a>(table: &'a [u8], word: &[u8]) -> &'a [u8] {
    nearest(table, BLANK, word).map_or(&[], |k| row(table, k))
}

// The command of a form, where there are as many words as in it, each of its kind. The form may be that of no verb here.
pub fn command_of<V: Copy + Into<Option<Verb>>>(
    rt: &(impl Env + Print + Eprint),
    form: &[u8],
    verb: V,
    given: &Given,
) -> Told<Command<V>> {
    match misfit(form, verb.into(), given) {
        Some(row) => Err(complain(rt, row, form, form)),
        None => with_arguments(rt, form, verb, given),
    }
}

// What is wrong with the words of a command, before any of them is read.
fn misfit(form: &[u8], verb: Option<Verb>, given: &Given) -> Option<Row> {
    let most = pieces(form, BLANK);
    let least = most.saturating_sub(usize::from(form.ends_with(b"]")));
    if most < given.count {
        return Some(Row::TooManyWords);
    }
    if given.count < least {
        return Some(Row::TooFewWords);
    }
    if given.quiet && verb != Some(Verb::Check) && verb != Some(Verb::Compare) {
        return Some(Row::NotQuiet);
    }
    if given.halving && verb != Some(Verb::Find) {
        return Some(Row::NotHalving);
    }
    None
}

fn with_arguments<V: Copy + Into<Option<Verb>>>(
    rt: &(impl Env + Print + Eprint),
    form: &[u8],
    verb: V,
    given: &Given,
) -> Told<Command<V>> {
    let taken = take_all(rt, form, verb.into(), given.names())?;
    if 1 < taken.inputs {
        return Err(complain(rt, Row::OneInput, form, form));
    }
    Ok(Command {
        verb,
        halving: given.halving,
        numbers: taken.numbers,
        files: taken.files,
    })
}

// Behind the command's own name stand its arguments. Watch reads standard input, whatever it names.
fn take_all(
    rt: &(impl Env + Print + Eprint),
    form: &[u8],
    verb: Option<Verb>,
    names: &[usize],
) -> Told<Taken> {
    let mut taken = Taken {
        numbers: None,
        files: None,
        inputs: usize::from(verb == Some(Verb::Watch)),
    };
    for (k, argument) in names.iter().enumerate().skip(1) {
        taken.take(rt, piece(form, BLANK, k), *argument)?;
    }
    Ok(taken)
}

impl Taken {
    fn take(&mut self, rt: &(impl Env + Print + Eprint), name: &[u8], argument: usize) -> Told<()> {
        let mut room = [0u8; WORD];
        let word = word_at(rt, argument, &mut room);
        let Some(k) = row_named(NUMBERS, BLANK, name) else {
            self.take_file(argument, is_standard_input(word));
            return Ok(());
        };
        let largest = piece(row(NUMBERS, k), BLANK, 1);
        match decimal_of(word, decimal_of(largest, u64::MAX).unwrap_or(0)) {
            Some(n) => self.take_number(n),
            None => return Err(complain(rt, Row::NotANumber, name, largest)),
        }
        Ok(())
    }

    fn take_number(&mut self, n: u64) {
        self.numbers = Some(Numbers {
            first: self.numbers.map_or(n, |numbers| numbers.first),
            last: n,
        });
    }

    fn take_file(&mut self, argument: usize, is_input: bool) {
        self.files = Some(Named {
            first: self.files.map_or(argument, |files| files.first),
            last: argument,
        });
        self.inputs = self.inputs.wrapping_add(usize::from(is_input));
    }
}
