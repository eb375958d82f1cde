// The commands about the feed that is worked on: each is one call of the library, or calls until a stream is used up.
// Rests on the crate `exports`.
use crate::byte_words::{Bytes, MOST};
use crate::line::{EIGHT, Line};
use crate::stop::Stop;
use crate::telling::{Accepted, Answer, Lent, Unread};
use crate::world::{Feed, World};
use console::table::between;
use exports::envelopes::FIELDS;
use exports::feeds::{morlewen_feed_end, morlewen_feed_restart, morlewen_feed_take};
use std::io;
use std::io::Write;

// How a feed stands where a message is whole.
const WHOLE: u64 = 255;

#[derive(Clone, Copy)]
enum Standing {
    Inside,
    Whole,
    Refused(u64),
}

impl From<u64> for Standing {
    fn from(number: u64) -> Standing {
        match number {
            0 => Standing::Inside,
            WHOLE => Standing::Whole,
            _ => Standing::Refused(number),
        }
    }
}

impl Feed {
    fn standing(&self) -> Standing {
        Standing::from(self.standing[1])
    }

    fn is_refused(&self) -> bool {
        matches!(self.standing(), Standing::Refused(_))
    }

    // What one call finds in a piece, and the numbers that it puts down.
    fn take(&mut self, piece: &[u8]) -> (Answer, [u64; FIELDS]) {
        let mut fields = [0; FIELDS];
        let answer = morlewen_feed_take(&mut self.kept, &mut self.standing, piece, &mut fields);
        (Answer(answer), fields)
    }

    fn end(&mut self) -> Answer {
        Answer(morlewen_feed_end(&mut self.standing))
    }

    // The bytes kept are told whole, as a lent buffer is.
    fn tell(&mut self, out: &mut impl Write) -> io::Result<()> {
        let [count, number] = self.standing;
        match Standing::from(number) {
            Standing::Inside => write!(out, " count {count} inside")?,
            Standing::Whole => write!(out, " count {count} whole")?,
            Standing::Refused(number) => {
                write!(
                    out,
                    " count {count} refused {number} {}",
                    self.place_again()
                )?
            }
        }
        write!(out, " kept{}", Lent(&self.kept))
    }

    // A refusal that stands is answered again, with its place, and nothing changes.
    fn place_again(&mut self) -> u64 {
        match self.end().outcome() {
            Ok(value) => value,
            Err(refused) => refused.place,
        }
    }
}

// One of these commands, by its name.
#[derive(Clone, Copy)]
pub enum FeedCommand {
    Restart,
    Piece,
    Stream,
    End,
}

impl FeedCommand {
    pub fn of(name: &str) -> Option<FeedCommand> {
        match name {
            "restart" => Some(FeedCommand::Restart),
            "piece" => Some(FeedCommand::Piece),
            "stream" => Some(FeedCommand::Stream),
            "end" => Some(FeedCommand::End),
            _ => None,
        }
    }
}

pub fn feed_line(
    out: &mut impl Write,
    command: FeedCommand,
    line: Line,
    world: &mut World,
) -> Result<(), Stop> {
    let feed = &mut world.feed;
    match command {
        FeedCommand::Restart => {
            line.answer(out)?;
            morlewen_feed_restart(&mut feed.kept, &mut feed.standing);
        }
        FeedCommand::Piece => piece(out, line, feed, &mut world.bytes)?,
        FeedCommand::Stream => stream(out, line, feed, &mut world.bytes)?,
        FeedCommand::End => {
            line.answer(out)?;
            tell_end(out, feed.end())?;
        }
    }
    feed.tell(out)?;
    Ok(())
}

fn tell_end(out: &mut impl Write, answer: Answer) -> io::Result<()> {
    match answer.outcome() {
        Ok(0) => write!(out, " nothing"),
        Ok(_) => Ok(()),
        Err(refused) => write!(out, " refused{}", Unread(refused)),
    }
}

fn piece(
    out: &mut impl Write,
    mut line: Line,
    feed: &mut Feed,
    bytes: &mut Bytes,
) -> Result<(), Stop> {
    let piece = bytes.last(&mut line, MOST)?;
    line.answer(out)?;
    let (answer, fields) = feed.take(piece);
    write!(out, " used {}", answer.count())?;
    match answer.outcome() {
        Ok(0) | Err(_) => tell_end(out, answer)?,
        Ok(size) => {
            let message = &feed.kept;
            write!(out, " message {size}{}", Accepted { fields, message })?;
        }
    }
    Ok(())
}

// Calls with the next bytes, so many or all that are left, until all are used or a refusal stands. Each uses a byte at least, so there
// are no more calls than bytes.
fn stream(
    out: &mut impl Write,
    mut line: Line,
    feed: &mut Feed,
    bytes: &mut Bytes,
) -> Result<(), Stop> {
    // 0 is all that is left: `between` ends with the bytes, and an Option would become this number again
    let cut = match line.field("cut", EIGHT)? as usize {
        0 => usize::MAX,
        cut => cut,
    };
    line.word("of")?;
    let bytes = bytes.last(&mut line, MOST)?;
    line.answer(out)?;
    let mut from = 0usize;
    // a count: a `while` would need progress proved out of the packed word, and is no plainer
    for _ in 0..bytes.len() {
        if bytes.len() <= from || feed.is_refused() {
            break;
        }
        let (answer, fields) = feed.take(between(bytes, from, from.saturating_add(cut)));
        match answer.outcome() {
            Ok(0) | Err(_) => {}
            Ok(size) => write!(out, " message {size} {} {},", fields[0], fields[3])?,
        }
        from = from.saturating_add(answer.count() as usize);
    }
    write!(out, " used {from}")?;
    Ok(())
}
