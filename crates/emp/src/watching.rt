// Watch: messages from standard input as they arrive, each told the moment its last byte is in.
// Rests on `feed`, which finds and refuses them; of the stream no more is held than one read and one message.
ghost use Rattle.std.specs.Prelude.{◌<◌, length};
ghost use Rattle.emp.specs.Watching.{Onward};

use crate::golden_files::GoldenFile;
use crate::pieces::take_pieces;
use crate::refusing::refuse;
use feed::{Beside, Feed, Message, Refusal, advance, close, held};
use golden::check;
use std::io::Input;
use wording::refusals::{Subject, What, Whole};
use wording::{Complained, Status, Teller, Told};

// A stream: what the feed keeps of it, and what went by.
#[derive(Drop)]
pub struct Watch<'a, R> {
    pub(crate) teller: &'a Teller<'a, R>,
    // the golden file beside it, where one is named
    pub(crate) golden: Option<&'a [u8]>,
    kept: [u8; Feed::ROOM],
    beside: Beside,
    // the messages and the bytes so far, which stay at the largest number if ever they come to it
    pub(crate) messages: u64,
    bytes: u64,
    // the last message's number
    pub(crate) last: Option<u32>,
}

// The stream goes on no more, and that is told.
#[derive(Clone, Copy)]
pub struct Ended(Told);

impl From<Complained> for Ended {
    fn from(complained: Complained) -> Ended {
        Ended(Err(complained))
    }
}

pub fn watch_alone(teller: &Teller<'_, impl Input + Print + Eprint>) -> Told {
    let mut watch = Watch::new(teller, None);
    watch.run()
}

// A bad golden file is told before any byte of the stream is read.
pub fn watch_beside(teller: &Teller<'_, impl Input + Print + Eprint>, file: &[u8]) -> Told {
    if check(file).is_err() {
        return GoldenFile { teller, file }.check();
    }
    let mut watch = Watch::new(teller, Some(file));
    watch.run()
}

impl<'a, R> Watch<'a, R> {
    fn new(teller: &'a Teller<'a, R>, golden: Option<&'a [u8]>) -> Watch<'a, R> {
        let Feed { kept, beside } = Feed::new();
        Watch {
            teller,
            golden,
            kept,
            beside,
            messages: 0,
            bytes: 0,
            last: None,
        }
    }
}

impl<R: Input + Print + Eprint> Watch<'_, R> {
    fn run(&mut self) -> Told {
        let rt = self.teller.rt;
        match take_pieces(rt, |piece| self.take_piece(piece)) {
            Ok(()) => self.end(),
            Err(Ended(told)) => told,
        }
    }
}

impl<R: Print + Eprint> Watch<'_, R> {
    // A call uses as many bytes as it settles by, so no iterator of std goes by calls.
    fn take_piece(&mut self, piece: &[u8]) -> Result<(), Ended> {
        let mut left = piece;
        while !left.is_empty() {
            let used = self.take_some(left)?;
            left = &left[used..];
        }
        Ok(())
    }

    // One call of the feed, and what it found told. It goes on by a byte at least, and by no more than the piece has.
    fn take_some(&mut self, piece: &[u8]) -> Result<usize, Ended>
        requires { 0 < length piece.now }
        ensures { Onward (length piece.now) result }
    {
        let step = advance(&mut self.kept, self.beside, piece);
        self.beside = step.beside;
        self.bytes = self.bytes.saturating_add(step.used as u64);
        match step.found {
            Ok(None) => Ok(step.used),
            Ok(Some(Message { envelope, .. })) => {
                self.tell_message(envelope.header)?;
                self.messages = self.messages.saturating_add(1);
                self.last = Some(envelope.header.number);
                Ok(step.used)
            }
            Err(refusal) => Err(Ended(self.refuse(refusal))),
        }
    }

    // The last message, until the next bytes are taken.
    pub(crate) fn message(&self) -> &[u8] {
        held(&self.kept, self.beside)
    }

    fn end(&self) -> Told {
        match close(self.beside).found {
            Ok(_) => Ok(Status::Done),
            Err(refusal) => self.refuse(refusal),
        }
    }

    // The message that is on its way is the one refused, by the last of the bytes so far, of which so many are its own.
    fn refuse(&self, refusal: Refusal) -> Told {
        let of = Subject {
            what: What::Message {
                number: self.messages.saturating_add(1),
                bytes: self.bytes,
            },
            whole: Whole::Stream {
                from: self.bytes.wrapping_sub(self.beside.count as u64),
            },
        };
        refuse(self.teller, of, refusal)
    }
}
