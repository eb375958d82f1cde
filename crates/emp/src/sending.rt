// Send: events from standard input, a line each, answered the moment the line is in; at the end what became of each submission.
// Rests on `sender`, which decides every answer; of the events no more is held than one read, one line and the ledger.
use crate::events::event_in;
use crate::fates::{list_fates, tell_totals};
use crate::ledger::Ledger;
use crate::pieces::take_pieces;
use crate::refusing::refuse_message;
use console::table::between;
use sender::{Bench, Event};
use std::io::Input;
use wording::refusals::What;
use wording::{Status, Teller, Told};

// No longer line is understood: a word, a blank, and the digits of a COMMID.
const LINE: usize = 32;

// A run: what the sender keeps, the line that is on its way, and what is told at the end.
#[derive(Drop)]
pub struct Sending<'a, R> {
    pub(crate) teller: &'a Teller<'a, R>,
    bench: Bench,
    waiting: [u32; Bench::PLACES],
    // fixed memory: the line's first bytes, and how many it has
    line: [u8; LINE],
    size: usize,
    // the lines so far, which stay at the largest number if ever they come to it
    pub(crate) lines: u64,
    pub(crate) ledger: Ledger,
    // refused, once a line was refused or not understood or a message failed
    pub(crate) status: Status,
}

// Never inlined: the ledger's half a mebibyte would be in the frame that every command has.
#[inline(never)]
pub fn send(teller: &Teller<'_, impl Input + Print + Eprint>, resends: u64) -> Told {
    match Bench::new(resends) {
        Ok(bench) => {
            let mut sending = Sending::new(teller, bench);
            sending.run()
        }
        Err(refusal) => refuse_message(teller, What::Alone, refusal),
    }
}

impl<'a, R> Sending<'a, R> {
    fn new(teller: &'a Teller<'a, R>, bench: Bench) -> Sending<'a, R> {
        Sending {
            teller,
            bench,
            waiting: [0; Bench::PLACES],
            line: [0; LINE],
            size: 0,
            lines: 0,
            ledger: Ledger::new(),
            status: Status::Done,
        }
    }
}

impl<R: Input + Print + Eprint> Sending<'_, R> {
    fn run(&mut self) -> Told {
        let rt = self.teller.rt;
        take_pieces(rt, |piece| self.take_piece(piece))?;
        self.end()
    }
}

impl<R: Print + Eprint> Sending<'_, R> {
    fn take_piece(&mut self, piece: &[u8]) -> Told<()> {
        for byte in piece {
            self.take_byte(*byte)?;
        }
        Ok(())
    }

    fn take_byte(&mut self, byte: u8) -> Told<()> {
        if byte == b'\n' {
            return self.take_line();
        }
        if self.size < LINE {
            self.line[self.size] = byte;
        }
        self.size = self.size.wrapping_add(1);
        Ok(())
    }

    fn take_line(&mut self) -> Told<()> {
        let event = self.event();
        self.lines = self.lines.saturating_add(1);
        self.size = 0;
        match event {
            Some(event) => self.take_event(event),
            None => self.not_understood(),
        }
    }

    fn event(&self) -> Option<Event> {
        if LINE < self.size {
            return None;
        }
        event_in(between(&self.line, 0, self.size))
    }

    fn take_event(&mut self, event: Event) -> Told<()> {
        let commid = event.commid();
        match self.bench.take(&mut self.waiting, event) {
            Ok(answer) => self.answered(answer, commid),
            Err(refusal) => self.refused(refusal, commid),
        }
    }

    // The last line may lack its line feed.
    fn end(&mut self) -> Told {
        if self.size != 0 {
            self.take_line()?;
        }
        self.tell_fates()
    }

    fn tell_fates(&self) -> Told {
        list_fates(self.teller, &self.ledger)?;
        let in_flight = u64::from(self.bench.flight.is_some());
        let waiting = self.bench.waiting(&self.waiting);
        tell_totals(self.teller, &self.ledger, waiting, in_flight, self.status)
    }
}
