// What the sender answered: written into the ledger, and told in a line.
// Rests on `sender` for the answers and on `ledger` for what is told at the end.
use crate::refusing::refuse_message;
use crate::sending::Sending;
use sender::{Answer, Refusal};
use wording::refusals::What;
use wording::{Row, Status, Told};

// What an answer says, in the order of the template's choices; and whether the next one goes out.
#[derive(Clone, Copy)]
enum Words {
    Sent,
    Waits,
    Resent,
    Acknowledged,
    AcknowledgedAndSent,
    Failed,
    FailedAndSent,
}

impl<R: Print + Eprint> Sending<'_, R> {
    // How the sender took what happened to a COMMID.
    pub(crate) fn answered(&mut self, answer: Answer, commid: u32) -> Told<()> {
        match answer {
            Answer::Sent => {
                self.ledger.enter(commid);
                self.ledger.send();
                self.say(Words::Sent, commid, 0)
            }
            Answer::Waits => {
                self.ledger.enter(commid);
                self.say(Words::Waits, commid, 0)
            }
            Answer::Again => {
                self.ledger.send();
                self.say(Words::Resent, commid, 0)
            }
            Answer::Settled(next) => {
                self.ledger.acknowledge();
                self.say_ended(
                    Words::Acknowledged,
                    Words::AcknowledgedAndSent,
                    commid,
                    next,
                )
            }
            Answer::Failed(next) => {
                self.ledger.fail();
                self.status = Status::Refused;
                self.say_ended(Words::Failed, Words::FailedAndSent, commid, next)
            }
        }
    }

    pub(crate) fn refused(&mut self, refusal: Refusal, commid: u32) -> Told<()> {
        let what = What::Event {
            number: self.lines,
            commid: u64::from(commid),
        };
        self.status = refuse_message(self.teller, what, refusal)?;
        Ok(())
    }

    // A line that is no event changes nothing.
    pub(crate) fn not_understood(&mut self) -> Told<()> {
        self.status = self
            .teller
            .tell(Status::Refused, Row::NotAnEvent, &[self.lines], b"")?;
        Ok(())
    }

    // The one in flight has ended, and the next one goes out, where one waits.
    fn say_ended(
        &mut self,
        alone: Words,
        with_next: Words,
        commid: u32,
        next: Option<u32>,
    ) -> Told<()> {
        match next {
            None => self.say(alone, commid, 0),
            Some(other) => {
                self.ledger.send();
                self.say(with_next, commid, other)
            }
        }
    }

    fn say(&self, words: Words, commid: u32, other: u32) -> Told<()> {
        let of = u64::from(commid);
        let next = u64::from(other);
        self.teller.tell(
            Status::Done,
            Row::Event,
            &[words as u64, of, of, of, of, of, next, of, of, next],
            b"",
        )?;
        Ok(())
    }
}
