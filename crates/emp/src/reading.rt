// Read: every field of a message by name, or the refusal, with the place among the message's bytes.
// Rests on `envelope`, which reads the message, tells the flags and splits the QoS, and on `layout` for the field of a place.
use crate::comparing::mark_in;
use crate::refusing::refuse_message;
use envelope::flags::{is_compressed, is_encrypted, kind, time_is_absolute};
use envelope::qos::split;
use envelope::{Addressing, Envelope, Fault, Integrity, Refusal, read};
use layout::layout_of;
use wording::refusals::What;
use wording::sides::{Mark, show_marked};
use wording::{Manner, Row, Status, Teller, Told};

// The bytes of a body that are shown.
const SHOWN: usize = 256;

// A message, with what reading handed out of it, and who tells of it.
#[derive(Drop)]
struct Accepted<'a, R> {
    teller: &'a Teller<'a, R>,
    envelope: Envelope,
    message: &'a [u8],
}

pub fn read_message(teller: &Teller<'_, impl Print + Eprint>, message: &[u8]) -> Told {
    match read(message) {
        Ok(accepted) => show_message(teller, accepted, message),
        Err(refusal) => show_refused(teller, refusal, message),
    }
}

// In words the bytes come behind the refusal.
fn show_refused(
    teller: &Teller<'_, impl Print + Eprint>,
    refusal: Refusal,
    message: &[u8],
) -> Told {
    let status = refuse_reading(teller, refusal)?;
    match teller.manner {
        Manner::Words => show_marked(teller, message, refusal.place, mark_of(refusal, message)),
        _ => Ok(status),
    }
}

// The field at the place; of rule 6 both addresses, for either may be the wrong one.
fn mark_of(refusal: Refusal, message: &[u8]) -> Mark {
    match refusal.fault {
        Fault::BadAddresses => Mark::Addresses,
        _ => mark_in(layout_of(message), refusal.place),
    }
}

pub fn refuse_reading(teller: &Teller<'_, impl Print + Eprint>, refusal: Refusal) -> Told {
    refuse_message(teller, What::Alone, refusal)
}

// What reading handed out of a message; plainly, one line.
pub fn show_message(
    teller: &Teller<'_, impl Print + Eprint>,
    envelope: Envelope,
    message: &[u8],
) -> Told {
    let accepted = Accepted {
        teller,
        envelope,
        message,
    };
    accepted.show_header()?;
    accepted.show_addressing()?;
    accepted.show_body()
}

impl<R: Print + Eprint> Accepted<'_, R> {
    fn show_header(&self) -> Told {
        let header = self.envelope.header;
        let flags = header.flags;
        self.tell(
            Row::Header,
            &[
                self.message.len() as u64,
                u64::from(Envelope::HEADER_VERSION),
                u64::from(header.message_type),
                u64::from(header.version),
                u64::from(flags),
                u64::from(time_is_absolute(flags)),
                u64::from(is_encrypted(flags)),
                u64::from(is_compressed(flags)),
                kind(flags) as u64,
                self.envelope.body.size as u64,
                u64::from(header.number),
                u64::from(header.time),
            ],
        )
    }

    fn show_addressing(&self) -> Told {
        match self.envelope.addressing {
            Some(addressing) => {
                self.show_routing(addressing)?;
                self.show_ends(addressing)
            }
            None => self.tell(Row::Unrouted, &[0]),
        }
    }

    fn show_routing(&self, addressing: Addressing) -> Told {
        // the variable header ends where the body begins
        let variable = self
            .envelope
            .body
            .place
            .saturating_sub(Envelope::HEADER_SIZE);
        let parts = split(addressing.qos);
        self.tell(
            Row::Routed,
            &[
                variable as u64,
                u64::from(addressing.ttl),
                u64::from(addressing.qos),
                u64::from(parts.service_request),
                u64::from(parts.special_handling),
                u64::from(parts.network_preference),
                u64::from(parts.priority),
                u64::from(parts.class),
            ],
        )
    }

    fn show_ends(&self, addressing: Addressing) -> Told {
        let Addressing {
            source,
            destination,
            ..
        } = addressing;
        self.tell(
            Row::Ends,
            &[
                u64::from(source.size != 0),
                source.place as u64,
                source.size as u64,
                u64::from(destination.size != 0),
                destination.place as u64,
                destination.size as u64,
            ],
        )
    }

    fn show_body(&self) -> Told {
        let body = self.envelope.body;
        let place = body.place as u64;
        let shown = body.size.min(SHOWN);
        let left = body.size - shown;
        self.tell(
            Row::Body,
            &[
                body.size as u64,
                place,
                place,
                shown as u64,
                u64::from(left != 0),
                left as u64,
                u64::from(held_in(self.envelope.integrity)),
                kind(self.envelope.header.flags) as u64,
            ],
        )
    }

    fn tell(&self, row: Row, numbers: &[u64]) -> Told {
        self.teller.tell(Status::Done, row, numbers, self.message)
    }
}

// What the field holds. `exports` has it too; one method for both is no plainer: a public function more of the library, for one match.
fn held_in(integrity: Integrity) -> u32 {
    match integrity {
        Integrity::None => 0,
        Integrity::Crc(sum) => sum,
        Integrity::Application(number) => number,
    }
}
