// Reading and writing again: accepted bytes come out as they went in.
ghost use Rattle.std.specs.Prelude.{◌≡◌};
ghost use Rattle.envelope.specs.RoundTrips.{application_number, given_by};
ghost use Rattle.envelope.specs.Rewriting.{Rewrites};
ghost use Rattle.envelope.specs.Told.{told_envelope, told_integrity};
ghost use Rattle.envelope.specs.Writing.{told_given};
ghost use Rattle.envelope.specs.declared.rewriter.RewriteFault.TheVariants.{Refused};

use crate::fields::{Envelope, Integrity};
use crate::reader::{Refusal, read};
use crate::writer::{Given, Routing, write};

// Of the refusals of writing only one can meet what reading has accepted.
#[derive(Clone, Copy)]
pub enum RewriteFault {
    Refused(Refusal),
    NoRoom,
}

impl From<Refusal> for RewriteFault {
    ghost from_gives = { λ refusal fault. fault ≡ Refused refusal };

    fn from(refusal: Refusal) -> RewriteFault {
        RewriteFault::Refused(refusal)
    }
}

pub fn rewrite(bytes: &[u8], buffer: &mut [u8]) -> Result<usize, RewriteFault>
    ensures { Rewrites bytes.now buffer.old result buffer.new }
{
    let envelope = read(bytes)?;
    write(given_by(bytes, envelope), buffer).map_err(|_| RewriteFault::NoRoom)
}

// The fields of an accepted message, and the parts that they name, as a sender gives them.
fn given_by<'a>(bytes: &'a [u8], envelope: Envelope) -> Given<'a>
    ensures { told_given result ≡ given_by bytes.now (told_envelope envelope) }
{
    let header = envelope.header;
    let body = envelope.body.slice(bytes);
    let application = application_number(envelope.integrity);
    match envelope.addressing {
        None => Given {
            header,
            routing: None,
            source: b"",
            destination: b"",
            body,
            application,
        },
        Some(addressing) => Given {
            header,
            routing: Some(Routing {
                ttl: addressing.ttl,
                qos: addressing.qos,
            }),
            source: addressing.source.slice(bytes),
            destination: addressing.destination.slice(bytes),
            body,
            application,
        },
    }
}

fn application_number(integrity: Integrity) -> u32
    ensures { result ≡ application_number (told_integrity integrity) }
{
    match integrity {
        Integrity::Application(number) => number,
        Integrity::None | Integrity::Crc(_) => 0,
    }
}
