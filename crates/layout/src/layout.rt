// The layout of a message: where its destination and its body begin, as its bytes state it.
// Rests on `envelope` for the table's numbers; it takes any bytes, and one that is not there counts as 0.
ghost use Rattle.std.specs.Prelude.{◌≡◌, ◌<◌};
ghost use Rattle.envelope.specs.Addresses.{region_of, source_size};
ghost use Rattle.envelope.specs.Heading.{data_length};
ghost use Rattle.envelope.specs.Numbers.{byte_at};
ghost use Rattle.layout.specs.Layout.{LaidOut};

use envelope::numbers::three_bytes;
use envelope::{Envelope, Part, first_zero};

// The places by which one message's fields differ from another's.
#[derive(Clone, Copy)]
pub struct Layout {
    pub destination: usize,
    pub body: usize,
    pub body_size: usize,
}

// Where there are no addresses the body follows the header, and no place is asked of a destination.
#[tactic(auto, unfolding(crate::specs::Layout::layout_of))]
pub fn layout_of(message: &[u8]) -> Layout
    ensures { LaidOut message.now result }
{
    let v = byte_at(message, Envelope::VARIABLE_SIZE_PLACE);
    let source = source_size(message, v);
    Layout {
        destination: Envelope::ADDRESSES_PLACE + source + 1,
        body: Envelope::HEADER_SIZE + usize::from(v),
        body_size: data_length(message),
    }
}

// D.
#[tactic(auto, unfolding(envelope::specs::Numbers::three_at))]
fn data_length(message: &[u8]) -> usize
    ensures { result ≡ data_length message.now }
{
    let d = three_bytes(
        byte_at(message, Envelope::DATA_LENGTH_PLACE),
        byte_at(message, Envelope::DATA_LENGTH_PLACE + 1),
        byte_at(message, Envelope::DATA_LENGTH_PLACE + 2),
    );
    d as usize
}

// The source without its zero, in the V - 4 bytes after TTL and QoS, as far as they reach. A V below 4 leaves no room for addresses.
fn source_size(message: &[u8], v: u8) -> usize
    ensures { (result ≡ source_size (region_of message.now v)) × (result < 256) }
{
    let region = Part {
        place: Envelope::ADDRESSES_PLACE,
        size: usize::from(v).saturating_sub(Envelope::ROUTING_SIZE),
    };
    first_zero(region.slice(message))
}

fn byte_at(bytes: &[u8], place: usize) -> u8
    ensures { result ≡ byte_at bytes.now place }
{
    bytes.get(place).copied().unwrap_or(0)
}
