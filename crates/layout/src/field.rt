// Which field a place of a message lies in.
// Rests on `envelope` for the table's numbers, and on a layout for the places by which messages differ.
ghost use Rattle.std.specs.Prelude.{◌≡◌};
ghost use Rattle.layout.specs.Fields.{header_field, variable_field, LiesIn, TellsOrder};

use crate::layout::Layout;
use envelope::Envelope;

// The fields in the order of the table, and what lies past the message.
#[derive(Clone, Copy)]
pub enum Field {
    HeaderVersion,
    MessageType,
    MessageVersion,
    Flags,
    DataLength,
    MessageNumber,
    MessageTime,
    VariableSize,
    Ttl,
    Qos,
    Source,
    Destination,
    Body,
    Integrity,
    Beyond,
}

// Its place in the table, from 0; what lies past the message comes after all of them.
impl From<Field> for u8 {
    ghost from_gives = { TellsOrder };

    fn from(field: Field) -> u8 {
        field as u8
    }
}

// Past the header it counts from where the body begins: no layout is too large for that.
#[tactic(auto, unfolding(crate::specs::Fields::field_at))]
pub fn field_at(layout: Layout, place: usize) -> Field
    ensures { LiesIn layout place result }
{
    if place < Envelope::HEADER_SIZE {
        return header_field(place);
    }
    if place < layout.body {
        return variable_field(layout.destination, place);
    }
    let in_body = place - layout.body;
    if in_body < layout.body_size {
        return Field::Body;
    }
    if in_body - layout.body_size < Envelope::FIELD_SIZE {
        return Field::Integrity;
    }
    Field::Beyond
}

#[tactic(auto, unfolding(crate::specs::Fields::header_field))]
fn header_field(place: usize) -> Field
    ensures { result ≡ header_field place }
{
    if place < Envelope::TYPE_PLACE {
        return Field::HeaderVersion;
    }
    if place < Envelope::MESSAGE_VERSION_PLACE {
        return Field::MessageType;
    }
    if place < Envelope::FLAGS_PLACE {
        return Field::MessageVersion;
    }
    if place < Envelope::DATA_LENGTH_PLACE {
        return Field::Flags;
    }
    if place < Envelope::NUMBER_PLACE {
        return Field::DataLength;
    }
    if place < Envelope::TIME_PLACE {
        return Field::MessageNumber;
    }
    if place < Envelope::VARIABLE_SIZE_PLACE {
        return Field::MessageTime;
    }
    Field::VariableSize
}

#[tactic(auto, unfolding(crate::specs::Fields::variable_field))]
fn variable_field(destination: usize, place: usize) -> Field
    ensures { result ≡ variable_field destination place }
{
    if place < Envelope::QOS_PLACE {
        return Field::Ttl;
    }
    if place < Envelope::ADDRESSES_PLACE {
        return Field::Qos;
    }
    if place < destination {
        return Field::Source;
    }
    Field::Destination
}
