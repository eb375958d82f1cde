// What an accepted message is handed out as, and the numbers of its layout.
ghost use Rattle.envelope.specs.Flags.{NumbersKind};
ghost use Rattle.envelope.specs.Told.{Slices, Holds};

// A part of the bytes lent: its first place and its size.
#[derive(Clone, Copy)]
pub struct Part {
    pub place: usize,
    pub size: usize,
}

impl Part {
    // The bytes of the part, out of those that it was found in: as far as they reach.
    pub fn slice<'a>(self, bytes: &'a [u8]) -> &'a [u8]
        ensures { Slices self bytes.now result.now }
    {
        let rest = &bytes[self.place.min(bytes.len())..];
        &rest[..self.size.min(rest.len())]
    }
}

// The fields of the fixed header that a sender chooses. Header version, V and D follow from the rest.
#[derive(Clone, Copy)]
pub struct Header {
    pub message_type: u16,
    pub version: u8,
    pub flags: u8,
    pub number: u32,
    pub time: u32,
}

// A variable header, where there is one. An end is a part without its closing zero.
#[derive(Clone, Copy)]
pub struct Addressing {
    pub ttl: u16,
    pub qos: u16,
    pub source: Part,
    pub destination: Part,
}

// The integrity kinds, each with its number in the flags.
#[derive(Clone, Copy, PartialEq, Eq)]
pub enum Kind {
    None = 0,
    Crc = 1,
    Application = 2,
    Unassigned = 3,
}

impl From<Kind> for u8 {
    ghost from_gives = { NumbersKind };

    fn from(kind: Kind) -> u8 {
        kind as u8
    }
}

// What the integrity field holds, by its kind.
#[derive(Clone, Copy)]
pub enum Integrity {
    None,
    Crc(u32),
    Application(u32),
}

#[derive(Clone, Copy)]
pub struct Envelope {
    pub header: Header,
    pub addressing: Option<Addressing>,
    pub body: Part,
    pub integrity: Integrity,
}

impl Envelope {
    // The only header version there is.
    pub const HEADER_VERSION: u8 = 4;

    // Where the header's fields begin.
    pub const VERSION_PLACE: usize = 0;

    pub const TYPE_PLACE: usize = 1;

    pub const MESSAGE_VERSION_PLACE: usize = 3;

    pub const FLAGS_PLACE: usize = 4;

    pub const DATA_LENGTH_PLACE: usize = 5;

    pub const NUMBER_PLACE: usize = 8;

    pub const TIME_PLACE: usize = 12;

    pub const VARIABLE_SIZE_PLACE: usize = 16;

    // The bytes before the variable header.
    pub const HEADER_SIZE: usize = 17;
    // The integrity field.
    pub const FIELD_SIZE: usize = 4;
    // The least message: a header and an integrity field.
    pub const LEAST_SIZE: usize = Envelope::HEADER_SIZE + Envelope::FIELD_SIZE;
    // TTL and QoS, the front of a variable header.
    pub const TTL_PLACE: usize = Envelope::HEADER_SIZE;

    pub const QOS_PLACE: usize = Envelope::HEADER_SIZE + 2;

    pub const ROUTING_SIZE: usize = 4;
    // The smallest variable header has two empty addresses: their closing zeros.
    pub const SMALLEST_VARIABLE: usize = Envelope::ROUTING_SIZE + 2;

    pub const LARGEST_VARIABLE: usize = 132;
    // Where the addresses begin. That this is LEAST_SIZE too means nothing.
    pub const ADDRESSES_PLACE: usize = Envelope::HEADER_SIZE + Envelope::ROUTING_SIZE;
    // The largest address, with its closing zero.
    pub const LARGEST_ADDRESS: usize = 64;
    // The largest body that a data length of three bytes can state.
    pub const LARGEST_BODY: usize = 16_777_215;

    pub fn new(
        header: Header,
        addressing: Option<Addressing>,
        body: Part,
        integrity: Integrity,
    ) -> Envelope
        ensures { Holds header addressing body integrity result }
    {
        Envelope {
            header,
            addressing,
            body,
            integrity,
        }
    }
}
