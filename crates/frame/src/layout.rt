// The table of a frame: its constants, where each field begins, and the sizes.

pub const STX: u8 = 2;

pub const ETX: u8 = 3;
// The versions that are ours.
pub const PROTOCOL_VERSION: u8 = 2;

pub const MESSAGE_VERSION: u8 = 2;

pub const STX_PLACE: usize = 0;

pub const PROTOCOL_VERSION_PLACE: usize = 1;

pub const COMMID_PLACE: usize = 2;

pub const TYPE_PLACE: usize = 6;

pub const MESSAGE_VERSION_PLACE: usize = 7;

pub const LENGTH_PLACE: usize = 8;

pub const BODY_PLACE: usize = 12;

// A frame with an empty body: all before the body, and ETX.
pub const LEAST_SIZE: usize = BODY_PLACE + 1;
// The body of an acknowledgment.
pub const COMMID_SIZE: usize = 4;
// A whole acknowledgment.
pub const ACKNOWLEDGMENT_SIZE: usize = LEAST_SIZE + COMMID_SIZE;
