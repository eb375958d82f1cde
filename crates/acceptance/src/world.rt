// What goes from line to line, and the bytes of the line at hand.
use crate::buffer::Buffer;
use crate::byte_words::Bytes;
use exports::feeds::NUMBERS;
use exports::senders::BESIDE;

// The most bytes that the golden file has: two records more than may be.
pub const FILE_ROOM: usize = 66_560;

pub type File = Buffer<FILE_ROOM>;

// The bytes that a feed keeps.
const KEPT: usize = 510;

// As C lends it: bytes and numbers in storage of the caller's, no value of the library.
#[derive(Drop)]
pub struct Feed {
    pub kept: [u8; KEPT],
    pub standing: [u64; NUMBERS],
}

// The places of those that wait.
const PLACES: usize = 16;

// As C lends it, too.
#[derive(Drop)]
pub struct Sender {
    pub waiting: [u32; PLACES],
    pub beside: [u64; BESIDE],
}

#[derive(Drop)]
pub struct World {
    pub file: File,
    pub feed: Feed,
    pub sender: Sender,
    pub bytes: Bytes,
}

impl World {
    pub fn new() -> World {
        World {
            file: Buffer::new(),
            feed: Feed {
                kept: [0; KEPT],
                standing: [0; NUMBERS],
            },
            sender: Sender {
                waiting: [0; PLACES],
                beside: [0; BESIDE],
            },
            bytes: Buffer::new(),
        }
    }
}
