// Bytes that grow at their end, as far as there is room.
// Rests on the crate `console`.
ghost use Rattle.std.specs.Iterator.{IsFinite};

use console::table::between;

// A length beside fixed memory: no program here takes memory from a heap.
#[derive(Drop)]
pub struct Buffer<const ROOM: usize> {
    bytes: [u8; ROOM],
    used: usize,
}

impl<const ROOM: usize> Buffer<ROOM> {
    pub fn new() -> Buffer<ROOM> {
        Buffer {
            bytes: [0; ROOM],
            used: 0,
        }
    }

    pub fn used(&self) -> usize {
        self.used
    }

    pub fn bytes(&self) -> &[u8] {
        self.part(0, self.used)
    }

    // The bytes from one place up to another.
    pub fn part(&self, from: usize, to: usize) -> &[u8] {
        between(&self.bytes, from, to)
    }

    pub fn clear(&mut self) {
        self.used = 0;
    }

    fn push(&mut self, byte: u8) {
        if self.used < ROOM {
            self.bytes[self.used] = byte;
            self.used += 1;
        }
    }

    pub fn extend<I: Iterator<Item = u8> + Drop>(&mut self, bytes: I)
        requires can { I.can_next bytes }
        requires ends { IsFinite (I.remaining bytes) }
    {
        for byte in bytes {
            self.push(byte);
        }
    }

    // Bytes over those from a place on, which stays inside.
    pub fn change(&mut self, place: usize, bytes: &[u8]) {
        for (i, byte) in bytes.iter().enumerate() {
            if let Some(old) = self.bytes.get_mut(place.saturating_add(i)) {
                *old = *byte;
            }
        }
    }

    // A mask is added to the byte at a place by exclusive or.
    pub fn touch(&mut self, place: usize, mask: u8) {
        if let Some(byte) = self.bytes.get_mut(place) {
            *byte ^= mask;
        }
    }
}
