// A page as it is written: bytes go in behind those that it has, or are left out whole where there is no room.
// Rests on the kit's `io` for digits.

// The bytes in a row of hex.
const ROW: usize = 16;

// The last printable ASCII byte.
const TILDE: u8 = 0x7E;

// A buffer with its length beside it: its memory is fixed, and a `Cursor` would write in part what finds no room.
#[derive(Drop)]
pub(crate) struct Page<'a> {
    pub(crate) bytes: &'a mut [u8],
    pub(crate) size: usize,
}

impl Page<'_> {
    pub(crate) fn lay(&mut self, words: &[u8]) {
        let size = self.size;
        let Some(end) = size.checked_add(words.len()) else {
            return;
        };
        if end <= self.bytes.len() {
            self.bytes[size..end].copy_from_slice(words);
            self.size = end;
        }
    }

    // A line ends behind its last byte that is no blank.
    pub(crate) fn end_line(&mut self) {
        let size = self.size;
        if let Some(line) = self.bytes.get(..size) {
            self.size = line
                .iter()
                .rposition(|byte| *byte != b' ')
                .map_or(0, |place| place + 1);
        }
        self.lay(b"\n");
    }

    pub(crate) fn put_decimal(&mut self, n: u64) {
        let mut digits = [0u8; 20];
        let count = io::decimal(n, &mut digits);
        self.lay(&digits[..count]);
    }

    pub(crate) fn put_hex(&mut self, n: u64, width: usize) {
        let mut digits = [0u8; 16];
        let count = io::hex(n, width, &mut digits);
        self.lay(&digits[..count]);
    }

    // Printable ASCII as it is; a backslash, a blank at the end and any other byte in hex.
    pub(crate) fn put_text(&mut self, text: &[u8]) {
        for (i, byte) in text.iter().enumerate() {
            self.put_text_byte(*byte, i + 1 < text.len());
        }
    }

    fn put_text_byte(&mut self, byte: u8, goes_on: bool) {
        if is_plain(byte, goes_on) {
            self.lay(&[byte]);
        } else {
            self.lay(b"\\x");
            self.put_hex(u64::from(byte), 2);
        }
    }

    // In rows of hex, each of them indented.
    pub(crate) fn put_rows(&mut self, bytes: &[u8]) {
        for (i, byte) in bytes.iter().enumerate() {
            if i % ROW == 0 {
                self.lay(b"\n  ");
            } else {
                self.lay(b" ");
            }
            self.put_hex(u64::from(*byte), 2);
        }
    }
}

fn is_plain(byte: u8, goes_on: bool) -> bool {
    match byte {
        b' ' => goes_on,
        b'\\' => false,
        _ => b' ' < byte && byte <= TILDE,
    }
}
