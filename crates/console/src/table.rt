// Text in pieces: the rows of a table, which are its lines, and the columns of a row.
// Rests on nothing. A row goes by the name that is its first piece.
pub(crate) const LINE_END: u8 = b'\n';

// A piece of a text that a mark cuts, from 0 on; it is empty where there are not so many.
pub fn piece(text: &[u8], mark: u8, k: usize) -> &[u8] {
    text.split(|byte| *byte == mark).nth(k).unwrap_or(&[])
}

// The bytes from one place up to another, as far as there are any.
pub fn between(text: &[u8], from: usize, to: usize) -> &[u8] {
    text.get(from..to.min(text.len())).unwrap_or(&[])
}

// How many pieces a mark cuts a text into.
pub fn pieces(text: &[u8], mark: u8) -> usize {
    text.split(|byte| *byte == mark).count()
}

pub fn row(table: &[u8], k: usize) -> &[u8] {
    piece(table, LINE_END, k)
}

// Which row has the name for its first piece, up to this mark. An empty line ends the table.
pub fn row_named(table: &[u8], mark: u8, name: &[u8]) -> Option<usize> {
    table
        .split(|byte| *byte == LINE_END)
        .take_while(|line| !line.is_empty())
        .position(|line| piece(line, mark, 0) == name)
}
