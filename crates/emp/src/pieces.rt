// Standard input, a piece at a time.
// Rests on std's readers, and on `console` for the system's reason.
use console::errors::fail;
use std::io::{Input, Read};
use wording::{Complained, Told};

// The most bytes of a read.
const PIECE: usize = 4_096;

// Each piece in its turn, up to the end or the first error. A proved loop has to end: no input uses up so many reads.
pub fn take_pieces<E: From<Complained>, F: FnMut(&[u8]) -> Result<(), E>>(
    rt: &(impl Input + Eprint),
    mut take: F,
) -> Result<(), E>
    requires { F.IsAlwaysCallable take }
{
    let mut input = rt.reader();
    let mut room = [0u8; PIECE];
    for _ in 0..u64::MAX {
        let piece = read_piece(rt, &mut input, &mut room)?;
        if piece.is_empty() {
            break;
        }
        take(piece)?;
    }
    Ok(())
}

// One read, which waits for a byte and no longer, so that what has come is answered before more is asked for. At the end it is empty.
fn read_piece<'a>(rt: &impl Eprint, input: &mut impl Read, room: &'a mut [u8]) -> Told<&'a [u8]> {
    match input.read(room) {
        Ok(size) => Ok(&room[..size]),
        Err(error) => {
            fail(rt, b"emp: cannot read standard input", error);
            Err(Complained)
        }
    }
}
