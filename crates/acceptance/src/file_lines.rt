// The lines that build the golden file that is worked on. Nothing is judged here.
// Rests on `byte_words`.
use crate::line::Line;
use crate::stop::Stop;
use crate::world::{FILE_ROOM, File, World};
use std::io::Write;
use std::iter;

// The bytes of a record, and the most that its message has.
const RECORD: usize = 512;

pub const MOST_MESSAGE: usize = 510;

pub fn file_line(out: &mut impl Write, mut line: Line, world: &mut World) -> Result<(), Stop> {
    let used = world.file.used();
    let room = FILE_ROOM.saturating_sub(used) as u64;
    if line.takes("record") {
        add_record(
            &mut world.file,
            world.bytes.last(&mut line, MOST_MESSAGE as u64)?,
        )?;
    } else if line.takes("bytes") {
        let bytes = world.bytes.last(&mut line, room)?;
        world.file.extend(bytes.iter().copied());
    } else if line.takes("zeros") {
        let count = line.number(room)? as usize;
        line.end()?;
        world.file.extend(iter::repeat_n(0, count));
    } else if line.takes("change") {
        let place = line.number(used as u64)? as usize;
        let bytes = world
            .bytes
            .last(&mut line, used.saturating_sub(place) as u64)?;
        world.file.change(place, bytes);
    } else {
        line.word("new")?;
        line.end()?;
        world.file.clear();
    }
    write!(out, "file: {} bytes", world.file.used())?;
    Ok(())
}

// The stored length, the message, and zeros.
fn add_record(file: &mut File, message: &[u8]) -> Result<(), Stop> {
    if FILE_ROOM - RECORD < file.used() {
        return Err(Stop::NoRoom);
    }
    let size = u16::try_from(message.len()).unwrap_or(u16::MAX);
    file.extend(size.to_be_bytes().into_iter());
    file.extend(message.iter().copied());
    file.extend(iter::repeat_n(0, MOST_MESSAGE.saturating_sub(message.len())));
    Ok(())
}
