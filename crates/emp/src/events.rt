// An event of the send side, out of a line of text: what happened, a blank, and a COMMID.
// Rests on `sender` for the events, and on `console` for the pieces of the line and the number.
use console::decimal::decimal_of;
use console::table::{piece, pieces};
use sender::Event;

const BLANK: u8 = b' ';

// None of a line that is not understood.
pub fn event_in(line: &[u8]) -> Option<Event> {
    if pieces(line, BLANK) != 2 {
        return None;
    }
    let number = decimal_of(piece(line, BLANK, 1), u64::from(u32::MAX))?;
    let commid = u32::try_from(number).ok()?;
    match piece(line, BLANK, 0) {
        b"submit" => Some(Event::Submit(commid)),
        b"ack" => Some(Event::Ack(commid)),
        b"nak" => Some(Event::Nak(commid)),
        b"timeout" => Some(Event::TimeOut(commid)),
        _ => None,
    }
}
