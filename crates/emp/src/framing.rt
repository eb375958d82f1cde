// Unwrap, wrap and acknowledge: what a frame or a capture holds, and frames made on standard output and nowhere else.
// Rests on `frame`, which unwraps, measures, wraps and acknowledges.
use crate::reading::show_message;
use crate::refusing::{refuse, refuse_message};
use envelope::Part;
use frame::layout::{ACKNOWLEDGMENT_SIZE, BODY_PLACE, LEAST_SIZE};
use frame::{Acknowledgment, DataMessage, Refusal, Unwrapped, acknowledge, first, unwrap, wrap};
use wording::files::MOST;
use wording::refusals::{Subject, What, Whole};
use wording::{Manner, Row, Status, Teller, Told};

// The data message of the longest message that is taken.
const ROOM: usize = LEAST_SIZE + MOST;

// Where a frame stands in its file: its number, and its first place.
#[derive(Clone, Copy)]
struct Spot {
    frame: usize,
    place: usize,
}

impl Spot {
    const FIRST: Spot = Spot { frame: 1, place: 0 };
}

// A frame that is alone in its file is told with its message, in words.
pub fn unwrap_file(teller: &Teller<'_, impl Print + Eprint>, file: &[u8]) -> Told {
    if first(file) < file.len() {
        return unwrap_capture(teller, file);
    }
    match teller.manner {
        Manner::Words => unwrap_frame(teller, file),
        _ => tell_frame(teller, Spot::FIRST, file),
    }
}

fn unwrap_frame(teller: &Teller<'_, impl Print + Eprint>, file: &[u8]) -> Told {
    match unwrap(file) {
        Ok(Unwrapped::Data(data)) => show_data(teller, data, file),
        Ok(Unwrapped::Acknowledged(acknowledgment)) => {
            tell_acknowledgment(teller, None, acknowledgment)
        }
        Err(refusal) => refuse_frame(teller, Spot::FIRST, refusal),
    }
}

fn show_data(teller: &Teller<'_, impl Print + Eprint>, data: DataMessage, file: &[u8]) -> Told {
    teller.tell(
        Status::Done,
        Row::Frame,
        &[u64::from(data.commid), file.len() as u64],
        file,
    )?;
    show_message(teller, data.envelope, data.message.slice(file))
}

// A line for each frame, up to the first that is refused. Each is as long as it says, so no iterator of std goes by frames.
#[tactic(auto, using(frame::proofs::CaptureLaws::first_is_there))]
fn unwrap_capture(teller: &Teller<'_, impl Print + Eprint>, capture: &[u8]) -> Told {
    let mut spot = Spot::FIRST;
    let mut left = capture;
    while !left.is_empty() {
        let size = first(left);
        let (frame, behind) = left.split_at(size);
        if tell_frame(teller, spot, frame)? == Status::Refused {
            return Ok(Status::Refused);
        }
        spot.frame = spot.frame.saturating_add(1);
        spot.place = spot.place.saturating_add(size);
        left = behind;
    }
    Ok(Status::Done)
}

fn tell_frame(teller: &Teller<'_, impl Print + Eprint>, spot: Spot, bytes: &[u8]) -> Told {
    match unwrap(bytes) {
        Ok(Unwrapped::Data(data)) => tell_data(teller, spot, data, bytes),
        Ok(Unwrapped::Acknowledged(acknowledgment)) => {
            tell_acknowledgment(teller, Some(spot), acknowledgment)
        }
        Err(refusal) => refuse_frame(teller, spot, refusal),
    }
}

fn tell_data(
    teller: &Teller<'_, impl Print + Eprint>,
    spot: Spot,
    data: DataMessage,
    bytes: &[u8],
) -> Told {
    let header = data.envelope.header;
    teller.tell(
        Status::Done,
        Row::Data,
        &[
            spot.frame as u64,
            spot.place as u64,
            u64::from(data.commid),
            u64::from(header.message_type),
            u64::from(header.number),
            data.message.size as u64,
        ],
        bytes,
    )
}

// One that is alone in its file goes without a spot.
fn tell_acknowledgment(
    teller: &Teller<'_, impl Print + Eprint>,
    spot: Option<Spot>,
    acknowledgment: Acknowledgment,
) -> Told {
    let Spot { frame, place } = spot.unwrap_or(Spot::FIRST);
    teller.tell(
        Status::Done,
        Row::Acknowledgment,
        &[
            u64::from(spot.is_some()),
            frame as u64,
            place as u64,
            u64::from(acknowledgment.commid),
            u64::from(acknowledgment.acknowledged),
        ],
        b"",
    )
}

// The message begins behind the frame's header.
fn refuse_frame(teller: &Teller<'_, impl Print + Eprint>, spot: Spot, refusal: Refusal) -> Told {
    let place = spot.place as u64;
    let of = Subject {
        what: What::Frame {
            number: spot.frame as u64,
            place,
        },
        whole: Whole::File {
            from: place.wrapping_add(BODY_PLACE as u64),
        },
    };
    refuse(teller, of, refusal)
}

pub fn wrap_message(teller: &Teller<'_, impl Print + Eprint>, commid: u32, message: &[u8]) -> Told {
    let mut buffer = [0u8; ROOM];
    let wrapped = wrap(message, commid, &mut buffer);
    put_frame(teller, wrapped, &buffer)
}

pub fn acknowledge_commid(
    teller: &Teller<'_, impl Print + Eprint>,
    commid: u32,
    acknowledged: u32,
) -> Told {
    let mut buffer = [0u8; ACKNOWLEDGMENT_SIZE];
    let wrapped = acknowledge(commid, acknowledged, &mut buffer);
    put_frame(teller, wrapped, &buffer)
}

fn put_frame(
    teller: &Teller<'_, impl Print + Eprint>,
    wrapped: Result<usize, Refusal>,
    buffer: &[u8],
) -> Told {
    match wrapped {
        Ok(size) => {
            let whole = Part { place: 0, size };
            teller.put(whole.slice(buffer), Status::Done)
        }
        Err(refusal) => refuse_message(teller, What::ToBeMade, refusal),
    }
}
