// Compare: a golden record with a radio's message, and where they differ.
// Rests on `golden`, which reads both messages, compares them and lists the places, and on `layout` for the fields; here neither is read again.
use crate::refusing::refuse;
use golden::{Record, Refusal, compare, stored_message};
use layout::{Layout, field_at, layout_of};
use wording::refusals::{Subject, What, Whole};
use wording::sides::{Mark, Marks, PLACES, show_difference};
use wording::{Row, Status, Teller, Told};

pub fn compare_record(
    teller: &Teller<'_, impl Print + Eprint>,
    file: &[u8],
    record: usize,
    radio: &[u8],
) -> Told {
    let mut places = [0; Record::SIZE];
    let part = stored_message(file, record);
    match compare(file, record, radio, &mut places) {
        Ok(0) => teller.tell(Status::Done, Row::Same, &[radio.len() as u64], radio),
        Ok(total) => {
            let golden = part.slice(file);
            // the first of the places are listed, as many as find room
            let listed = &places[..total.min(places.len())];
            let marks = marks_of(golden, radio, listed);
            show_difference(teller, golden, radio, total, &marks)
        }
        Err(refusal) => refuse_comparing(teller, refusal, part.place),
    }
}

// The radio's message is no part of the golden file; the record's begins there at a place.
fn refuse_comparing(
    teller: &Teller<'_, impl Print + Eprint>,
    refusal: Refusal,
    place: usize,
) -> Told {
    let whole = match refusal {
        Refusal::RadioRefused(_) => Whole::Other,
        _ => Whole::File { from: place as u64 },
    };
    let what = What::Alone;
    refuse(teller, Subject { what, whole }, refusal)
}

// A mark for each place that is listed and shown.
fn marks_of(golden: &[u8], radio: &[u8], places: &[u32]) -> Marks<PLACES> {
    let of_golden = layout_of(golden);
    let of_radio = layout_of(radio);
    let mut marks = [None; PLACES];
    for place in places {
        let place = *place as usize;
        // by the golden message where it has that place, and else by the radio's
        let layout = if place < golden.len() {
            of_golden
        } else {
            of_radio
        };
        if place < PLACES {
            marks[place] = Some(mark_in(layout, place));
        }
    }
    marks
}

// The mark of a place: its field.
pub fn mark_in(layout: Layout, place: usize) -> Mark {
    Mark::Field(u8::from(field_at(layout, place)))
}
