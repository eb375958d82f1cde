// Messages in rows of hex, with places in brackets and the fields that they lie in: two side by side where they differ, plainly a line for
// each place; or one by itself where it is refused.
// Rests on marks that are lent, one for each place that stands in brackets.
ghost use Rattle.std.specs.Prelude.{◌≡◌, slice_index};

use crate::rows::Row;
use crate::status::{Status, Told};
use crate::telling::{Manner, Teller};

// The places that are shown: as many as a record has bytes, which are more than those of a golden message.
pub const PLACES: usize = 512;

// The bytes in a row.
const ROW: usize = 8;

// The names of a row: the fields of the table, and behind them the two addresses together.
const FIELDS: u8 = 15;

const ADDRESSES: u8 = 14;

// The numbers of a byte in a row: how it is shown, and the byte for each way that shows it.
const CELL_NUMBERS: usize = 3;

// The numbers of a row: of its place, of the golden message's bytes and as many of the radio's, and one for each name.
const PLACE_NUMBERS: usize = 2;

const SIDE_NUMBERS: usize = ROW * CELL_NUMBERS;

const NUMBERS: usize = PLACE_NUMBERS + 2 * SIDE_NUMBERS + FIELDS as usize;

// By what a place in brackets is named: its field, by the order in the envelope's table, or both addresses, of which rule 6 speaks.
#[derive(Clone, Copy)]
pub enum Mark {
    Field(u8),
    Addresses,
}

// The order of the name in a row.
impl From<Mark> for u8 {
    fn from(mark: Mark) -> u8 {
        match mark {
            Mark::Field(order) => order,
            Mark::Addresses => ADDRESSES,
        }
    }
}

// The marks of places, from the first of them on.
pub type Marks<const N: usize> = [Option<Mark>; N];

// How a place is shown, in the order of the template's choices: last, of a side that is left out, not even the room.
#[derive(Clone, Copy)]
enum Cell {
    Byte,
    MarkedByte,
    MarkedGap,
    Gap,
    Nothing,
}

// Two messages side by side, or one alone, of which the other side is left out; and who tells of them.
#[derive(Drop)]
struct Sides<'a, R> {
    teller: &'a Teller<'a, R>,
    golden: &'a [u8],
    radio: Option<&'a [u8]>,
}

// A row of them: the place where it begins, its own marks, and the first of the fields that it names.
#[derive(Drop)]
struct Line<'a, R> {
    sides: &'a Sides<'a, R>,
    place: usize,
    marks: &'a [Option<Mark>],
    first: Option<u8>,
}

// Where two messages differ, in this many places. Each line is written by itself, and none behind one that could not be.
pub fn show_difference(
    teller: &Teller<'_, impl Print + Eprint>,
    golden: &[u8],
    radio: &[u8],
    total: usize,
    marks: &[Option<Mark>],
) -> Told {
    let sides = Sides {
        teller,
        golden,
        radio: Some(radio),
    };
    teller.tell(Status::Refused, Row::Different, &[total as u64], golden)?;
    match teller.manner {
        Manner::Words => {
            sides.show_rows(marks)?;
            // a golden message ends before the rows do, so every place of the radio's after them differs
            sides.show_more(PLACES, radio.len(), 1)
        }
        Manner::Plain => sides.show_places(marks),
        Manner::Quiet => Ok(Status::Refused),
    }
}

// A message with one place in brackets. The row of a place beyond those shown comes behind them.
pub fn show_marked<'a>(
    teller: &'a Teller<'_, impl Print + Eprint>,
    message: &'a [u8],
    place: usize,
    mark: impl Into<Option<Mark>>,
) -> Told {
    let mark = mark.into();
    let sides = Sides {
        teller,
        golden: message,
        radio: None,
    };
    teller.tell(Status::Refused, Row::Marked, &[0], message)?;
    sides.show_rows(&marks_with(place, mark))?;
    if place < PLACES {
        return sides.show_more(PLACES, message.len(), 0);
    }
    sides.show_beyond(place, mark)
}

fn marks_with(place: usize, mark: Option<Mark>) -> Marks<PLACES> {
    let mut marks = [None; PLACES];
    if place < PLACES {
        marks[place] = mark;
    }
    marks
}

impl<R: Print + Eprint> Sides<'_, R> {
    fn show_beyond(&self, place: usize, mark: Option<Mark>) -> Told {
        let column = place % ROW;
        let row = place - column;
        let mut marks = [None; ROW];
        marks[column] = mark;
        self.show_more(PLACES, row, 0)?;
        self.show_row(row, &marks)?;
        self.show_more(row.wrapping_add(ROW), self.golden.len(), 0)
    }

    // Marks beyond these rows are not shown, and there may be fewer.
    fn show_rows(&self, marks: &[Option<Mark>]) -> Told {
        let mut rows = marks.chunks(ROW);
        for place in (0..PLACES).step_by(ROW) {
            self.show_row(place, rows.next().unwrap_or(&[]))?;
        }
        Ok(Status::Refused)
    }

    // The row that begins at a place, by its own marks.
    fn show_row(&self, place: usize, marks: &[Option<Mark>]) -> Told {
        let first = first_named(marks);
        let radio = self.radio.unwrap_or(&[]);
        if self.golden.len() <= place && radio.len() <= place && first.is_none() {
            return Ok(Status::Refused);
        }
        let line = Line {
            sides: self,
            place,
            marks,
            first,
        };
        self.teller
            .tell(Status::Refused, Row::Row, &line.numbers(), self.golden)
    }

    // The rows from a place to an end that are not shown, and, of two messages, their places.
    fn show_more(&self, from: usize, end: usize, differing: u64) -> Told {
        if end <= from {
            return Ok(Status::Refused);
        }
        let left = end - from;
        let rows = ((left - 1) / ROW) as u64 + 1;
        let numbers = [rows, differing, left as u64];
        self.teller.tell(Status::Refused, Row::More, &numbers, b"")
    }

    // The differing places that are shown.
    fn show_places(&self, marks: &[Option<Mark>]) -> Told {
        for (place, mark) in marks.iter().enumerate() {
            if let Some(mark) = mark {
                self.show_place(place, *mark)?;
            }
        }
        Ok(Status::Refused)
    }

    // The template names no field before the first.
    fn show_place(&self, place: usize, mark: Mark) -> Told {
        let radio = self.radio.unwrap_or(&[]);
        self.teller.tell(
            Status::Refused,
            Row::Place,
            &[
                place as u64,
                u64::from(place < self.golden.len()),
                u64::from(byte_at(self.golden, place)),
                u64::from(place < radio.len()),
                u64::from(byte_at(radio, place)),
                u64::from(u8::from(mark)).wrapping_add(1),
            ],
            self.golden,
        )
    }
}

impl<R> Line<'_, R> {
    // The numbers that the row's template takes.
    fn numbers(&self) -> [u64; NUMBERS] {
        let mut numbers = [0u64; NUMBERS];
        let (place, cells) = numbers.split_at_mut(PLACE_NUMBERS);
        let (golden, cells) = cells.split_at_mut(SIDE_NUMBERS);
        let (radio, names) = cells.split_at_mut(SIDE_NUMBERS);
        place.copy_from_slice(&[further_digits(self.place), self.place as u64]);
        self.put_cells(Some(self.sides.golden), golden);
        self.put_cells(self.sides.radio, radio);
        self.put_names(names);
        numbers
    }

    fn put_cells(&self, message: Option<&[u8]>, numbers: &mut [u64]) {
        let (cells, _) = numbers.as_chunks_mut::<CELL_NUMBERS>();
        for (column, cell) in cells.iter_mut().enumerate() {
            let place = self.place.wrapping_add(column);
            let marked = self.marks.get(column).is_some_and(|mark| mark.is_some());
            *cell = cell_numbers(message, place, marked);
        }
    }

    // A field is not named, or it is the first named, or a further one.
    fn put_names(&self, numbers: &mut [u64]) {
        for (order, number) in (0..).zip(numbers) {
            if self.first == Some(order) {
                *number = 1;
            } else if is_named(self.marks, order) {
                *number = 2;
            }
        }
    }
}

fn cell_numbers(message: Option<&[u8]>, place: usize, marked: bool) -> [u64; CELL_NUMBERS] {
    let Some(message) = message else {
        return [Cell::Nothing as u64, 0, 0];
    };
    let byte = u64::from(byte_at(message, place));
    [cell_of(place < message.len(), marked) as u64, byte, byte]
}

// How many digits stand behind the first; no file that is taken has a place of more than five.
fn further_digits(place: usize) -> u64 {
    u64::from(place.checked_ilog10().unwrap_or(0).min(4))
}

// A byte that is there or not, in brackets or not.
fn cell_of(there: bool, marked: bool) -> Cell {
    match (there, marked) {
        (true, false) => Cell::Byte,
        (true, true) => Cell::MarkedByte,
        (false, true) => Cell::MarkedGap,
        (false, false) => Cell::Gap,
    }
}

// A byte that is not there counts as 0. The function of `layout` says the same, and nothing here rests on that crate.
pub fn byte_at(bytes: &[u8], place: usize) -> u8
    ensures { result ≡ slice_index bytes.now place }
{
    bytes.get(place).copied().unwrap_or(0)
}

// The first of the fields that a row names.
fn first_named(marks: &[Option<Mark>]) -> Option<u8> {
    (0..FIELDS).find(|order| is_named(marks, *order))
}

// Whether a place of the row is marked by a field.
fn is_named(marks: &[Option<Mark>], order: u8) -> bool {
    marks.iter().flatten().any(|mark| u8::from(*mark) == order)
}
