// The byte editor at work, and bits that flip: a message of the file is changed and changed back, and the file is checked in between.
// Rests on the crate `exports`.
use crate::file_lines::MOST_MESSAGE;
use crate::golden_lines::Step;
use crate::line::{EIGHT, Line};
use crate::stop::Stop;
use crate::telling::Answer;
use crate::world::File;
use exports::goldens::morlewen_check;
use std::io::Write;

// Where a message has its flags, and their bits that declare the kind.
const FLAGS: usize = 4;

const KIND: u8 = 0x18;

// The pairs of masks that the byte editor tries at each place and the one behind it.
const EDITS: [(u8, u8); 6] = [
    (0x01, 0x00),
    (0x00, 0x80),
    (0xFF, 0xFF),
    (0x55, 0xAA),
    (0x10, 0x01),
    (0x80, 0x01),
];

// A byte of the message, and the mask that is added to it by exclusive or.
#[derive(Clone, Copy)]
struct Touch {
    place: usize,
    mask: u8,
}

impl Touch {
    fn bit(n: usize) -> Touch {
        Touch {
            place: n / 8,
            mask: 1 << (n % 8),
        }
    }

    // Past the record, or a change of the bits that declare the kind, which makes another message.
    fn is_left_out(self) -> bool {
        MOST_MESSAGE <= self.place || (self.place == FLAGS && self.mask & KIND != 0)
    }
}

// The changes tried on a message of the file: those made, and those after which check refuses the file.
#[derive(Drop)]
struct Trial<'a> {
    file: &'a mut File,
    message: usize,
    made: u64,
    refused: u64,
}

impl Trial<'_> {
    // A change is one or two touches.
    fn change(&mut self, touches: &[Touch]) {
        if touches.iter().any(|touch| touch.is_left_out()) {
            return;
        }
        self.touch(touches);
        if Answer(morlewen_check(self.file.bytes())).outcome().is_err() {
            self.refused = self.refused.saturating_add(1);
        }
        self.touch(touches);
        self.made = self.made.saturating_add(1);
    }

    fn touch(&mut self, touches: &[Touch]) {
        for touch in touches {
            self.file
                .touch(self.message.saturating_add(touch.place), touch.mask);
        }
    }

    fn edit(&mut self, place: usize) {
        for (first, second) in EDITS {
            let first = Touch { place, mask: first };
            let second = Touch {
                place: place.saturating_add(1),
                mask: second,
            };
            self.change(&[first, second]);
        }
    }

    fn edit_each(&mut self, size: usize) {
        for place in 0..size {
            self.edit(place);
        }
    }

    fn flip_each(&mut self, bits: usize) {
        for n in 0..bits {
            self.change(&[Touch::bit(n)]);
        }
    }

    // The bit with each of those before it.
    fn flip_pairs(&mut self, n: usize) {
        for before in 0..n {
            self.change(&[Touch::bit(n), Touch::bit(before)]);
        }
    }

    fn flip_each_pair(&mut self, bits: usize) {
        for n in 0..bits {
            self.flip_pairs(n);
        }
    }
}

// One of these commands, by its name.
#[derive(Clone, Copy)]
pub enum Series {
    Edits,
    Flips,
    Pairs,
}

impl Series {
    pub fn of(name: &str) -> Option<Series> {
        match name {
            "edits" => Some(Series::Edits),
            "flips" => Some(Series::Flips),
            "pairs" => Some(Series::Pairs),
            _ => None,
        }
    }

    // What was done to the message, in a word.
    fn done(self) -> &'static str {
        match self {
            Series::Edits => "edited",
            Series::Flips | Series::Pairs => "flipped",
        }
    }
}

pub fn series_line(
    out: &mut impl Write,
    series: Series,
    mut line: Line,
    file: &mut File,
) -> Result<(), Stop> {
    let record = line.field("record", EIGHT)? as usize;
    line.answer(out)?;
    let Some(part) = Step::at(file.bytes(), record).message() else {
        write!(out, " no message")?;
        return Ok(());
    };
    let [message, size] = part;
    let size = (size as usize).min(MOST_MESSAGE);
    let mut trial = Trial {
        file,
        message: message as usize,
        made: 0,
        refused: 0,
    };
    match series {
        Series::Edits => trial.edit_each(size),
        Series::Flips => trial.flip_each(8 * size),
        Series::Pairs => trial.flip_each_pair(8 * size),
    }
    let (made, refused) = (trial.made, trial.refused);
    let done = series.done();
    write!(out, " {done} {made} refused {refused}")?;
    Ok(())
}
