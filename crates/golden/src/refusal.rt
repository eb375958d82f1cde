// The refusals of the golden file, in the order of their numbers. Each operation gives some of them; specs/Gives says which.
ghost use Rattle.std.specs.Prelude.{false, ◌≡◌, ◌<◌};
ghost use Rattle.golden.specs.Helpers.{is_record_refused, row_of, row_number};
ghost use Rattle.golden.specs.Refusal.{NumbersGoldenRefusal};

use envelope::Numbers;

#[derive(Clone, Copy)]
pub enum Refusal {
    NotAGoldenFile,
    NoRecord,
    BadLength,
    NotClear,
    RecordRefused(envelope::Refusal),
    NameTaken,
    NotFound,
    RadioRefused(envelope::Refusal),
    TooLong,
    MessageRefused(envelope::Refusal),
    WrongBuffer,
    AlreadyRetired,
    WrongCopy,
    RecordRetired,
}

// A refusal, and the number of the record that it names.
#[derive(Clone, Copy)]
pub struct RefusedAt {
    pub record: usize,
    pub refusal: Refusal,
}

// What is no golden file is refused at record 0.
impl From<Refusal> for RefusedAt {
    ghost from_gives = { λ refusal at. at ≡ record { «record» = 0; refusal = refusal } };

    fn from(refusal: Refusal) -> RefusedAt {
        RefusedAt { record: 0, refusal }
    }
}

// The numbers of the table of refusals. In two steps, for of one large match the compiler makes a table in the archive.
impl From<Refusal> for Numbers {
    ghost from_gives = { NumbersGoldenRefusal };

    fn from(refusal: Refusal) -> Numbers {
        match refusal {
            Refusal::RecordRefused(passed) => Numbers::passing_on(25, passed),
            _ => refusal.other_numbers(),
        }
    }
}

impl Refusal {
    fn other_numbers(self) -> Numbers
        requires { is_record_refused self ≡ false }
        ensures { NumbersGoldenRefusal self result }
    {
        let number = number_of(self.row());
        match self {
            Refusal::RadioRefused(refusal) | Refusal::MessageRefused(refusal) =>
                Numbers::passing_on(number, refusal),
            _ => Numbers::plainly(number),
        }
    }

    // Which row of the table it is.
    fn row(self) -> u8
        ensures { result ≡ row_of self }
    {
        match self {
            Refusal::NotAGoldenFile => 0,
            Refusal::NoRecord => 1,
            Refusal::BadLength => 2,
            Refusal::NotClear => 3,
            Refusal::RecordRefused(_) => 4,
            Refusal::NameTaken => 5,
            Refusal::NotFound => 6,
            Refusal::RadioRefused(_) => 7,
            Refusal::TooLong => 8,
            Refusal::MessageRefused(_) => 9,
            Refusal::WrongBuffer => 10,
            Refusal::AlreadyRetired => 11,
            Refusal::WrongCopy => 12,
            Refusal::RecordRetired => 13,
        }
    }
}

// 21 to 27, 31, and 33 to 38. Counted and not listed, for of a list the compiler makes a table in the archive.
fn number_of(row: u8) -> u8
    requires { row < 14 }
    ensures { result ≡ row_number row }
{
    if row < 7 {
        21 + row
    } else if row < 8 {
        31
    } else {
        25 + row
    }
}
