// A refusal of any library, told by its numbers.
// Rests on `envelope` for the numbers and on `wording` for the words.
use envelope::Numbers;
use wording::refusals::{Subject, What};
use wording::{Teller, Told};

pub fn refuse(
    teller: &Teller<'_, impl Print + Eprint>,
    of: Subject,
    refusal: impl Into<Numbers>,
) -> Told {
    let numbers: Numbers = refusal.into();
    teller.refuse(of, numbers.number, numbers.reading, numbers.place)
}

// Of a message by itself, or of one that something was to be made of.
pub fn refuse_message(
    teller: &Teller<'_, impl Print + Eprint>,
    what: What,
    refusal: impl Into<Numbers>,
) -> Told {
    refuse(teller, Subject::by_itself(what), refusal)
}
