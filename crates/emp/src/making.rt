// Sum, make and retire: the CRC of a file; and the record of a message, or a copy of a golden file, on standard output and nowhere else.
// Rests on `sum` and on `golden`, which work them out.
use crate::refusing::{refuse, refuse_message};
use golden::{Record, make, retire, stored_message};
use sum::crc;
use wording::refusals::{Subject, What, Whole};
use wording::{Row, Status, Teller, Told};

pub fn sum_file(teller: &Teller<'_, impl Print + Eprint>, file: &[u8]) -> Told {
    teller.tell(
        Status::Done,
        Row::Sum,
        &[u64::from(crc(file)), file.len() as u64],
        file,
    )
}

pub fn make_record(teller: &Teller<'_, impl Print + Eprint>, message: &[u8]) -> Told {
    let mut record = [0u8; Record::SIZE];
    match make(message, &mut record) {
        Ok(()) => teller.put(&record, Status::Done),
        Err(refusal) => refuse_message(teller, What::ToBeMade, refusal),
    }
}

// The copy is lent in just the file's length; a file too long for any copy is refused before that is looked at.
pub fn retire_record(teller: &Teller<'_, impl Print + Eprint>, file: &[u8], record: usize) -> Told {
    let mut buffer = [0u8; Record::LARGEST_FILE];
    let copy = &mut buffer[..file.len().min(Record::LARGEST_FILE)];
    match retire(file, record, copy) {
        Ok(()) => teller.put(copy, Status::Done),
        Err(refusal) => {
            let message = stored_message(file, record);
            let of = Subject {
                what: What::ToBeMade,
                whole: Whole::File {
                    from: message.place as u64,
                },
            };
            refuse(teller, of, refusal)
        }
    }
}
