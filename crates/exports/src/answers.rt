// The answer word: a refusal's number, reading's number, a count and a value in one number of 64 bits.
// The numbers for kinds, here and in the other modules, are the C interface (include/morlewen.h).
ghost use Rattle.std.specs.Prelude.{◌≡◌};
ghost use Rattle.envelope.specs.Refusals.{told_numbers};
ghost use Rattle.exports.specs.Helpers.{told_slots, put_over};
ghost use Rattle.exports.specs.Word.{slots, word, numbers_slots, FitsWord};

use envelope::Numbers;

// An answer before it is a word.
#[derive(Clone, Copy)]
pub(crate) struct Slots {
    pub(crate) number: u8,
    pub(crate) reading: u8,
    pub(crate) count: usize,
    pub(crate) value: usize,
}

impl Slots {
    // Done, with a count and a value.
    pub(crate) fn done(count: usize, value: usize) -> Slots
        ensures { told_slots result ≡ slots 0 0 count value }
    {
        Slots {
            number: 0,
            reading: 0,
            count,
            value,
        }
    }

    // A refusal by its numbers, with its place in the value slot, and a count.
    pub(crate) fn refused(numbers: Numbers, count: usize) -> Slots
        ensures { told_slots result ≡ numbers_slots (told_numbers numbers) count }
    {
        Slots {
            number: numbers.number,
            reading: numbers.reading,
            count,
            value: numbers.place,
        }
    }

    pub(crate) fn word(self) -> u64
        requires { FitsWord (told_slots self) }
        ensures { result ≡ word (told_slots self) }
    {
        u64::from(self.number)
            + u64::from(self.reading) * 256
            + (self.count as u64) * 65536
            + (self.value as u64) * 4294967296
    }
}

// Numbers into what is lent; where there are none, it stays as it was.
pub(crate) fn put<const N: usize>(numbers: Option<[u64; N]>, lent: &mut [u64; N])
    ensures { lent.new ≡ put_over numbers.entry lent.old }
{
    if let Some(numbers) = numbers {
        *lent = numbers;
    }
}
