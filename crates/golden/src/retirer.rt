// Retire: a file copied to a second buffer with one record marked as retired. The file itself is only read.
ghost use Rattle.std.specs.Prelude.{◌≡◌, length};
ghost use Rattle.golden.specs.Retiring.{marked, done, retiring, told_retiring, Retires};

use crate::record::Record;
use crate::refusal::Refusal;
use crate::stepper::answer_at;

pub fn retire(file: &[u8], n: usize, buffer: &mut [u8]) -> Result<(), Refusal>
    ensures { Retires file.now n buffer.old result buffer.new }
{
    judge(file, n, buffer.len())?;
    put_marked(file, n, buffer);
    Ok(())
}

// The answer, for a buffer of so many bytes.
fn judge(file: &[u8], n: usize, room: usize) -> Result<(), Refusal>
    ensures { told_retiring result ≡ retiring file.now n room }
{
    let stored = answer_at(file, n)?.ok_or(Refusal::NoRecord)?;
    if stored.retired {
        return Err(Refusal::AlreadyRetired);
    }
    if room != file.len() {
        return Err(Refusal::WrongCopy);
    }
    Ok(())
}

fn put_marked(file: &[u8], n: usize, buffer: &mut [u8])
    requires { retiring file.now n (length buffer.old) ≡ done }
    ensures { buffer.new ≡ marked file.now n }
{
    buffer.copy_from_slice(file);
    let place = n * Record::SIZE;
    buffer[place] = Record::TOP_BIT + file[place];
}
