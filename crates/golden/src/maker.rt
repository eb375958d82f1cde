// Make: a message as a fresh record, in a lent buffer.
ghost use Rattle.golden.specs.Making.{Makes};

use crate::record::Record;
use crate::refusal::Refusal;
use envelope::read;

pub fn make(message: &[u8], buffer: &mut [u8]) -> Result<(), Refusal>
    ensures { Makes message.now buffer.old result buffer.new }
{
    if Record::MESSAGE_ROOM < message.len() {
        return Err(Refusal::TooLong);
    }
    read(message).map_err(Refusal::MessageRefused)?;
    if buffer.len() != Record::SIZE {
        return Err(Refusal::WrongBuffer);
    }
    buffer.copy_from_slice(&Record::of(message).bytes);
    Ok(())
}
