// Golden files, for C. The file is only read.
ghost use Rattle.exports.specs.Goldens.{name_for, CountsForC, CountsRetiredForC, ChecksForC, FindsForC, HalvesForC, OrdersForC, EntersForC, StepsForC, ComparesForC, MakesForC, RetiresForC};

use exports::goldens::{LINE, PART};

#[unsafe(no_mangle)]
pub extern "C" fn morlewen_records(file: &[u8]) -> u64
    ensures { CountsForC file.now result }
{
    exports::goldens::morlewen_records(file)
}

#[unsafe(no_mangle)]
pub extern "C" fn morlewen_retired_records(file: &[u8]) -> u64
    ensures { CountsRetiredForC file.now result }
{
    exports::goldens::morlewen_retired_records(file)
}

#[unsafe(no_mangle)]
pub extern "C" fn morlewen_check(file: &[u8]) -> u64
    ensures { ChecksForC file.now result }
{
    exports::goldens::morlewen_check(file)
}

#[unsafe(no_mangle)]
pub extern "C" fn morlewen_find(file: &[u8], message_type: u16, number: u32) -> u64
    ensures { FindsForC file.now (name_for message_type number) result }
{
    exports::goldens::morlewen_find(file, message_type, number)
}

#[unsafe(no_mangle)]
pub extern "C" fn morlewen_find_by_halving(file: &[u8], message_type: u16, number: u32) -> u64
    ensures { HalvesForC file.now (name_for message_type number) result }
{
    exports::goldens::morlewen_find_by_halving(file, message_type, number)
}

#[unsafe(no_mangle)]
pub extern "C" fn morlewen_ascending(file: &[u8]) -> u64
    ensures { OrdersForC file.now result }
{
    exports::goldens::morlewen_ascending(file)
}

#[unsafe(no_mangle)]
pub extern "C" fn morlewen_line(file: &[u8], record: usize, line: &mut [u64; LINE]) -> u64
    ensures { EntersForC file.now «record» line.old result line.new }
{
    exports::goldens::morlewen_line(file, record, line)
}

#[unsafe(no_mangle)]
pub extern "C" fn morlewen_step(file: &[u8], record: usize, part: &mut [u64; PART]) -> u64
    ensures { StepsForC file.now «record» part.old result part.new }
{
    exports::goldens::morlewen_step(file, record, part)
}

#[unsafe(no_mangle)]
pub extern "C" fn morlewen_compare(
    file: &[u8],
    record: usize,
    radio: &[u8],
    places: &mut [u32],
) -> u64
    ensures { ComparesForC file.now «record» radio.now places.old result places.new }
{
    exports::goldens::morlewen_compare(file, record, radio, places)
}

#[unsafe(no_mangle)]
pub extern "C" fn morlewen_make(message: &[u8], buffer: &mut [u8]) -> u64
    ensures { MakesForC message.now buffer.old result buffer.new }
{
    exports::goldens::morlewen_make(message, buffer)
}

#[unsafe(no_mangle)]
pub extern "C" fn morlewen_retire(file: &[u8], record: usize, buffer: &mut [u8]) -> u64
    ensures { RetiresForC file.now «record» buffer.old result buffer.new }
{
    exports::goldens::morlewen_retire(file, record, buffer)
}
