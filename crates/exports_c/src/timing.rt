// Time and sequence, for C.
ghost use Rattle.envelope.specs.Sequence.{Distance};
ghost use Rattle.exports.specs.Envelopes.{JudgesLatenessForC, JudgesSequenceForC};

#[unsafe(no_mangle)]
pub extern "C" fn morlewen_lateness_from_entry(
    addressed: u8,
    ttl: u16,
    entry: u64,
    clock: u64,
) -> u8
    ensures { JudgesLatenessForC addressed ttl entry clock result }
{
    exports::timing::morlewen_lateness_from_entry(addressed, ttl, entry, clock)
}

#[unsafe(no_mangle)]
pub extern "C" fn morlewen_distance(old: u32, new: u32) -> i32
    ensures { Distance old new result }
{
    exports::timing::morlewen_distance(old, new)
}

#[unsafe(no_mangle)]
pub extern "C" fn morlewen_sequence(old: u32, new: u32) -> u64
    ensures { JudgesSequenceForC old new result }
{
    exports::timing::morlewen_sequence(old, new)
}
