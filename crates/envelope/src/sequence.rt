// From an old message number to a new one.
ghost use Rattle.envelope.specs.Sequence.{Distance, JudgesSequence};

#[derive(Clone, Copy)]
pub enum Sequence {
    Repeat,
    Next,
    Ahead(u32),
    Behind(u32),
}

// From half of the numbers there are on, a difference counts as backward.
pub fn distance(old: u32, new: u32) -> i32
    ensures { Distance old new result }
{
    new.wrapping_sub(old).cast_signed()
}

pub fn judge(old: u32, new: u32) -> Sequence
    ensures { JudgesSequence old new result }
{
    match distance(old, new) {
        0 => Sequence::Repeat,
        1 => Sequence::Next,
        distance if distance < 0 => Sequence::Behind(distance.unsigned_abs()),
        distance => Sequence::Ahead(distance.unsigned_abs()),
    }
}
