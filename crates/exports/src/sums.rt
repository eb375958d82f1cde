// The integrity sum, for C.
ghost use Rattle.sum.specs.Promise.{Sums};

pub fn morlewen_crc(bytes: &[u8]) -> u32
    ensures { Sums bytes.now result }
{
    sum::crc(bytes)
}
