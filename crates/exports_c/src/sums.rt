// The integrity sum, for C.
ghost use Rattle.sum.specs.Promise.{Sums};

#[unsafe(no_mangle)]
pub extern "C" fn morlewen_crc(bytes: &[u8]) -> u32
    ensures { Sums bytes.now result }
{
    exports::sums::morlewen_crc(bytes)
}
