// The CRC by long division, one binary digit after the other, as it is done by hand.
// It takes no step of the crate `sum`; that both come to the same is proved.
ghost use Rattle.std.specs.Prelude.{◌≡◌, ◌<◌, get_or};
ghost use Rattle.sum.specs.Detection.{bits_of_byte};
ghost use Rattle.judge.specs.Division.{divided_bytes, bring_down, remainder, Divides};

// The polynomial's 33 digits, the highest power first.
const DIVISOR: u64 = 0x1_04C1_1DB7;

// What the final inversion adds.
const ALL_ONES: u32 = 0xFFFF_FFFF;

// 32 digits, in bytes: so many zeros come after the message, and so many bytes at the front are inverted.
const ROOM: usize = 4;

// The remainder of the message, read backwards and inverted: its CRC. The division has the highest power first, a CRC has it last.
#[tactic(auto, using(crate::proofs::StepLaws::bytes_down), unfolding(crate::specs::Division::divided))]
pub fn divide(bytes: &[u8]) -> u32
    ensures { Divides bytes.now result }
{
    let mut left = 0u32;
    // by place: of a chain with four zeros the compiler keeps those as constants in the archive
    for i in 0..bytes.len() + ROOM {
        left = byte_down(left, dividend_byte(bytes, i));
    }
    left.reverse_bits() ^ ALL_ONES
}

// Byte i of what is divided: the message, then four zeros, and the first four of all inverted.
#[tactic(auto, using(crate::proofs::StepLaws::dividend_bytes))]
fn dividend_byte(bytes: &[u8], i: usize) -> u8
    ensures { result ≡ get_or (divided_bytes bytes.now) i 0 }
{
    let byte = bytes.get(i).copied().unwrap_or(0);
    if i < ROOM { 255 - byte } else { byte }
}

// The eight digits of a byte, the lowest first.
#[tactic(auto, using(crate::proofs::StepLaws::digits_down))]
fn byte_down(left: u32, byte: u8) -> u32
    ensures { result ≡ remainder left (bits_of_byte byte) }
{
    let mut so_far = left;
    let mut rest = byte;
    for _digit in 0..8u8 {
        so_far = bring_down(so_far, rest % 2);
        rest /= 2;
    }
    so_far
}

// One step: the next digit comes down, and the divisor is taken away where it goes in, at 33 digits. Without carries, taking away is `^`.
#[tactic(auto, using(crate::proofs::DivisionLaws::taken_lt), unfolding(crate::specs::Division::bring_down))]
fn bring_down(left: u32, digit: u8) -> u32
    requires { digit < 2 }
    ensures { result ≡ bring_down left digit }
{
    let longer = u64::from(left) * 2 + u64::from(digit);
    if longer < 0x1_0000_0000 {
        longer as u32
    } else {
        (longer ^ DIVISOR) as u32
    }
}
