// Big-endian numbers: from bytes by value, from a place of a slice, and back into bytes.
// One name for each width: the library has a type for two and for four bytes, and none for three.
ghost use Rattle.std.specs.Prelude.{◌≡◌, ℕ, ◌+◌, ◌<◌, ◌≤◌, length, slice_index};
ghost use Rattle.envelope.specs.Numbers.{TwoBytes, ThreeBytes, FourBytes, two_at, three_at, four_at, in_three, TwoDigits, FourDigits};

pub fn two_bytes(a: u8, b: u8) -> u16
    ensures { TwoBytes a b result }
{
    u16::from_be_bytes([a, b])
}

pub fn three_bytes(a: u8, b: u8, c: u8) -> u32
    ensures { ThreeBytes a b c result }
{
    u32::from_be_bytes([0, a, b, c])
}

pub fn four_bytes(a: u8, b: u8, c: u8, d: u8) -> u32
    ensures { FourBytes a b c d result }
{
    u32::from_be_bytes([a, b, c, d])
}

pub fn two_digits(number: u16) -> [u8; 2]
    ensures { TwoDigits number result }
{
    number.to_be_bytes()
}

// Three bytes do not hold every number.
pub(crate) fn three_digits(number: u32) -> [u8; 3]
    requires { number < 16777216 }
    ensures { result ≡ in_three number }
{
    let [_, a, b, c] = number.to_be_bytes();
    [a, b, c]
}

pub fn four_digits(number: u32) -> [u8; 4]
    ensures { FourDigits number result }
{
    number.to_be_bytes()
}

// The bytes from a place, as many as their number has.
fn at<const N: usize>(bytes: &[u8], place: usize) -> [u8; N]
    requires { place + N ≤ length bytes.now }
    ensures { (k : ℕ) → k < N → slice_index result k ≡ slice_index bytes.now (place + k) }
{
    let mut part = [0; N];
    part.copy_from_slice(&bytes[place..place + N]);
    part
}

#[tactic(auto, unfolding(crate::specs::Numbers::two_at))]
pub(crate) fn two_at(bytes: &[u8], place: usize) -> u16
    requires { place + 2 ≤ length bytes.now }
    ensures { result ≡ two_at bytes.now place }
{
    u16::from_be_bytes(at(bytes, place))
}

#[tactic(auto, unfolding(crate::specs::Numbers::three_at))]
pub(crate) fn three_at(bytes: &[u8], place: usize) -> u32
    requires { place + 3 ≤ length bytes.now }
    ensures { result ≡ three_at bytes.now place }
{
    let [a, b, c] = at::<3>(bytes, place);
    u32::from_be_bytes([0, a, b, c])
}

#[tactic(auto, unfolding(crate::specs::Numbers::four_at))]
pub(crate) fn four_at(bytes: &[u8], place: usize) -> u32
    requires { place + 4 ≤ length bytes.now }
    ensures { result ≡ four_at bytes.now place }
{
    u32::from_be_bytes(at(bytes, place))
}
