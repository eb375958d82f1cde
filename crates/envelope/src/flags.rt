// The flags byte: what each part of it says, and rule 3.
ghost use Rattle.std.specs.Prelude.{◌≡◌, ◌<◌, ◌/◌, ◌%◌, ◌^◌, ◌==◌};
ghost use Rattle.envelope.specs.Flags.{bad_flags, TellsTime, TellsEncryption, TellsCompression, TellsKind};

use crate::fields::Kind;

pub fn time_is_absolute(flags: u8) -> bool
    ensures { TellsTime flags result }
{
    is_set(flags, 0)
}

pub fn is_encrypted(flags: u8) -> bool
    ensures { TellsEncryption flags result }
{
    is_set(flags, 1)
}

pub fn is_compressed(flags: u8) -> bool
    ensures { TellsCompression flags result }
{
    is_set(flags, 2)
}

// Bit 0 is the lowest.
fn is_set(flags: u8, bit: u32) -> bool
    requires { bit < 8 }
    ensures { result ≡ (flags / 2 ^ bit % 2 == 1) }
{
    flags >> bit & 1 == 1
}

pub fn kind(flags: u8) -> Kind
    ensures { TellsKind flags result }
{
    match flags >> 3 & 0b11 {
        0 => Kind::None,
        1 => Kind::Crc,
        2 => Kind::Application,
        _ => Kind::Unassigned,
    }
}

#[tactic(auto, using(crate::proofs::FlagLaws::unassigned_is), unfolding(crate::specs::Flags::bad_flags))]
pub(crate) fn bad_flags(flags: u8) -> bool
    ensures { result ≡ bad_flags flags }
{
    flags >> 5 != 0 || kind(flags) == Kind::Unassigned
}
