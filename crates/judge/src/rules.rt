// The seven rules, one function each, in the words of the table of reading.
// Each looks whether its own bytes are there, and at nothing that another rule found.
ghost use Rattle.std.specs.Prelude.{◌≡◌, not, ◌+◌, ◌<◌, ◌≤◌, length};
ghost use Rattle.envelope.specs.Addresses.{first_zero, two_addresses};
ghost use Rattle.envelope.specs.Flags.{told_kind, kind_of, bad_flags};
ghost use Rattle.envelope.specs.Heading.{variable_size, field_place, bad_variable_size};
ghost use Rattle.envelope.specs.IntegrityField.{bad_integrity};
ghost use Rattle.envelope.specs.Layout.{header_size, field_size};
ghost use Rattle.judge.specs.Rules.{judged, least_rule, version_rule, flags_rule, variable_size_rule, length_rule, addresses_rule, integrity_rule};
ghost use Rattle.judge.specs.Told.{told_verdict};

use crate::division::divide;
use crate::judging::Verdict;
use envelope::numbers::{four_bytes, three_bytes};
use envelope::{Envelope, Kind};

// 1: fewer than 21 bytes.
#[tactic(auto, unfolding(crate::specs::Rules::least_rule))]
pub(crate) fn least(bytes: &[u8]) -> Verdict
    ensures { told_verdict result ≡ least_rule bytes.now }
{
    verdict(bytes.len(), bytes.len() < Envelope::LEAST_SIZE)
}

// 2: header version is not 4.
#[tactic(auto, unfolding(crate::specs::Rules::version_rule))]
pub(crate) fn version(bytes: &[u8]) -> Verdict
    ensures { told_verdict result ≡ version_rule bytes.now }
{
    if bytes.len() <= Envelope::VERSION_PLACE {
        return Verdict::NotJudged;
    }
    verdict(
        Envelope::VERSION_PLACE,
        bytes[Envelope::VERSION_PLACE] != Envelope::HEADER_VERSION,
    )
}

// 3: an unassigned flag bit is set, or integrity kind 3.
#[tactic(auto, unfolding(crate::specs::Rules::flags_rule))]
pub(crate) fn flags(bytes: &[u8]) -> Verdict
    ensures { told_verdict result ≡ flags_rule bytes.now }
{
    if bytes.len() <= Envelope::FLAGS_PLACE {
        return Verdict::NotJudged;
    }
    verdict(
        Envelope::FLAGS_PLACE,
        bad_flags(bytes[Envelope::FLAGS_PLACE]),
    )
}

// 4: V is 1 to 5, or above 132.
#[tactic(auto, unfolding(crate::specs::Rules::variable_size_rule))]
pub(crate) fn variable_size(bytes: &[u8]) -> Verdict
    ensures { told_verdict result ≡ variable_size_rule bytes.now }
{
    if bytes.len() < Envelope::HEADER_SIZE {
        return Verdict::NotJudged;
    }
    verdict(
        Envelope::VARIABLE_SIZE_PLACE,
        bad_variable_size(usize::from(size_in(bytes))),
    )
}

// 5: 17 + V + D + 4 is not the number of bytes lent.
#[tactic(auto, using(envelope::proofs::HeadingLaws::announced_is), unfolding(crate::specs::Rules::length_rule))]
pub(crate) fn length(bytes: &[u8]) -> Verdict
    ensures { told_verdict result ≡ length_rule bytes.now }
{
    if bytes.len() < Envelope::HEADER_SIZE {
        return Verdict::NotJudged;
    }
    verdict(
        Envelope::DATA_LENGTH_PLACE,
        place_in(bytes) + Envelope::FIELD_SIZE != bytes.len(),
    )
}

// 6: V is not 0 and the addresses break their rule. Judged for V from 6 to 132 alone, on bytes 21 to 16 + V.
#[tactic(auto, using(envelope::proofs::AddressLaws::addresses_present), unfolding(crate::specs::Rules::addresses_rule))]
pub(crate) fn addresses(bytes: &[u8]) -> Verdict
    ensures { told_verdict result ≡ addresses_rule bytes.now }
{
    if bytes.len() < Envelope::HEADER_SIZE {
        return Verdict::NotJudged;
    }
    let v = usize::from(size_in(bytes));
    let end = Envelope::HEADER_SIZE + v;
    if v < Envelope::SMALLEST_VARIABLE || Envelope::LARGEST_VARIABLE < v || bytes.len() < end {
        return Verdict::NotJudged;
    }
    verdict(
        Envelope::ADDRESSES_PLACE,
        bad_region(&bytes[Envelope::ADDRESSES_PLACE..end]),
    )
}

// 7: kind none with a non-zero integrity field, or kind CRC with a field that is not the CRC.
// The field is the four bytes from place 17 + V + D, wherever the bytes lent end.
#[tactic(auto, using(envelope::proofs::HeadingLaws::announced_is), unfolding(crate::specs::Rules::integrity_rule))]
pub(crate) fn integrity(bytes: &[u8]) -> Verdict
    ensures { told_verdict result ≡ integrity_rule bytes.now }
{
    if bytes.len() < Envelope::HEADER_SIZE {
        return Verdict::NotJudged;
    }
    let place = place_in(bytes);
    if bytes.len() < place + Envelope::FIELD_SIZE {
        return Verdict::NotJudged;
    }
    verdict(
        place,
        bad_integrity(bytes, kind_in(bytes[Envelope::FLAGS_PLACE]), place),
    )
}

// Of a rule whose bytes are there, with the place that it names.
fn verdict(place: usize, broken: bool) -> Verdict
    ensures { told_verdict result ≡ judged place broken }
{
    if broken {
        Verdict::Broken(place)
    } else {
        Verdict::Kept
    }
}

#[tactic(auto, unfolding(envelope::specs::Flags::bad_flags))]
fn bad_flags(flags: u8) -> bool
    ensures { result ≡ bad_flags flags }
{
    flags / 32 != 0 || matches!(kind_in(flags), Kind::Unassigned)
}

#[tactic(auto, unfolding(envelope::specs::Heading::bad_variable_size))]
fn bad_variable_size(v: usize) -> bool
    ensures { result ≡ bad_variable_size v }
{
    v != 0 && (v < Envelope::SMALLEST_VARIABLE || Envelope::LARGEST_VARIABLE < v)
}

// The region is not two addresses, each at most 64 bytes with its closing zero.
#[tactic(auto, using(envelope::proofs::AddressLaws::scanned_two, envelope::proofs::AddressLaws::not_two, envelope::proofs::AddressLaws::destination_is))]
fn bad_region(region: &[u8]) -> bool
    ensures { result ≡ not (two_addresses region.now) }
{
    let source = first_zero(region);
    if Envelope::LARGEST_ADDRESS <= source || region.len() <= source {
        return true;
    }
    let destination = first_zero(&region[source + 1..]);
    Envelope::LARGEST_ADDRESS <= destination || source + 1 + (destination + 1) != region.len()
}

#[tactic(auto, using(envelope::proofs::RuleLaws::four_at_is), unfolding(envelope::specs::IntegrityField::bad_integrity))]
fn bad_integrity(bytes: &[u8], kind: Kind, place: usize) -> bool
    requires { place + field_size ≤ length bytes.now }
    ensures { result ≡ bad_integrity bytes.now (told_kind kind) place }
{
    let held = four_bytes(
        bytes[place],
        bytes[place + 1],
        bytes[place + 2],
        bytes[place + 3],
    );
    match kind {
        Kind::None => held != 0,
        Kind::Crc => held != divide(&bytes[..place]),
        Kind::Application | Kind::Unassigned => false,
    }
}

// Bits 3 and 4 of the flags. This and `first_zero` are the judge's own: a slip in the first reader's code is not to be repeated here.
fn kind_in(flags: u8) -> Kind
    ensures { told_kind result ≡ kind_of flags }
{
    match flags / 8 % 4 {
        0 => Kind::None,
        1 => Kind::Crc,
        2 => Kind::Application,
        _ => Kind::Unassigned,
    }
}

// V.
fn size_in(bytes: &[u8]) -> u8
    requires { header_size ≤ length bytes.now }
    ensures { result ≡ variable_size bytes.now }
{
    bytes[Envelope::VARIABLE_SIZE_PLACE]
}

// Where the integrity field should stand: 17 + V + D. That D is a u32 is all that the bound needs.
#[tactic(auto, unfolding(envelope::specs::Numbers::three_at))]
fn place_in(bytes: &[u8]) -> usize
    requires { header_size ≤ length bytes.now }
    ensures { (result ≡ field_place bytes.now) × (result < 4294967569) }
{
    let d = three_bytes(
        bytes[Envelope::DATA_LENGTH_PLACE],
        bytes[Envelope::DATA_LENGTH_PLACE + 1],
        bytes[Envelope::DATA_LENGTH_PLACE + 2],
    );
    Envelope::HEADER_SIZE + usize::from(size_in(bytes)) + d as usize
}

// How many bytes stand before the first zero.
fn first_zero(bytes: &[u8]) -> usize
    ensures { result ≡ first_zero bytes.now }
{
    bytes
        .iter()
        .position(|byte| *byte == 0)
        .unwrap_or(bytes.len())
}
