// The integrity sum of a message: CRC-32, eight bytes at a time, with no table.
// Rests on nothing; the layers above know only what `crc` promises.
//
// Adding is exclusive or throughout. A message is one long number, its first bit lowest, with all ones added to its first 32 bits.
// A bit step drops the lowest bit, and where that was a 1 it adds EDB88320 to what is left; a step for each bit leaves the state.
// With the bit that it drops, that is adding P = 1 + 2 * EDB88320, of 33 bits, and then shifting.
// `multiple` (specs/Words) is a multiple of P, so such steps leave nothing of it. They are linear, so adding it anywhere changes no
// state, as long as it ends within the 32 bits after the message, which are all that can be left.
// It has its lowest bit, none of the next 63, and eight more. Added at each 1 of a word of 64 bits it clears that word, and what it
// leaves in the two words after is the word itself, shifted eight ways: `word_step`, by twelve shifts in place of a table.
// Near the end there is no room for it. The last bytes, eighteen at most, are taken four at a time and then one by one: they are
// shifted out, and what their bit steps leave, 32 steps at once (`settle`), is added.
#![tactic(auto)]

ghost use Rattle.std.specs.Prelude.{◌≡◌, ◌^◌, ◌<◌, ◌≤◌};
ghost use Rattle.sum.specs.Crc.{all_ones, bit_steps, state_after};
ghost use Rattle.sum.specs.Promise.{Sums};
ghost use Rattle.sum.specs.Words.{Takes, leads_to};

// The start value, and what the final inversion adds.
const ALL_ONES: u32 = 0xFFFF_FFFF;

// The bytes that must follow a word: at its last bit `multiple` ends 120 bits on, of which 32 may lie past the message, and 88 are left.
const ROOM: usize = 11;

// What is still to be added to the bytes to come: to the first eight, and to the eight after them.
#[derive(Clone, Copy)]
struct Pending {
    word: u64,
    after: u64,
}

// The bytes to come, and what is pending there.
#[derive(Clone, Copy)]
struct Stage<'a> {
    rest: &'a [u8],
    pending: Pending,
}

// The sum of the bytes lent.
pub fn crc(bytes: &[u8]) -> u32
    ensures { Sums bytes.now result }
{
    let words = by_words(bytes);
    let halves = by_halves(words.rest, words.pending);
    let state = by_bytes(halves.rest, halves.pending);
    state ^ ALL_ONES
}

// From the first byte on, word after word, while there is room.
fn by_words(bytes: &[u8]) -> Stage<'_>
    ensures { leads_to result.rest.now result.pending ≡ state_after all_ones bytes.now }
{
    let mut rest = bytes;
    let mut pending = Pending {
        word: u64::from(ALL_ONES),
        after: 0,
    };
    while let Some((word, after)) = rest.split_first_chunk() {
        if after.len() < ROOM {
            break;
        }
        pending = word_step(pending, u64::from_le_bytes(*word));
        rest = after;
    }
    Stage { rest, pending }
}

// Four bytes at a time, while there are four.
// The three loops stay three: the library reads eight bytes, four and one by functions of their types, and a trait over them is longer.
fn by_halves(bytes: &[u8], mut pending: Pending) -> Stage<'_>
    ensures { leads_to result.rest.now result.pending ≡ leads_to bytes.now pending }
{
    let mut rest = bytes;
    while let Some((half, after)) = rest.split_first_chunk() {
        pending = bits_step::<32>(pending, u32::from_le_bytes(*half));
        rest = after;
    }
    Stage { rest, pending }
}

// The last bytes, one by one. What is pending at the end is the state.
fn by_bytes(bytes: &[u8], mut pending: Pending) -> u32
    requires { leads_to bytes.now pending < 2 ^ 32 }
    ensures { result ≡ leads_to bytes.now pending }
{
    for byte in bytes {
        pending = bits_step::<8>(pending, u32::from(*byte));
    }
    pending.word as u32
}

// A word: `multiple` at each 1 of it. A term 2^e sends the word e bits up: `lower` stays in the next word, `upper` goes on into the one after.
fn word_step(pending: Pending, word: u64) -> Pending
    ensures { Takes 64 88 pending word result }
{
    let w = pending.word ^ word;
    // The last four terms are 2^111 * (1 + 2) * (1 + 2^8).
    let up = w ^ (w << 8);
    let lower = w ^ (w << 16) ^ (w << 23) ^ (w << 41) ^ ((up ^ (up << 1)) << 47);
    let down = w ^ (w >> 8);
    let upper = (w >> 48) ^ (w >> 41) ^ (w >> 23) ^ ((down ^ (down >> 1)) >> 8);
    Pending {
        word: pending.after ^ lower,
        after: upper,
    }
}

// At most 32 bits: they are shifted out, and what their bit steps leave is added. These are the last of 32, with zeros in front.
fn bits_step<const BITS: u32>(pending: Pending, bits: u32) -> Pending
    requires few { (0 < BITS) × (BITS ≤ 32) }
    requires fits { bits < 2 ^ BITS }
    ensures { Takes BITS 0 pending bits result }
{
    let top = ((pending.word ^ u64::from(bits)) << (32 - BITS)) % 0x1_0000_0000;
    let left = settle(top as u32);
    Pending {
        word: (pending.after << (64 - BITS)) ^ (pending.word >> BITS) ^ u64::from(left),
        after: pending.after >> BITS,
    }
}

// 32 bit steps at once. `quotient` times P has the number as its 32 low bits, and the steps leave what is above.
fn settle(low: u32) -> u32
    ensures { result ≡ bit_steps 32 low }
{
    // P's inverse has 13 terms below 2^32: five single ones, and four pairs, the second of each two places above the first.
    let pair = low ^ (low << 2);
    let single = low ^ (low << 6) ^ (low << 9) ^ (low << 16) ^ (low << 25);
    let quotient = single ^ (pair << 10) ^ (pair << 24) ^ (pair << 28) ^ (pair << 29);
    // Of P's 15 terms the lowest leaves nothing above; of the others four are single, and ten stand in pairs of neighbours.
    let beside = quotient ^ (quotient >> 1);
    let alone = quotient ^ (quotient >> 26) ^ (quotient >> 16) ^ (quotient >> 10);
    alone ^ (beside >> 22) ^ (beside >> 11) ^ (beside >> 7) ^ (beside >> 4) ^ (beside >> 1)
}
