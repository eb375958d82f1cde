// The judge, for C: a verdict for each rule into a lent array, and the places of the broken ones into another.
ghost use Rattle.std.specs.Prelude.{◌≡◌};
ghost use Rattle.judge.specs.Told.{told_verdict, told_judging, told_lowest};
ghost use Rattle.exports.specs.Helpers.{verdicts_in_order, told_slots};
ghost use Rattle.exports.specs.Verdicts.{verdict_number, verdict_numbers, place_number, place_numbers, lowest_slots, JudgesForC, verdict_lent, JudgesPlacesForC};

use crate::answers::Slots;
use envelope::Refusal;
use judge::{Judging, Verdict, judge};

// How many rules reading has.
pub const RULES: usize = 7;

pub fn morlewen_judge(bytes: &[u8], verdicts: &mut [u8; RULES]) -> u64
    ensures { JudgesForC bytes.now result verdicts.new }
{
    let judging = judge(bytes);
    *verdicts = verdict_numbers(judging);
    lowest_slots(judging.lowest()).word()
}

pub fn morlewen_judge_places(
    bytes: &[u8],
    verdicts: &mut [u8; RULES],
    places: &mut [u64; RULES],
) -> u64
    ensures { JudgesPlacesForC bytes.now result (verdict_lent verdicts.new places.new) }
{
    let judging = judge(bytes);
    *verdicts = verdict_numbers(judging);
    *places = place_numbers(judging);
    lowest_slots(judging.lowest()).word()
}

// A number in the first slot would be a refusal, and a judge refuses nothing.
fn lowest_slots(lowest: Option<Refusal>) -> Slots
    ensures { told_slots result ≡ lowest_slots (told_lowest lowest) }
{
    match lowest {
        None => Slots::done(0, 0),
        Some(refusal) => Slots {
            number: 0,
            reading: u8::from(refusal.fault),
            count: 0,
            value: refusal.place,
        },
    }
}

fn verdict_numbers(judging: Judging) -> [u8; RULES]
    ensures { result ≡ verdict_numbers (told_judging judging) }
{
    in_order(judging).map(verdict_number)
}

fn verdict_number(verdict: Verdict) -> u8
    ensures { result ≡ verdict_number (told_verdict verdict) }
{
    match verdict {
        Verdict::Kept => 0,
        Verdict::Broken(_) => 1,
        Verdict::NotJudged => 2,
    }
}

fn place_numbers(judging: Judging) -> [u64; RULES]
    ensures { result ≡ place_numbers (told_judging judging) }
{
    in_order(judging).map(place_number)
}

// The verdicts in the order of the rules.
fn in_order(judging: Judging) -> [Verdict; RULES]
    ensures { result ≡ verdicts_in_order judging }
{
    [
        judging.least,
        judging.version,
        judging.flags,
        judging.variable_size,
        judging.length,
        judging.addresses,
        judging.integrity,
    ]
}

fn place_number(verdict: Verdict) -> u64
    ensures { result ≡ place_number (told_verdict verdict) }
{
    match verdict {
        Verdict::Broken(place) => place as u64,
        Verdict::Kept => 0,
        Verdict::NotJudged => 0,
    }
}
