// The judge, for C: a verdict for each rule into a lent array, and the places of the broken ones into another.
ghost use Rattle.exports.specs.Verdicts.{JudgesForC, verdict_lent, JudgesPlacesForC};

use exports::verdicts::RULES;

#[unsafe(no_mangle)]
pub extern "C" fn morlewen_judge(bytes: &[u8], verdicts: &mut [u8; RULES]) -> u64
    ensures { JudgesForC bytes.now result verdicts.new }
{
    exports::verdicts::morlewen_judge(bytes, verdicts)
}

#[unsafe(no_mangle)]
pub extern "C" fn morlewen_judge_places(
    bytes: &[u8],
    verdicts: &mut [u8; RULES],
    places: &mut [u64; RULES],
) -> u64
    ensures { JudgesPlacesForC bytes.now result (verdict_lent verdicts.new places.new) }
{
    exports::verdicts::morlewen_judge_places(bytes, verdicts, places)
}
