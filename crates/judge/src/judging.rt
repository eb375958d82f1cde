// Judging a message by every rule of the table of reading, whatever the other rules find.
// The answer has a verdict for each rule, and its lowest broken one is the refusal that reading gives.
ghost use Rattle.std.specs.Prelude.{◌≡◌};
ghost use Rattle.judge.specs.Helpers.{refused_as};
ghost use Rattle.judge.specs.Told.{Judges, TellsLowest};

use crate::rules;
use envelope::{Fault, Refusal};

// What became of a rule. One that was not judged counts as not broken. Three outcomes: neither Option nor Result has a name for each.
#[derive(Clone, Copy)]
pub enum Verdict {
    Kept,
    // at this place of the message
    Broken(usize),
    // its bytes are not all there, or, of rule 6, V is not 6 to 132
    NotJudged,
}

// A verdict for each rule, in the order of the table: 1 to 7.
#[derive(Clone, Copy)]
pub struct Judging {
    pub least: Verdict,
    pub version: Verdict,
    pub flags: Verdict,
    pub variable_size: Verdict,
    pub length: Verdict,
    pub addresses: Verdict,
    pub integrity: Verdict,
}

pub fn judge(bytes: &[u8]) -> Judging
    ensures { Judges bytes.now result }
{
    Judging {
        least: rules::least(bytes),
        version: rules::version(bytes),
        flags: rules::flags(bytes),
        variable_size: rules::variable_size(bytes),
        length: rules::length(bytes),
        addresses: rules::addresses(bytes),
        integrity: rules::integrity(bytes),
    }
}

impl Judging {
    // The broken rule with the lowest number, as reading refuses it.
    pub fn lowest(self) -> Option<Refusal>
        ensures { TellsLowest self result }
    {
        refused_as(self.least, Fault::TooShort)
            .or(refused_as(self.version, Fault::WrongVersion))
            .or(refused_as(self.flags, Fault::BadFlags))
            .or(refused_as(self.variable_size, Fault::BadVariableSize))
            .or(refused_as(self.length, Fault::WrongLength))
            .or(refused_as(self.addresses, Fault::BadAddresses))
            .or(refused_as(self.integrity, Fault::BadIntegrity))
    }
}

// The refusal of a rule that is broken.
fn refused_as(verdict: Verdict, fault: Fault) -> Option<Refusal>
    ensures { result ≡ refused_as verdict fault }
{
    match verdict {
        Verdict::Broken(place) => Some(Refusal { fault, place }),
        Verdict::Kept | Verdict::NotJudged => None,
    }
}
