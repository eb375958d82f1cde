// Whether a message is late at a clock, counted from its entry into the messaging infrastructure, both in seconds.
ghost use Rattle.std.specs.Prelude.{◌≡◌};
ghost use Rattle.envelope.specs.Lateness.{late_after, JudgesLateness};

use crate::fields::Envelope;

#[derive(Clone, Copy)]
pub enum Lateness {
    NoClock,
    Late,
    InTime,
}

#[tactic(auto, unfolding(crate::specs::Lateness::lateness_of))]
pub fn judge(envelope: Envelope, entry: u64, clock: u64) -> Lateness
    ensures { JudgesLateness envelope entry clock result }
{
    let Some(addressing) = envelope.addressing else {
        return Lateness::NoClock;
    };
    if addressing.ttl == 0 {
        return Lateness::NoClock;
    }
    if late_after(entry, addressing.ttl, clock) {
        return Lateness::Late;
    }
    Lateness::InTime
}

// By subtraction: the sum of entry and TTL may be past the type.
fn late_after(entry: u64, ttl: u16, clock: u64) -> bool
    ensures { result ≡ late_after entry ttl clock }
{
    u64::from(ttl) < clock.saturating_sub(entry)
}
