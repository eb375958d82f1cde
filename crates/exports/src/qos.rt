// The QoS field, for C.
ghost use Rattle.std.specs.Prelude.{◌≡◌};
ghost use Rattle.envelope.specs.Qos.{told_joining};
ghost use Rattle.exports.specs.Envelopes.{SplitsForC, qos_for, join_slots, JoinsForC};
ghost use Rattle.exports.specs.Word.{word};

use crate::answers::Slots;
use envelope::qos;
use envelope::qos::Qos;

// How many numbers a QoS field is.
pub const QOS_PARTS: usize = 5;

pub fn morlewen_qos_split(field: u16, parts: &mut [u8; QOS_PARTS])
    ensures { SplitsForC field parts.new }
{
    let split = qos::split(field);
    *parts = [
        split.service_request,
        split.special_handling,
        split.network_preference,
        split.priority,
        split.class,
    ];
}

pub fn morlewen_qos_join(
    service_request: u8,
    special_handling: u8,
    network_preference: u8,
    priority: u8,
    class: u8,
) -> u64
    ensures { JoinsForC (qos_for service_request special_handling network_preference priority class) result }
{
    join_word(qos::join(Qos {
        service_request,
        special_handling,
        network_preference,
        priority,
        class,
    }))
}

fn join_word(joining: Option<u16>) -> u64
    ensures { result ≡ word (join_slots (told_joining joining)) }
{
    match joining {
        Some(field) => Slots::done(0, usize::from(field)).word(),
        None => Slots {
            number: 41,
            reading: 0,
            count: 0,
            value: 0,
        }
        .word(),
    }
}
