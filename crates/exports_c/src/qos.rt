// The QoS field, for C.
ghost use Rattle.exports.specs.Envelopes.{SplitsForC, qos_for, JoinsForC};

use exports::qos::QOS_PARTS;

#[unsafe(no_mangle)]
pub extern "C" fn morlewen_qos_split(field: u16, parts: &mut [u8; QOS_PARTS])
    ensures { SplitsForC field parts.new }
{
    exports::qos::morlewen_qos_split(field, parts)
}

#[unsafe(no_mangle)]
pub extern "C" fn morlewen_qos_join(
    service_request: u8,
    special_handling: u8,
    network_preference: u8,
    priority: u8,
    class: u8,
) -> u64
    ensures { JoinsForC (qos_for service_request special_handling network_preference priority class) result }
{
    exports::qos::morlewen_qos_join(
        service_request,
        special_handling,
        network_preference,
        priority,
        class,
    )
}
