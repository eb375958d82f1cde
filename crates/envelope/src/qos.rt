// The QoS field of a variable header and its five numbers.
ghost use Rattle.envelope.specs.Qos.{Splits, Joins};

#[derive(Clone, Copy)]
pub struct Qos {
    pub service_request: u8,
    pub special_handling: u8,
    pub network_preference: u8,
    pub priority: u8,
    pub class: u8,
}

// The way back of join, and so named beside it: From would name this one way alone.
#[tactic(auto, unfolding(crate::specs::Qos::splitting))]
pub fn split(qos: u16) -> Qos
    ensures { Splits qos result }
{
    Qos {
        service_request: (qos >> 13) as u8,
        special_handling: (qos >> 9 & 15) as u8,
        network_preference: (qos >> 6 & 7) as u8,
        priority: (qos >> 3 & 7) as u8,
        class: (qos & 7) as u8,
    }
}

// Nothing where a number does not fit its bits.
#[tactic(auto, using(crate::proofs::QosLaws::in_their_bits), unfolding(crate::specs::Qos::joining))]
pub fn join(qos: Qos) -> Option<u16>
    ensures { Joins qos result }
{
    if qos.service_request < 8
        && qos.special_handling < 16
        && qos.network_preference < 8
        && qos.priority < 8
        && qos.class < 8
    {
        return Some(
            u16::from(qos.service_request) << 13
                | u16::from(qos.special_handling) << 9
                | u16::from(qos.network_preference) << 6
                | u16::from(qos.priority) << 3
                | u16::from(qos.class),
        );
    }
    None
}
