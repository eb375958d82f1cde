// What became of each message sent, for C: the send side of the bench in storage that the caller lends.
ghost use Rattle.sender.specs.Queue.{submit, ack, nak, time_out};
ghost use Rattle.exports.specs.Senders.{sender_lent, AnswersForC, StartsForC, CountsWaitingForC, TellsFlightForC};

use exports::senders::BESIDE;
use sender::Bench;

#[unsafe(no_mangle)]
pub extern "C" fn morlewen_sender_start(numbers: &mut [u64; BESIDE], resends: u64) -> u64
    ensures { StartsForC resends numbers.old result numbers.new }
{
    exports::senders::morlewen_sender_start(numbers, resends)
}

#[unsafe(no_mangle)]
pub extern "C" fn morlewen_sender_submit(
    waiting: &mut [u32; Bench::PLACES],
    numbers: &mut [u64; BESIDE],
    commid: u32,
) -> u64
    ensures { AnswersForC (submit commid) (sender_lent waiting.old numbers.old) result (sender_lent waiting.new numbers.new) }
{
    exports::senders::morlewen_sender_submit(waiting, numbers, commid)
}

#[unsafe(no_mangle)]
pub extern "C" fn morlewen_sender_ack(
    waiting: &mut [u32; Bench::PLACES],
    numbers: &mut [u64; BESIDE],
    commid: u32,
) -> u64
    ensures { AnswersForC (ack commid) (sender_lent waiting.old numbers.old) result (sender_lent waiting.new numbers.new) }
{
    exports::senders::morlewen_sender_ack(waiting, numbers, commid)
}

#[unsafe(no_mangle)]
pub extern "C" fn morlewen_sender_nak(
    waiting: &mut [u32; Bench::PLACES],
    numbers: &mut [u64; BESIDE],
    commid: u32,
) -> u64
    ensures { AnswersForC (nak commid) (sender_lent waiting.old numbers.old) result (sender_lent waiting.new numbers.new) }
{
    exports::senders::morlewen_sender_nak(waiting, numbers, commid)
}

#[unsafe(no_mangle)]
pub extern "C" fn morlewen_sender_time_out(
    waiting: &mut [u32; Bench::PLACES],
    numbers: &mut [u64; BESIDE],
    commid: u32,
) -> u64
    ensures { AnswersForC (time_out commid) (sender_lent waiting.old numbers.old) result (sender_lent waiting.new numbers.new) }
{
    exports::senders::morlewen_sender_time_out(waiting, numbers, commid)
}

// How many wait.
#[unsafe(no_mangle)]
pub extern "C" fn morlewen_sender_waiting(
    waiting: &[u32; Bench::PLACES],
    numbers: &[u64; BESIDE],
) -> u64
    ensures { CountsWaitingForC (sender_lent waiting.now numbers.now) result }
{
    exports::senders::morlewen_sender_waiting(waiting, numbers)
}

// Which one is in flight.
#[unsafe(no_mangle)]
pub extern "C" fn morlewen_sender_flight(numbers: &[u64; BESIDE]) -> u64
    ensures { TellsFlightForC numbers.now result }
{
    exports::senders::morlewen_sender_flight(numbers)
}
