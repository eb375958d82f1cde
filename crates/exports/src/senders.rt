// What became of each message sent, for C: the send side of the bench in storage that the caller lends.
// Any content of the storage is a state, and what a call leaves there is the state that the next one finds.
ghost use Rattle.std.specs.Prelude.{◌≡◌};
ghost use Rattle.sender.specs.Queue.{submit, ack, nak, time_out};
ghost use Rattle.sender.specs.Told.{told_next, told_answer, told_bench, told_event, told_flight, told_start};
ghost use Rattle.exports.specs.Senders.{slot_for, beside_for, flight_commid, flight_number, beside_numbers, next_slots, reply_slots, numbers_after, sender_lent, AnswersForC, start_slots, StartsForC, CountsWaitingForC, TellsFlightForC};
ghost use Rattle.exports.specs.Word.{word};

use crate::answers::{Slots, put};
use envelope::Numbers;
use sender::{Answer, Bench, Event, Flight, Refusal};

// How many numbers stand beside the places of those that wait.
pub const BESIDE: usize = 4;

pub fn morlewen_sender_start(numbers: &mut [u64; BESIDE], resends: u64) -> u64
    ensures { StartsForC resends numbers.old result numbers.new }
{
    let start = Bench::new(resends);
    put(start.ok().map(bench_numbers), numbers);
    start_word(start)
}

pub fn morlewen_sender_submit(
    waiting: &mut [u32; Bench::PLACES],
    numbers: &mut [u64; BESIDE],
    commid: u32,
) -> u64
    ensures { AnswersForC (submit commid) (sender_lent waiting.old numbers.old) result (sender_lent waiting.new numbers.new) }
{
    take(waiting, numbers, Event::Submit(commid))
}

pub fn morlewen_sender_ack(
    waiting: &mut [u32; Bench::PLACES],
    numbers: &mut [u64; BESIDE],
    commid: u32,
) -> u64
    ensures { AnswersForC (ack commid) (sender_lent waiting.old numbers.old) result (sender_lent waiting.new numbers.new) }
{
    take(waiting, numbers, Event::Ack(commid))
}

pub fn morlewen_sender_nak(
    waiting: &mut [u32; Bench::PLACES],
    numbers: &mut [u64; BESIDE],
    commid: u32,
) -> u64
    ensures { AnswersForC (nak commid) (sender_lent waiting.old numbers.old) result (sender_lent waiting.new numbers.new) }
{
    take(waiting, numbers, Event::Nak(commid))
}

pub fn morlewen_sender_time_out(
    waiting: &mut [u32; Bench::PLACES],
    numbers: &mut [u64; BESIDE],
    commid: u32,
) -> u64
    ensures { AnswersForC (time_out commid) (sender_lent waiting.old numbers.old) result (sender_lent waiting.new numbers.new) }
{
    take(waiting, numbers, Event::TimeOut(commid))
}

// How many wait.
pub fn morlewen_sender_waiting(waiting: &[u32; Bench::PLACES], numbers: &[u64; BESIDE]) -> u64
    ensures { CountsWaitingForC (sender_lent waiting.now numbers.now) result }
{
    Slots::done(bench_of(numbers).waiting(waiting), 0).word()
}

// Which one is in flight.
pub fn morlewen_sender_flight(numbers: &[u64; BESIDE]) -> u64
    ensures { TellsFlightForC numbers.now result }
{
    let flight = bench_of(numbers).flight;
    Slots::done(
        flight_number(flight) as usize,
        flight_commid(flight) as usize,
    )
    .word()
}

// An event: the bench out of its numbers, and back into them.
// Always inlined: each caller knows which event it is. By a call it and the bench go through memory and jump tables.
#[inline(always)]
fn take(waiting: &mut [u32; Bench::PLACES], numbers: &mut [u64; BESIDE], event: Event) -> u64
    ensures { AnswersForC (told_event event) (sender_lent waiting.old numbers.old) result (sender_lent waiting.new numbers.new) }
{
    let mut bench = bench_of(numbers);
    let answer = bench.take(waiting, event);
    put_bench(answer, bench, numbers);
    answer_word(answer)
}

fn bench_of(numbers: &[u64; BESIDE]) -> Bench
    ensures { told_bench result ≡ beside_for numbers.now }
{
    Bench {
        resends: (numbers[0] % 256) as u8,
        flight: flight_of(numbers[2], numbers[3]),
        count: numbers[1] as usize,
    }
}

fn flight_of(commid: u64, number: u64) -> Option<Flight>
    ensures { told_flight result ≡ slot_for commid number }
{
    if number == 0 {
        return None;
    }
    Some(Flight {
        commid: (commid % 4294967296) as u32,
        left: ((number - 1) % 256) as u8,
    })
}

fn bench_numbers(bench: Bench) -> [u64; BESIDE]
    ensures { result ≡ beside_numbers (told_bench bench) }
{
    [
        u64::from(bench.resends),
        bench.count as u64,
        flight_commid(bench.flight),
        flight_number(bench.flight),
    ]
}

fn flight_commid(flight: Option<Flight>) -> u64
    ensures { result ≡ flight_commid (told_flight flight) }
{
    flight.map_or(0, |flight| u64::from(flight.commid))
}

fn flight_number(flight: Option<Flight>) -> u64
    ensures { result ≡ flight_number (told_flight flight) }
{
    flight.map_or(0, |flight| u64::from(flight.left) + 1)
}

// A refusal leaves the numbers as they were.
fn put_bench(answer: Result<Answer, Refusal>, bench: Bench, numbers: &mut [u64; BESIDE])
    ensures { numbers.new ≡ numbers_after (told_answer answer) (told_bench bench) numbers.old }
{
    if answer.is_ok() {
        *numbers = bench_numbers(bench);
    }
}

fn answer_word(reply: Result<Answer, Refusal>) -> u64
    ensures { result ≡ word (reply_slots (told_answer reply)) }
{
    match reply {
        Ok(Answer::Sent) => Slots::done(1, 0).word(),
        Ok(Answer::Waits) => Slots::done(2, 0).word(),
        Ok(Answer::Settled(next)) => next_word(next, 3, 4),
        Ok(Answer::Again) => Slots::done(5, 0).word(),
        Ok(Answer::Failed(next)) => next_word(next, 6, 7),
        Err(refusal) => Slots::refused(Numbers::from(refusal), 0).word(),
    }
}

// One count where nothing goes out next, another with the next.
fn next_word(next: Option<u32>, alone: u8, before: u8) -> u64
    ensures { result ≡ word (next_slots alone before (told_next next)) }
{
    match next {
        None => Slots::done(usize::from(alone), 0).word(),
        Some(commid) => Slots::done(usize::from(before), commid as usize).word(),
    }
}

fn start_word(start: Result<Bench, Refusal>) -> u64
    ensures { result ≡ word (start_slots (told_start start)) }
{
    match start {
        Ok(_) => Slots::done(0, 0).word(),
        Err(refusal) => Slots::refused(Numbers::from(refusal), 0).word(),
    }
}
