// The commands about the sender that is worked on: each is one call of the library, and behind it all that the sender's storage holds.
// Rests on the crate `exports`.
use crate::line::{EIGHT, FOUR, Line};
use crate::stop::Stop;
use crate::telling::Answer;
use crate::world::Sender;
use exports::senders::{
    morlewen_sender_ack, morlewen_sender_flight, morlewen_sender_nak, morlewen_sender_start,
    morlewen_sender_submit, morlewen_sender_time_out, morlewen_sender_waiting,
};
use std::io;
use std::io::Write;

// What the operator or the radio may tell the sender.
#[derive(Clone, Copy)]
pub enum Event {
    Submit,
    Ack,
    Nak,
    TimeOut,
}

// One of these commands, by its name.
#[derive(Clone, Copy)]
pub enum SenderCommand {
    Start,
    Event(Event),
}

impl SenderCommand {
    pub fn of(name: &str) -> Option<SenderCommand> {
        match name {
            "start" => Some(SenderCommand::Start),
            "submit" => Some(SenderCommand::Event(Event::Submit)),
            "ack" => Some(SenderCommand::Event(Event::Ack)),
            "nak" => Some(SenderCommand::Event(Event::Nak)),
            "timeout" => Some(SenderCommand::Event(Event::TimeOut)),
            _ => None,
        }
    }
}

pub fn sender_line(
    out: &mut impl Write,
    command: SenderCommand,
    line: Line,
    sender: &mut Sender,
) -> Result<(), Stop> {
    match command {
        SenderCommand::Start => start(out, line, sender)?,
        SenderCommand::Event(event) => one_event(out, event, line, sender)?,
    }
    tell_flight(out, sender)?;
    for waiting in &sender.waiting {
        write!(out, " {waiting}")?;
    }
    Ok(())
}

fn start(out: &mut impl Write, mut line: Line, sender: &mut Sender) -> Result<(), Stop> {
    let resends = line.field("resends", EIGHT)?;
    line.answer(out)?;
    match Answer(morlewen_sender_start(&mut sender.beside, resends)).outcome() {
        Ok(_) => write!(out, " started")?,
        Err(refused) => write!(out, " refused {}", refused.number)?,
    }
    Ok(())
}

fn one_event(
    out: &mut impl Write,
    event: Event,
    mut line: Line,
    sender: &mut Sender,
) -> Result<(), Stop> {
    let commid = line.field("commid", FOUR)? as u32;
    line.answer(out)?;
    let (waiting, beside) = (&mut sender.waiting, &mut sender.beside);
    let answer = match event {
        Event::Submit => morlewen_sender_submit(waiting, beside, commid),
        Event::Ack => morlewen_sender_ack(waiting, beside, commid),
        Event::Nak => morlewen_sender_nak(waiting, beside, commid),
        Event::TimeOut => morlewen_sender_time_out(waiting, beside, commid),
    };
    tell_event(out, Answer(answer))?;
    Ok(())
}

fn tell_event(out: &mut impl Write, answer: Answer) -> io::Result<()> {
    if let Err(refused) = answer.outcome() {
        return write!(out, " refused {}", refused.number);
    }
    match answer.count() {
        1 => write!(out, " sent"),
        2 => write!(out, " waits"),
        3 => write!(out, " settled"),
        4 => write!(out, " settled next {}", answer.value()),
        5 => write!(out, " again"),
        6 => write!(out, " failed"),
        _ => write!(out, " failed next {}", answer.value()),
    }
}

fn tell_flight(out: &mut impl Write, sender: &Sender) -> io::Result<()> {
    write!(out, " resends {}", sender.beside[0])?;
    let flight = Answer(morlewen_sender_flight(&sender.beside));
    match flight.count() {
        0 => write!(out, " flight none")?,
        left => write!(
            out,
            " flight {} left {}",
            flight.value(),
            left.saturating_sub(1)
        )?,
    }
    let waiting = Answer(morlewen_sender_waiting(&sender.waiting, &sender.beside));
    write!(out, " waiting {} places", waiting.count())
}
