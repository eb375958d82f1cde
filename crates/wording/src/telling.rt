// Every answer of the tool as a template, in words and plainly, and the complaints of its words and files. A template goes by its row.
// Rests on `console`, which fills a template in. What is told is made whole and then written in one call; a complaint is told by halves.
use crate::rows::Row;
use crate::status::{Complained, Told};
use console::errors;
use console::filling::fill;
use console::table::piece;
use std::io::Result;

#[derive(Clone, Copy)]
pub enum Manner {
    Words,
    Plain,
    // the status alone
    Quiet,
}

// Who tells: where the answers go, and in which manner.
#[derive(Drop)]
pub struct Teller<'a, R> {
    pub rt: &'a R,
    pub manner: Manner,
}

// Standard output, or standard error.
#[derive(Clone, Copy)]
pub(crate) enum To {
    Output,
    Errors,
}

// What ends a half of a template: the words, and then what is told plainly; of a complaint, its beginning and its end.
const HALF_END: u8 = 0;

// As much of a word is shown in a complaint: in hex it fills a page.
pub(crate) const SHOWN: u64 = 1_000;

// The bytes of a page.
pub(crate) const PAGE: usize = 4_096;

const TEMPLATES: &[u8] =
    b"message #: type #, number #, # byte*, {first|repeat|next|ahead #|behind #}{|, no record of that type and number|, record #, same|, record #, different in # place*|, record #, not compared|, record # is retired}
\0message\t#\t#\t#\t#\t{-|0|1|#|-#}\t{-\t-|-\t-|#\t0|#\t#|#\t-|#\t-\tretired}
\0# record*
\0\0record #: type #, number #, # byte*{|, retired}
\0good\t#\t#\t#\t#{|\tretired}
\0good: # record*_\0good\t#\t#\0, record # retired\0\t#\0
\0
\0{in ascending order|not in ascending order: record # does not come after the one before it}
\0{ascending|breaks\t#}
\0record #: refused #, type #, number # is already that of record #
\0refused\t#\t#__\t0\t0\t-\t#
\0refused #, no live record of that type and number was opened (# opened)
\0refused__\t-\t#\t#\t0\t0\t-
\0record # has that type and number, and is retired
\0retired\t#
\0record # (# opened)
\0found\t#\t#
\0same, # byte*
\0same\t#
\0{|emp: ||record #: |message #, after # byte*: |frame #, at place #: |_|record #: _|}refused !{|, at place #}{|| of the message, place # of the file| of the message, place # of the stream| of the message}{|, where the message ends|, the header version|, the flags|, the variable header size|, the data length|, the addresses|, the integrity field}{|||||| (# opened)| (# opened)| (line #, COMMID #)}
\0refused{||\t-|\t#|\t#\t#|\t#\t#|\t-\t#|\t#\t#|}\t#\t#_\t#{|\t-|\t#|\t#|\t-}_{||||||_|_|\t#\t#}
\0accepted, # byte*
header version        #
message type          #
message version       #
flags                 & (hex)
  time format         {relative|absolute}
  encrypted           {no|yes}
  compressed          {no|yes}
  integrity kind      {0, none|1, CRC|2, application-specific}
data length           #
message number        #
message time          #
\0accepted\t#_\t#\t#\t&____\t#\t#\t#\0variable header size  0, so there is no time to live, QoS, source or destination
\0\t0\t-\t-\t-\t-\0variable header size  #
time to live          # second*
QoS                   #
  service request     #
  special handling    #
  network preference  #
  priority            #
  class               #
\0\t#\t#\t#_____\0source                {(empty)|^}
destination           {(empty)|^}
\0\t{\\0|^}\t{\\0|^}\0body                  # byte* from place #%{|
  ... # more byte*}
integrity             $ (hex), {none|the CRC of all bytes before it|the application's own number}
\0\t_#____\t$\t#
\0accepted, # byte*
\0accepted\t#
\0rule 1, the message has at least 21 bytes: {kept|broken at place #}, it has #
\0rule\t1\t{kept\t-|broken\t#}_
\0rule 2, the header version is 4: {kept|broken at place #|not judged}, {it is #|it needs at least # byte*, the message has #}
rule 3, no unassigned flag (bits 5 to 7) is set and the integrity kind is not 3: {kept|broken at place #|not judged}, {flags & (hex), kind #|it needs at least # byte*, the message has #}
rule 4, the variable header size (V) is 0, or 6 to 132: {kept|broken at place #|not judged}, {V is #|it needs at least # byte*, the message has #}
\0rule\t2\t{kept\t-|broken\t#|unjudged\t-}____
rule\t3\t{kept\t-|broken\t#|unjudged\t-}_____
rule\t4\t{kept\t-|broken\t#|unjudged\t-}____
\0rule 5, 17 + V + the data length + 4 is the length of the message: {kept|broken at place #|not judged}, {17 + # + # + 4 is #, it has #|it needs at least # byte*, the message has #}
\0rule\t5\t{kept\t-|broken\t#|unjudged\t-}_______
\0rule 6, bytes 21 to 16 + V are two addresses, each at most 64 bytes with its zero: {kept|broken at place #|not judged}, {source # byte*, destination # byte*, # left over|source # byte*, destination without a zero, # left over|source without a zero, destination without a zero, # left over|it needs at least # byte*, the message has #|it is for V from 6 to 132 alone}
\0rule\t6\t{kept\t-|broken\t#|unjudged\t-}_________
\0rule 7, the integrity field is {zero where the kind is 0|the CRC, the kind being 1}: {kept|broken at place #|not judged}, {the field says $, the kind is #|the field says $, division gives $|it needs at least # byte*, the message has #}
\0rule\t7\t_{kept\t-|broken\t#|unjudged\t-}_______
\0{in time, # second* left|late, # second* past|no clock, there is no variable header|no clock, the time to live is 0|in time, ## seconds left}{|; the clock is before the entry}
\0{in-time\t#|late\t#|no-clock\tabsent|no-clock\tzero|in-time\t##}_
\0$  # byte*
\0sum\t$\t#
\0data message, COMMID #, frame of # byte*
\0\0frame #_: data message, COMMID #, type #, number #, # byte*
\0data\t#\t#\t#\t#\t#\t#
\0{|frame #_: }acknowledgment, COMMID #, of COMMID #
\0_acknowledgment\t#\t#\t#\t#
\0{sent #|waits #|resent #|acknowledged #|acknowledged #, sent #|failed #|failed #, sent #}
\0{sent\t#|waits\t#|resent\t#|acknowledged\t#\t-|acknowledged\t#\t#|failed\t#\t-|failed\t#\t#}
\0line # is not understood: submit, ack, nak or timeout, one blank, and a COMMID from 0 to 4294967295 are expected
\0unknown\t#
\0submission #: COMMID #, {waiting|in flight, sent # time*|acknowledged, sent # time*|failed, sent # time*}
\0submission\t#\t#\t{waiting\t0|in-flight\t#|acknowledged\t#|failed\t#}
\0# submission*: # waiting, # in flight, # acknowledged, # failed{|; the first # are listed}
\0total\t#\t#\t#\t#\t#{|_}
\0emp 1.0, {by a kit that is not known|proved by ^}
\0version\t1.0\t{-|^}
\0~\0\0emp ~
    ~
{|    plainly: ~
}\0~
\0different in # place*
place   golden                            radio                           differs in
\0different\t#
\0place   message                           field
\0\0{    |   |  | |}#  { & |[&]|[--]|    }{ & |[&]|[--]|    }{ & |[&]|[--]|    }{ & |[&]|[--]|    }{ & |[&]|[--]|    }{ & |[&]|[--]|    }{ & |[&]|[--]|    }{ & |[&]|[--]|    }  { & |[&]|[--]|    }{ & |[&]|[--]|    }{ & |[&]|[--]|    }{ & |[&]|[--]|    }{ & |[&]|[--]|    }{ & |[&]|[--]|    }{ & |[&]|[--]|    }{ & |[&]|[--]|    }{| header version|, header version}{| message type|, message type}{| message version|, message version}{| flags|, flags}{| data length|, data length}{| message number|, message number}{| message time|, message time}{| variable header size|, variable header size}{| time to live|, time to live}{| QoS|, QoS}{| source|, source}{| destination|, destination}{| body|, body}{| integrity|, integrity}{| addresses|, addresses}
\0\0\0place\t#\t{-|&}\t{-|&}\t{|header version|message type|message version|flags|data length|message number|message time|variable header size|time to live|QoS|source|destination|body|integrity}
\0... # more row*{|, # more differing place*}
\0\0emp: no command was given; emp help tells what there is\0
\0emp: '^' is no command; \0the nearest is ^, and emp help has all
\0emp: '^' is no option; \0the nearest is ^, and emp help has all
\0emp: too many words; \0the form is emp ^
\0emp: too few words; \0the form is emp ^
\0emp: -q is for check and compare alone\0
\0emp: --halving is for find alone\0
\0emp: standard input, which - names, can be read once\0
\0emp: a word is too long: it has at most 4096 bytes\0
\0emp: ^ must be a number from 0 to \0^, in 1 to 20 digits and nothing else
\0emp: '^' has more than 65536 bytes, the most that emp takes\0
\0";

impl<R: Print + Eprint> Teller<'_, R> {
    // An answer, or a part of one, on standard output; gives `then`, unless it could not be written. `lent` is what the template's marks for text speak of.
    pub fn tell<S: Drop>(
        &self,
        then: S,
        row: impl Into<Option<Row>>,
        numbers: &[u64],
        lent: &[u8],
    ) -> Told<S> {
        self.tell_to(To::Output, row.into(), numbers, lent)?;
        Ok(then)
    }

    pub(crate) fn tell_to(
        &self,
        to: To,
        row: Option<Row>,
        numbers: &[u64],
        lent: &[u8],
    ) -> Told<()> {
        match half_of(self.manner, row) {
            Some(half) => put_half(self.rt, to, half, numbers, lent),
            None => Ok(()),
        }
    }

    // Bytes on standard output; gives `then`, unless they could not be written.
    pub fn put<S: Drop>(&self, bytes: &[u8], then: S) -> Told<S> {
        put_on(self.rt, To::Output, bytes)?;
        Ok(then)
    }
}

// Which half of all: none, where only the status is wanted, or no row is named.
fn half_of(manner: Manner, row: Option<Row>) -> Option<usize> {
    let row = row? as usize;
    match manner {
        Manner::Words => Some(2 * row),
        Manner::Plain => Some(2 * row + 1),
        Manner::Quiet => None,
    }
}

fn put_half(
    rt: &(impl Print + Eprint),
    to: To,
    half: usize,
    numbers: &[u64],
    lent: &[u8],
) -> Told<()> {
    let mut page = [0u8; PAGE];
    let template = piece(TEMPLATES, HALF_END, half);
    let size = fill(&mut page, 0, template, numbers, lent);
    put_on(rt, to, &page[..size])
}

fn put_on(rt: &(impl Print + Eprint), to: To, bytes: &[u8]) -> Told<()> {
    write(rt, to, bytes).map_err(|error| {
        errors::fail(rt, b"emp: cannot write the answer", error);
        Complained
    })
}

fn write(rt: &(impl Print + Eprint), to: To, bytes: &[u8]) -> Result<()> {
    match to {
        To::Output => rt.write_all(bytes),
        To::Errors => errors::put(rt, bytes),
    }
}

// One line on standard error: the one half of a complaint with a text in it, and then the other with another.
pub fn complain(
    rt: &(impl Print + Eprint),
    row: impl Into<Option<Row>>,
    text: &[u8],
    other: &[u8],
) -> Complained {
    let row = row.into();
    let front = [0, SHOWN];
    let manner = Manner::Words;
    let _ = Teller { rt, manner }.tell_to(To::Errors, row, &front, text);
    let manner = Manner::Plain;
    let _ = Teller { rt, manner }.tell_to(To::Errors, row, &front, other);
    Complained
}
