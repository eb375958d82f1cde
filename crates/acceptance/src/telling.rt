// What the library answers, as it is told.
// Rests on std's `fmt`.
use console::table::between;
use exports::envelopes::FIELDS;
use std::fmt;
use std::fmt::Display;

// The word that a call of the library answers: numbers packed for the C interface, which has no enums.
#[derive(Clone, Copy)]
pub struct Answer(pub u64);

impl Answer {
    // The number of a refusal by reading, or a mark where there is none.
    pub fn reading(self) -> u64 {
        self.0 / 0x100 % 0x100
    }

    pub fn count(self) -> u64 {
        self.0 / 0x1_0000 % 0x1_0000
    }

    pub fn value(self) -> u64 {
        self.0 / 0x1_0000_0000
    }

    // The value, where nothing is refused.
    pub fn outcome(self) -> Result<u64, Refused> {
        match self.0 % 0x100 {
            0 => Ok(self.value()),
            number => Err(Refused {
                number,
                reading: self.reading(),
                place: self.value(),
            }),
        }
    }
}

#[derive(Clone, Copy)]
pub struct Refused {
    pub number: u64,
    pub reading: u64,
    pub place: u64,
}

impl Display for Refused {
    fn fmt<W: fmt::Write>(&self, f: &mut fmt::Formatter<W>) -> fmt::Result {
        write!(
            f,
            " refused {} {} {}",
            self.number, self.reading, self.place
        )
    }
}

// A refusal of reading, which has no second number.
#[derive(Clone, Copy)]
pub struct Unread(pub Refused);

impl Display for Unread {
    fn fmt<W: fmt::Write>(&self, f: &mut fmt::Formatter<W>) -> fmt::Result {
        write!(f, " {} {}", self.0.number, self.0.place)
    }
}

// Bytes in hex.
#[derive(Clone, Copy)]
struct Hex<'a>(&'a [u8]);

impl Display for Hex<'_> {
    fn fmt<W: fmt::Write>(&self, f: &mut fmt::Formatter<W>) -> fmt::Result {
        for byte in self.0 {
            write!(f, "{byte:02x}")?;
        }
        Ok(())
    }
}

// A lent buffer: the bytes before its last run of one byte, then that byte and the length of the run.
#[derive(Clone, Copy)]
pub struct Lent<'a>(pub &'a [u8]);

impl Display for Lent<'_> {
    fn fmt<W: fmt::Write>(&self, f: &mut fmt::Formatter<W>) -> fmt::Result {
        let Some(last) = self.0.last() else {
            return f.write_str(" []");
        };
        let start = self
            .0
            .iter()
            .rposition(|byte| byte != last)
            .map_or(0, |place| place + 1);
        let (before, run) = self.0.split_at(start);
        let gap = if before.is_empty() { "" } else { " " };
        let size = run.len();
        write!(f, " [{}{gap}{last:02x}*{size}]", Hex(before))
    }
}

// A part of a message: its first place, its size, and its bytes.
#[derive(Clone, Copy)]
struct Part<'a> {
    from: u64,
    size: u64,
    message: &'a [u8],
}

impl Display for Part<'_> {
    fn fmt<W: fmt::Write>(&self, f: &mut fmt::Formatter<W>) -> fmt::Result {
        let (from, size) = (self.from, self.size);
        let to = from.saturating_add(size) as usize;
        write!(
            f,
            " {from} {size} [{}]",
            Hex(between(self.message, from as usize, to))
        )
    }
}

// A message that is accepted, by the numbers that reading puts down.
#[derive(Clone, Copy)]
pub struct Accepted<'a> {
    pub fields: [u64; FIELDS],
    pub message: &'a [u8],
}

impl Accepted<'_> {
    fn part(&self, from: u64, size: u64) -> Part<'_> {
        Part {
            from,
            size,
            message: self.message,
        }
    }

    fn addressing<W: fmt::Write>(&self, f: &mut fmt::Formatter<W>) -> fmt::Result {
        let [
            _,
            _,
            _,
            _,
            _,
            addressed,
            ttl,
            qos,
            source,
            source_size,
            destination,
            destination_size,
            ..
        ] = self.fields;
        if addressed == 0 {
            return f.write_str(" unaddressed");
        }
        write!(f, " ttl {ttl} qos {qos}")?;
        write!(f, " source{}", self.part(source, source_size))?;
        write!(
            f,
            " destination{}",
            self.part(destination, destination_size)
        )
    }

    fn integrity<W: fmt::Write>(&self, f: &mut fmt::Formatter<W>) -> fmt::Result {
        let [.., kind, integrity] = self.fields;
        match kind {
            0 => f.write_str(" integrity none"),
            1 => write!(f, " integrity crc {integrity:08x}"),
            _ => write!(f, " integrity application {integrity:08x}"),
        }
    }
}

impl Display for Accepted<'_> {
    fn fmt<W: fmt::Write>(&self, f: &mut fmt::Formatter<W>) -> fmt::Result {
        let [message_type, version, flags, number, time, ..] = self.fields;
        write!(
            f,
            " accepted type {message_type} version {version} flags {flags}"
        )?;
        write!(f, " number {number} time {time}")?;
        self.addressing(f)?;
        write!(f, " body{}", self.part(self.fields[12], self.fields[13]))?;
        self.integrity(f)
    }
}
