// What a refusal tells: layer, number and place.
ghost use Rattle.std.specs.Prelude.{◌≡◌, Some};
ghost use Rattle.reading.specs.Refusals.{refused};
ghost use Rattle.reading.specs.Words.{layer_text, place_text, fault_text};

use crate::cursor::Row;
use std::error::Error;
use std::fmt;

// A part of an input. Inputs count from 1, bytes from 0; all are 0 where no input is meant, as the answers and the C
// interface tell it.
#[derive(Clone, Copy, Debug, PartialEq, Eq)]
pub struct Place {
    pub input: u32,
    pub start: usize,
    pub len: usize,
}

// The layer of the gate to which a refusal belongs.
#[derive(Clone, Copy, Debug, PartialEq, Eq)]
pub enum Layer {
    Reading = 1,
    Seal = 2,
    Guard = 3,
    Journal = 4,
}

// The number is the row's in the format, which the answers and the C interface tell.
#[derive(Clone, Copy, Debug, PartialEq, Eq)]
pub struct Refusal {
    pub layer: Layer,
    pub number: u8,
    pub place: Place,
}

// Why bytes were not read, or a message was not written.
#[derive(Clone, Copy, Debug, PartialEq, Eq)]
pub enum ReadFault {
    // Reading stopped by the row, at the place.
    Stopped(Row, Place),
    // The written message is longer than its buffer.
    NoRoom,
}

const NOWHERE: Place = Place {
    input: 0,
    start: 0,
    len: 0,
};

impl From<ReadFault> for Refusal {
    ghost from_gives = { λ fault refusal. refusal ≡ refused fault };

    fn from(fault: ReadFault) -> Refusal {
        let (number, place) = match fault {
            ReadFault::Stopped(row, place) => (row as u8, place),
            ReadFault::NoRoom => (19, NOWHERE),
        };
        Refusal {
            layer: Layer::Reading,
            number,
            place,
        }
    }
}

impl Layer {
    pub fn name(self) -> &'static str
        ensures { result.now ≡ layer_text self }
    {
        match self {
            Layer::Reading => "reading",
            Layer::Seal => "seal",
            Layer::Guard => "guard",
            Layer::Journal => "journal",
        }
    }
}

impl fmt::Display for Layer {
    ghost output = { λ layer. Some (layer_text layer) };

    fn fmt<W: fmt::Write>(&self, f: &mut fmt::Formatter<W>) -> fmt::Result {
        f.write_str(self.name())
    }
}

// Which input, from which byte, and how many bytes.
impl fmt::Display for Place {
    ghost output = { λ place. Some (place_text place) };

    fn fmt<W: fmt::Write>(&self, f: &mut fmt::Formatter<W>) -> fmt::Result {
        let input = self.input;
        let start = self.start;
        let len = self.len;
        write!(f, "input {input}, from byte {start}, length {len}")
    }
}

// What is wrong, and where.
impl fmt::Display for ReadFault {
    ghost output = { λ fault. Some (fault_text fault) };

    fn fmt<W: fmt::Write>(&self, f: &mut fmt::Formatter<W>) -> fmt::Result {
        match self {
            ReadFault::Stopped(row, place) => write!(f, "{row} ({place})"),
            ReadFault::NoRoom => write!(f, "the message is longer than its buffer ({NOWHERE})"),
        }
    }
}

impl Error for ReadFault {}
