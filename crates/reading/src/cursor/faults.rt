// A row in words, and as the fault of an input.
ghost use Rattle.std.specs.Prelude.{◌≡◌, Some};
ghost use Rattle.reading.specs.Refusals.{fault_at};
ghost use Rattle.reading.specs.Words.{row_text};

use crate::cursor::Row;
use crate::refusal::{Place, ReadFault};
use std::error::Error;
use std::fmt;

impl Row {
    // The fault of an input of `whole` bytes that was not read by this row, with so many bytes left. A cursor could not
    // give the numbers at a message's kind byte: an unknown kind is refused at that byte, which the cursor would have passed.
    pub fn fault(self, input: u32, whole: usize, left: usize) -> ReadFault
        ensures { result ≡ fault_at input whole self left }
    {
        let place = Place {
            input,
            start: whole.saturating_sub(left),
            len: left,
        };
        ReadFault::Stopped(self, place)
    }
}

impl fmt::Display for Row {
    ghost output = { λ row. Some (row_text row) };

    fn fmt<W: fmt::Write>(&self, f: &mut fmt::Formatter<W>) -> fmt::Result {
        f.write_str(match self {
            Row::CutShort => "the bytes end inside a field or term",
            Row::UnknownKind => "a kind byte that is not taken there",
            Row::TooLong => "the term would pass 60 bytes",
            Row::LeftOver => "bytes are left over",
        })
    }
}

impl Error for Row {}
