// The calls of a script: each line is taken apart into what it asks for.
#![tactic(auto)]

ghost use Rattle.std.specs.Prelude.{◌≡◌, Some};
ghost use Rattle.commands.specs.declared.Fault.TheVariants.{OutOfMemory};
ghost use Rattle.commands.specs.Calls.{asks_nothing};
ghost use Rattle.commands.specs.Asked.{Parses, fault_text};

mod arguments;
pub mod laws;
mod names;

use crate::arguments::Arguments;
use message::Message;
use std::alloc::{AllocError, Global};
use std::error::Error;
use std::fmt;

#[derive(Drop)]
pub enum Call {
    Term(Vec<u8>),
    Message(Vec<u8>),
    Show(Vec<u8>),
    // A message to be written into a buffer of so many bytes.
    Write {
        message: Message<Vec<u8>>,
        room: usize,
    },
}

// Why a line gives no call.
#[derive(Clone, Copy, Debug, PartialEq, Eq)]
pub enum Fault {
    BadLine,
    OutOfMemory,
}

impl fmt::Display for Fault {
    ghost output = { λ fault. Some (fault_text fault) };

    fn fmt<W: fmt::Write>(&self, f: &mut fmt::Formatter<W>) -> fmt::Result {
        f.write_str(match self {
            Fault::BadLine => "bad line",
            Fault::OutOfMemory => "out of memory",
        })
    }
}

impl Error for Fault {}

impl From<AllocError> for Fault {
    ghost from_gives = { λ _ fault. fault ≡ OutOfMemory };

    fn from(_error: AllocError) -> Fault {
        Fault::OutOfMemory
    }
}

// A blank line, or a comment.
fn asks_nothing(line: &[u8]) -> bool
    ensures { result ≡ asks_nothing line.now }
{
    matches!(line, [] | [b'#', ..])
}

// The call that a line asks for. A blank line and a comment ask for none.
pub fn parse(heap: Global, line: &[u8]) -> Result<Option<Call>, Fault>
    ensures { Parses line.now result }
{
    if asks_nothing(line) {
        return Ok(None);
    }
    Ok(Some(Arguments::new(heap, line).call()?))
}

#[cfg(test)]
mod tests {
    use super::*;

    fn kind(answer: &Result<Option<Call>, Fault>) -> &'static str {
        match answer {
            Ok(None) => "nothing",
            Ok(Some(Call::Term(_))) => "term",
            Ok(Some(Call::Message(_))) => "message",
            Ok(Some(Call::Show(_))) => "show",
            Ok(Some(Call::Write { message, .. })) => match message {
                Message::Statement(_) => "statement",
                Message::Strike(_) => "strike",
                Message::Request(_) => "request",
            },
            Err(Fault::BadLine) => "bad line",
            Err(Fault::OutOfMemory) => "out of memory",
        }
    }

    // Where memory is left, each kind of line has its answer.
    #[test]
    fn lines_have_their_answers(rt: HostRuntime) {
        for (line, want) in [
            ("", "nothing"),
            ("# term 02", "nothing"),
            ("term 0100000007", "term"),
            ("message -", "message"),
            ("show 0200000005", "show"),
            ("write statement 5 100 200 01 02 03 30", "statement"),
            ("write strike 5 8", "strike"),
            ("write request 12 3 2 0100000007 1024", "request"),
            ("write strike 5 1025", "bad line"),
            ("term 01 ", "bad line"),
        ] {
            assert_eq!(rt;
                kind(&parse(rt.alloc(), line.as_bytes())),
                want,
                "at {line}"
            );
        }
    }
}
