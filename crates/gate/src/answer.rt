// Carries out calls, and says what came of them.
ghost use Rattle.std.specs.Prelude.{◌≡◌, Some, IfOk, string_bytes};
ghost use Rattle.reading.specs.Refusals.{refused};
ghost use Rattle.message.specs.Said.{said};
ghost use Rattle.gate.specs.Answers.{refused_text, fields_text, answer_text};

use commands::Call;
use hex_words::Hex;
use message::Message;
use principal::term::Term;
use reading::refusal::{Place, ReadFault, Refusal};
use std::alloc::{AllocError, Global};
use std::fmt;

// What the unwritten bytes of a buffer hold.
const BLANK: u8 = 0xee;

// A fault by its numbers: layer, number and place.
#[derive(Clone, Copy)]
struct Refused(ReadFault);

impl fmt::Display for Refused {
    ghost output = { λ r. Some (refused_text (refused r.0)) };

    fn fmt<W: fmt::Write>(&self, f: &mut fmt::Formatter<W>) -> fmt::Result {
        let Refusal {
            layer,
            number,
            place,
        } = Refusal::from(self.0);
        let Place { input, start, len } = place;
        write!(f, "refused {layer} {number} {input} {start} {len}")
    }
}

// A message by its fields.
#[derive(Clone, Copy)]
struct Fields<'a>(Message<Term<'a>>);

impl fmt::Display for Fields<'_> {
    ghost output = { λ m. Some (fields_text (said m.0)) };

    fn fmt<W: fmt::Write>(&self, f: &mut fmt::Formatter<W>) -> fmt::Result {
        match self.0 {
            Message::Statement(s) => write!(
                f,
                "statement {} {} {} {} {} {}",
                s.serial,
                s.from,
                s.until,
                Hex(s.sayer.as_bytes()),
                Hex(s.left.as_bytes()),
                Hex(s.right.as_bytes())
            ),
            Message::Strike(s) => write!(f, "strike {}", s.serial),
            Message::Request(q) => write!(
                f,
                "request {} {} {} {}",
                q.number,
                q.object,
                q.operation,
                Hex(q.sayer.as_bytes())
            ),
        }
    }
}

// What came of a call, in one line.
pub fn answer(heap: Global, call: &Call) -> Result<String, AllocError>
    ensures { IfOk result (λ line. string_bytes line ≡ answer_text call.now) }
{
    match call {
        Call::Term(bytes) => match Term::read(1, bytes.as_slice()) {
            Ok(_) => format!(in heap; "ok"),
            Err(fault) => format!(in heap; "{}", Refused(fault)),
        },
        Call::Message(bytes) => match Message::read(bytes.as_slice()) {
            Ok(message) => format!(in heap; "{}", Fields(message)),
            Err(fault) => format!(in heap; "{}", Refused(fault)),
        },
        Call::Show(bytes) => match Message::read(bytes.as_slice()) {
            Ok(message) => format!(in heap; "{message}"),
            Err(fault) => format!(in heap; "refused: {fault}"),
        },
        Call::Write { message, room } => {
            let mut buffer = vec![in heap; BLANK; *room]?;
            match writer::write(message, buffer.as_mut_slice()) {
                Ok(length) => format!(in heap; "wrote {length} {}", Hex(buffer.as_slice())),
                Err(fault) => format!(in heap; "{}", Refused(fault)),
            }
        }
    }
}
