// Writes messages into a lent buffer, the terms given as bytes.
#![tactic(auto)]

ghost use Rattle.std.specs.Prelude.{◌≡◌, ◌+◌, ◌<◌, ◌≤◌, ◌++◌, length, drop, MatchOption};
ghost use Rattle.message.specs.Messages.{encode_message};
ghost use Rattle.message.specs.Said.{said, Tells};
ghost use Rattle.writer.specs.Writing.{joined, draft_of, write_answer, buffer_after, Lays};

pub mod laws;

use message::kind::Kind;
use message::{Message, Request, Statement};
use principal::term::Term;
use reading::number::Number;
use reading::refusal::ReadFault;
use std::convert::AsSlice;

// What is left of so much room when the parts are laid, where they fit.
fn room_after(room: usize, parts: &[&[u8]]) -> Option<usize>
    ensures { MatchOption result (room < length (joined parts.now)) (λ left. left + length (joined parts.now) ≡ room) }
{
    let mut left = room;
    for part in parts {
        left = left.checked_sub(part.len())?;
    }
    Some(left)
}

// Lays the parts one after another at the front of the buffer, which has room for them.
fn fill(out: &mut [u8], parts: &[&[u8]])
    requires { length (joined parts.now) ≤ length out.old }
    ensures { out.new ≡ joined parts.now ++ drop (length (joined parts.now)) out.old }
{
    if let Some((part, others)) = parts.split_first() {
        let (here, after) = out.split_at_mut(part.len());
        here.copy_from_slice(part);
        fill(after, others);
    }
}

// Lays the parts, and says how long they are. The room for all is tried first, so a buffer that has none for the last
// stays as it was.
#[inline(always)]
fn lay(out: &mut [u8], parts: &[&[u8]]) -> Result<usize, ReadFault>
    ensures { Lays (joined parts.now) out.old result out.new }
{
    let left = room_after(out.len(), parts).ok_or(ReadFault::NoRoom)?;
    fill(out, parts);
    Ok(out.len() - left)
}

// The message with its terms read, each as an input: the first is input 1.
#[inline(always)]
fn read_terms<T: AsSlice<u8>>(given: &Message<T>) -> Result<Message<Term<'_>>, ReadFault>
    ensures { Tells said (draft_of T.items given.now) result }
{
    Ok(match given {
        Message::Statement(s) => Message::Statement(Statement {
            serial: s.serial,
            from: s.from,
            until: s.until,
            sayer: Term::read(1, s.sayer.as_slice())?,
            left: Term::read(2, s.left.as_slice())?,
            right: Term::read(3, s.right.as_slice())?,
        }),
        Message::Strike(s) => Message::Strike(*s),
        Message::Request(q) => Message::Request(Request {
            number: q.number,
            object: q.object,
            operation: q.operation,
            sayer: Term::read(1, q.sayer.as_slice())?,
        }),
    })
}

#[inline(always)]
fn put(message: Message<Term>, out: &mut [u8]) -> Result<usize, ReadFault>
    ensures { Lays (encode_message (said message.entry)) out.old result out.new }
{
    match message {
        Message::Statement(s) => lay(
            out,
            &[
                &[Kind::Statement as u8],
                &s.serial.to_bytes(),
                &s.from.to_bytes(),
                &s.until.to_bytes(),
                s.sayer.as_bytes(),
                s.left.as_bytes(),
                s.right.as_bytes(),
            ],
        ),
        Message::Strike(s) => lay(out, &[&[Kind::Strike as u8], &s.serial.to_bytes()]),
        Message::Request(q) => lay(
            out,
            &[
                &[Kind::Request as u8],
                &q.number.to_bytes(),
                &q.object.to_bytes(),
                &q.operation.to_bytes(),
                q.sayer.as_bytes(),
            ],
        ),
    }
}

// Reads the terms, and writes the message: its length, or a refusal that leaves the buffer as it was. It is inlined, and so
// are the three above that it goes through: a caller that writes one kind of message then runs nothing of the others.
#[inline(always)]
pub fn write<T: AsSlice<u8>>(given: &Message<T>, out: &mut [u8]) -> Result<usize, ReadFault>
    ensures answer { result ≡ write_answer (draft_of T.items given.now) out.old }
    ensures buffer { out.new ≡ buffer_after (draft_of T.items given.now) result out.old }
{
    put(read_terms(given)?, out)
}
