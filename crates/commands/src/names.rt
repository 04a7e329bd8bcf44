// The words that name calls and messages.
ghost use Rattle.commands.specs.Names.{NamesMessage};

use crate::Fault;
use message::kind::Kind;

#[derive(Clone, Copy)]
pub(crate) enum CallName {
    Term,
    Message,
    Show,
    Write,
}

impl TryFrom<&[u8]> for CallName {
    ghost use Rattle.commands.specs.Names.{NamesCall};

    type Error = Fault;

    ghost try_from_gives = { λ word r. NamesCall word.now r };

    fn try_from(word: &[u8]) -> Result<CallName, Fault> {
        match word {
            b"term" => Ok(CallName::Term),
            b"message" => Ok(CallName::Message),
            b"show" => Ok(CallName::Show),
            b"write" => Ok(CallName::Write),
            _ => Err(Fault::BadLine),
        }
    }
}

// No `TryFrom`, since neither the kind nor the word is a type of this crate.
pub(crate) fn message_named(word: &[u8]) -> Result<Kind, Fault>
    ensures { NamesMessage word.now result }
{
    match word {
        b"statement" => Ok(Kind::Statement),
        b"strike" => Ok(Kind::Strike),
        b"request" => Ok(Kind::Request),
        _ => Err(Fault::BadLine),
    }
}
