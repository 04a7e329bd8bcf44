// Messages in words.
ghost use Rattle.std.specs.Prelude.{Some};
ghost use Rattle.message.specs.Said.{stated, struck, requested, said};
ghost use Rattle.message.specs.Words.{content_text};

use crate::{Message, Request, Statement, Strike};
use principal::term::Term;
use std::fmt;

impl fmt::Display for Statement<Term<'_>> {
    ghost output = { λ s. Some (content_text (stated s)) };

    fn fmt<W: fmt::Write>(&self, f: &mut fmt::Formatter<W>) -> fmt::Result {
        write!(
            f,
            "{} says that {} speaks for {}, from {} until {} (serial {})",
            self.sayer, self.left, self.right, self.from, self.until, self.serial
        )
    }
}

impl fmt::Display for Strike {
    ghost output = { λ s. Some (content_text (struck s)) };

    fn fmt<W: fmt::Write>(&self, f: &mut fmt::Formatter<W>) -> fmt::Result {
        write!(f, "the statement with serial {} is struck", self.serial)
    }
}

impl fmt::Display for Request<Term<'_>> {
    ghost output = { λ q. Some (content_text (requested q)) };

    fn fmt<W: fmt::Write>(&self, f: &mut fmt::Formatter<W>) -> fmt::Result {
        write!(
            f,
            "{} asks for operation {} on object {} (request {})",
            self.sayer, self.operation, self.object, self.number
        )
    }
}

impl fmt::Display for Message<Term<'_>> {
    ghost output = { λ m. Some (content_text (said m)) };

    fn fmt<W: fmt::Write>(&self, f: &mut fmt::Formatter<W>) -> fmt::Result {
        match self {
            Message::Statement(s) => s.fmt(f),
            Message::Strike(s) => s.fmt(f),
            Message::Request(q) => q.fmt(f),
        }
    }
}
