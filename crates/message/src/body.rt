// The kinds of message, each with the fields that follow its kind byte.
ghost use Rattle.std.specs.Prelude.{◌≡◌, [], ◌∷◌};
ghost use Rattle.reading.specs.Cursors.{Reads};
ghost use Rattle.message.specs.Kinds.{kind_of};
ghost use Rattle.message.specs.Messages.{Content, Kind, statements, strikes, requests, own_fields, read_message};
ghost use Rattle.message.specs.Said.{stated, struck, requested, Tells};

use crate::kind::Kind;
use crate::read::after_kind;
use crate::{Request, Statement, Strike};
use principal::term::Term;
use reading::cursor::{Cursor, Row};
use reading::refusal::ReadFault;

// A message of one kind.
pub trait Body<'a>: Copy {
    ghost of: { Kind };

    ghost says: { Self → Content };

    fn kind() -> Kind
        ensures { kind_of result ≡ of };

    // The fields that follow the kind byte.
    fn fields(cursor: &mut Cursor<'a>) -> Result<Self, Row>
        ensures { Reads says (own_fields of) cursor.old result cursor.new };

    // A message of this kind: another kind byte is not taken.
    final fn read(bytes: &'a [u8]) -> Result<Self, ReadFault>
    where
        Self: Sized,
        ensures { Tells says (read_message (of ∷ []) bytes.now) result }
    {
        // `Message::read` refuses an empty input and an unknown kind too: a function for both would have to state its
        // refusals of every list of kinds.
        match bytes {
            [] => Err(Row::CutShort.fault(1, 0, 0)),
            [byte, rest @ ..] if *byte == Self::kind() as u8 => after_kind(bytes, rest),
            _ => Err(Row::UnknownKind.fault(1, bytes.len(), bytes.len())),
        }
    }
}

impl<'a> Body<'a> for Statement<Term<'a>> {
    ghost of = { statements };

    ghost says = { stated };

    fn kind() -> Kind
        ensures { kind_of result ≡ statements }
    {
        Kind::Statement
    }

    fn fields(cursor: &mut Cursor<'a>) -> Result<Statement<Term<'a>>, Row> {
        Ok(Statement {
            serial: cursor.number()?,
            from: cursor.number()?,
            until: cursor.number()?,
            sayer: Term::next(cursor)?,
            left: Term::next(cursor)?,
            right: Term::next(cursor)?,
        })
    }
}

impl<'a> Body<'a> for Strike {
    ghost of = { strikes };

    ghost says = { struck };

    fn kind() -> Kind
        ensures { kind_of result ≡ strikes }
    {
        Kind::Strike
    }

    fn fields(cursor: &mut Cursor<'a>) -> Result<Strike, Row> {
        let serial: u32 = cursor.number()?;
        Ok(Strike { serial })
    }
}

impl<'a> Body<'a> for Request<Term<'a>> {
    ghost of = { requests };

    ghost says = { requested };

    fn kind() -> Kind
        ensures { kind_of result ≡ requests }
    {
        Kind::Request
    }

    fn fields(cursor: &mut Cursor<'a>) -> Result<Request<Term<'a>>, Row> {
        Ok(Request {
            number: cursor.number()?,
            object: cursor.number()?,
            operation: cursor.number()?,
            sayer: Term::next(cursor)?,
        })
    }
}
