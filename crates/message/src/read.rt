// Readers of messages.
ghost use Rattle.std.specs.Prelude.{◌≡◌, [], ◌∷◌};
ghost use Rattle.reading.specs.Cursors.{Reads};
ghost use Rattle.message.specs.Messages.{kind_byte, any_kind, all_fields, read_message};
ghost use Rattle.message.specs.Said.{said, Tells};

use crate::Message;
use crate::body::Body;
use crate::kind::Kind;
use principal::term::Term;
use reading::cursor::{Cursor, Row};
use reading::refusal::ReadFault;

// The fields, with nothing after them.
fn whole<'a, B: Body<'a>>(cursor: &mut Cursor<'a>) -> Result<B, Row>
    ensures { Reads B.says (all_fields B.of) cursor.old result cursor.new }
{
    let body = B::fields(cursor)?;
    cursor.end()?;
    Ok(body)
}

// A message, by the fields that follow its kind byte.
pub(crate) fn after_kind<'a, B: Body<'a>>(bytes: &'a [u8], rest: &'a [u8]) -> Result<B, ReadFault>
    requires { bytes.now ≡ kind_byte B.of ∷ rest.now }
    ensures of_any { Tells B.says (read_message any_kind bytes.now) result }
    ensures of_own { Tells B.says (read_message (B.of ∷ []) bytes.now) result }
{
    let mut cursor = Cursor::new(rest);
    let body = whole(&mut cursor);
    let left = cursor.left();
    body.map_err(|row| row.fault(1, bytes.len(), left))
}

impl<'a> Message<Term<'a>> {
    // A message of any kind.
    pub fn read(bytes: &'a [u8]) -> Result<Message<Term<'a>>, ReadFault>
        ensures { Tells said (read_message any_kind bytes.now) result }
    {
        let [byte, rest @ ..] = bytes else {
            return Err(Row::CutShort.fault(1, 0, 0));
        };
        match Kind::try_from(*byte) {
            Ok(Kind::Statement) => Ok(Message::Statement(after_kind(bytes, rest)?)),
            Ok(Kind::Strike) => Ok(Message::Strike(after_kind(bytes, rest)?)),
            Ok(Kind::Request) => Ok(Message::Request(after_kind(bytes, rest)?)),
            Err(row) => Err(row.fault(1, bytes.len(), bytes.len())),
        }
    }
}
