// The kinds of messages.
use reading::cursor::Row;

// What a message is, by its kind byte.
#[derive(Clone, Copy, Debug, PartialEq, Eq)]
pub enum Kind {
    Statement = 1,
    Strike = 2,
    Request = 3,
}

impl TryFrom<u8> for Kind {
    ghost use Rattle.message.specs.Kinds.{NamesKind};

    type Error = Row;

    ghost try_from_gives = { NamesKind };

    fn try_from(byte: u8) -> Result<Kind, Row> {
        match byte {
            1 => Ok(Kind::Statement),
            2 => Ok(Kind::Strike),
            3 => Ok(Kind::Request),
            _ => Err(Row::UnknownKind),
        }
    }
}
