// The kinds of terms.
use crate::cursor::Row;

// What a term is, by its kind byte.
#[derive(Clone, Copy, Debug, PartialEq, Eq)]
pub enum Kind {
    Channel,
    Name,
    Both,
    Quoting,
    AsRole,
    ActingFor,
}

impl TryFrom<u8> for Kind {
    ghost use Rattle.reading.specs.Kinds.{NamesKind};

    type Error = Row;

    ghost try_from_gives = { NamesKind };

    fn try_from(byte: u8) -> Result<Kind, Row> {
        match byte {
            1 => Ok(Kind::Channel),
            2 => Ok(Kind::Name),
            3 => Ok(Kind::Both),
            4 => Ok(Kind::Quoting),
            5 => Ok(Kind::AsRole),
            6 => Ok(Kind::ActingFor),
            _ => Err(Row::UnknownKind),
        }
    }
}
