// What is asked of terms.
ghost use Rattle.std.specs.Prelude.{◌≡◌, Decides};
ghost use Rattle.reading.specs.Principal.{encode};
ghost use Rattle.reading.specs.Reading.{read_term, alone};
ghost use Rattle.reading.specs.Cursors.{Reads};
ghost use Rattle.principal.specs.Terms.{means, ReadsTerm, read_input, Answers};
ghost use Rattle.principal.specs.Shapes.{shown, read_shape, PartsInside};
ghost use Rattle.principal.specs.Voices.{Voiced, has_voice};

use crate::term::{Shape, Term};
use reading::cursor::{Cursor, Row};
use reading::kind::Kind;
use reading::refusal::ReadFault;

impl<'a> Term<'a> {
    // The term at the cursor.
    pub fn next(cursor: &mut Cursor<'a>) -> Result<Term<'a>, Row>
        ensures { ReadsTerm read_term cursor.old result cursor.new }
    {
        let bytes = cursor.term()?;
        Ok(Term { bytes })
    }

    // The term at the cursor, with nothing after it.
    fn last(cursor: &mut Cursor<'a>) -> Result<Term<'a>, Row>
        ensures { ReadsTerm (λ bs. alone (read_term bs)) cursor.old result cursor.new }
    {
        let term = Term::next(cursor)?;
        cursor.end()?;
        Ok(term)
    }

    // An input, by its number, that is one term.
    pub fn read(input: u32, bytes: &'a [u8]) -> Result<Term<'a>, ReadFault>
        ensures { Answers (read_input input bytes.now) result }
    {
        let mut cursor = Cursor::new(bytes);
        let term = Term::last(&mut cursor);
        let left = cursor.left();
        term.map_err(|row| row.fault(input, bytes.len(), left))
    }

    pub fn as_bytes(self) -> &'a [u8]
        ensures { result.now ≡ encode (means self.entry) }
    {
        self.bytes
    }

    // The outermost kind and its parts.
    pub fn shape(self) -> Shape<'a>
        ensures is { shown result ≡ means self.entry }
        ensures inside { PartsInside self.entry result }
    {
        let mut cursor = Cursor::new(self.bytes);
        let Ok(shape) = Shape::next(&mut cursor) else {
            unreachable!()
        };
        shape
    }

    // Both stand for the same principal.
    pub fn same(self, other: Term) -> bool
        ensures { Decides result (means self.entry ≡ means other.entry) }
    {
        self == other
    }

    fn has_voice(self, channel: u32) -> bool
        ensures { result ≡ has_voice channel (means self.entry) }
    {
        match self.shape() {
            Shape::Channel(number) => number == channel,
            Shape::Quoting(x, _) | Shape::AsRole(x, _) => x.has_voice(channel),
            _ => false,
        }
    }

    // The term speaks with the channel's own voice: it is the channel, or quotes or takes a role in that voice.
    #[tactic(auto, using(crate::proofs::Voices::voice_means, crate::proofs::Voices::means_voice))]
    pub fn voiced_by(self, channel: u32) -> bool
        ensures { Decides result (Voiced channel (means self.entry)) }
    {
        self.has_voice(channel)
    }
}

impl<'a> Shape<'a> {
    // The term at the cursor, taken apart.
    fn next(cursor: &mut Cursor<'a>) -> Result<Shape<'a>, Row>
        ensures { Reads shown read_shape cursor.old result cursor.new }
    {
        Ok(match Kind::try_from(cursor.number::<u8>()?)? {
            Kind::Channel => Shape::Channel(cursor.number()?),
            Kind::Name => Shape::Name(cursor.number()?),
            Kind::Both => Shape::Both(Term::next(cursor)?, Term::next(cursor)?),
            Kind::Quoting => Shape::Quoting(Term::next(cursor)?, Term::next(cursor)?),
            Kind::AsRole => Shape::AsRole(Term::next(cursor)?, cursor.number()?),
            Kind::ActingFor => Shape::ActingFor(Term::next(cursor)?, Term::next(cursor)?),
        })
    }
}
