// A term: a part of the caller's bytes that was read as one.
ghost use Rattle.reading.specs.Terms.{Spelled};
ghost use Rattle.principal.specs.Spelled.{Spelled-prop};

mod shapes;
mod words;

// Only reading makes one.
#[derive(Clone, Copy, Debug, PartialEq, Eq)]
pub struct Term<'a> {
    bytes: &'a [u8],
    pub ghost sound: { Spelled bytes.now } by { Spelled-prop bytes.now },
}

// A term by its outermost kind and parts.
#[derive(Clone, Copy, Debug, PartialEq, Eq)]
pub enum Shape<'a> {
    Channel(u32),
    Name(u32),
    // x and y together
    Both(Term<'a>, Term<'a>),
    // x quoting y
    Quoting(Term<'a>, Term<'a>),
    // x in a role
    AsRole(Term<'a>, u32),
    // x acting for y
    ActingFor(Term<'a>, Term<'a>),
}
