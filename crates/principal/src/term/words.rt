// A term in words.
ghost use Rattle.std.specs.Prelude.{Some};
ghost use Rattle.principal.specs.Terms.{means};
ghost use Rattle.principal.specs.Words.{principal_text};

use crate::term::{Shape, Term};
use std::fmt;

impl fmt::Display for Term<'_> {
    ghost output = { λ term. Some (principal_text (means term)) };

    fn fmt<W: fmt::Write>(&self, f: &mut fmt::Formatter<W>) -> fmt::Result {
        let (x, word, y) = match self.shape() {
            Shape::Channel(number) => return write!(f, "channel {number}"),
            Shape::Name(number) => return write!(f, "name {number}"),
            Shape::AsRole(x, role) => {
                f.write_str("(")?;
                x.fmt(f)?;
                return write!(f, " as {role})");
            }
            Shape::Both(x, y) => (x, " and ", y),
            Shape::Quoting(x, y) => (x, " quoting ", y),
            Shape::ActingFor(x, y) => (x, " for ", y),
        };
        f.write_str("(")?;
        x.fmt(f)?;
        f.write_str(word)?;
        y.fmt(f)?;
        f.write_str(")")
    }
}
