// A cursor's readers.
ghost use Rattle.std.specs.Prelude.{◌≡◌, ℕ, ◌+◌, ◌-◌, ◌<◌, ◌≤◌, length, drop, Some, None, MatchResult};
ghost use Rattle.reading.specs.Reading.{barred, inner_number, read_number, read_inner, read_term, at_end};
ghost use Rattle.reading.specs.Numbers.{Bytes};
ghost use Rattle.reading.specs.Terms.{part};
ghost use Rattle.reading.specs.Cursors.{over, rest, unread, span, Reads, Passes, SpellsTerm, TellsEnd, Forward};

use crate::cursor::{Cursor, Row};
use crate::kind::Kind;
use crate::number::Number;

fn between(bytes: &[u8], start: usize, end: usize) -> &[u8]
    requires { (start ≤ end) × (end ≤ length bytes.now) }
    ensures value { result.now ≡ part bytes.now start end }
    ensures fits { Bytes bytes.now }
{
    &bytes[start..end]
}

impl<'a> Cursor<'a> {
    pub fn new(bytes: &'a [u8]) -> Self
        ensures input { over result ≡ bytes.now }
        ensures left { rest result ≡ bytes.now }
    {
        Cursor { bytes, at: 0 }
    }

    // Whether an item of `size` bytes can be read, in the term that starts at `start`. The start is passed on: a struct of it
    // and the cursor would have to be taken apart again after each term, also after one that fails.
    fn item(&self, start: usize, size: usize) -> Result<(), Row>
        requires { (start ≤ self.now.at) × (size ≤ 60) }
        ensures { MatchResult result (λ _. (barred size (span self.now start) (unread self.now) ≡ None) × (self.now.at + size ≤ length self.now.bytes.now)) (λ row. barred size (span self.now start) (unread self.now) ≡ Some row) }
    {
        if self.at - start > 60 - size {
            return Err(Row::TooLong);
        }
        if self.bytes.len() - self.at < size {
            return Err(Row::CutShort);
        }
        Ok(())
    }

    fn inner_number(&mut self, start: usize) -> Result<(), Row>
        requires { start ≤ self.old.at }
        ensures on { Forward self.old self.new result }
        ensures reads { Passes (inner_number (span self.old start)) self.old result self.new }
    {
        self.item(start, 4)?;
        self.at += 4;
        Ok(())
    }

    // Passes the term that comes next, in the term that starts at `start`: first the terms inside it.
    fn inner_term(&mut self, start: usize) -> Result<(), Row>
        requires { start ≤ self.old.at }
        ensures on { Forward self.old self.new result }
        ensures reads { Passes (read_inner (span self.old start)) self.old result self.new }
    {
        self.item(start, 1)?;
        let kind = Kind::try_from(self.bytes[self.at])?;
        self.at += 1;
        match kind {
            Kind::Channel | Kind::Name => self.inner_number(start),
            Kind::Both | Kind::Quoting | Kind::ActingFor => {
                self.inner_term(start)?;
                self.inner_term(start)
            }
            Kind::AsRole => {
                self.inner_term(start)?;
                self.inner_number(start)
            }
        }
    }

    // The next number.
    pub fn number<N: Number>(&mut self) -> Result<N, Row>
        ensures { Reads N.value (read_number N.WIDTH) self.old result self.new }
    {
        let here = &self.bytes[self.at..];
        if here.len() < N::WIDTH {
            return Err(Row::CutShort);
        }
        self.at += N::WIDTH;
        Ok(N::from_front(here))
    }

    // The next term: its bytes.
    pub fn term(&mut self) -> Result<&'a [u8], Row>
        ensures { SpellsTerm read_term self.old result self.new }
    {
        let start = self.at;
        self.inner_term(start)?;
        Ok(between(self.bytes, start, self.at))
    }

    #[tactic(auto, using(crate::proofs::Terms::tells_end))]
    fn is_over(&self) -> bool
        ensures { TellsEnd self.now result }
    {
        self.at >= self.bytes.len()
    }

    // Nothing is left to read.
    pub fn end(&self) -> Result<(), Row>
        ensures { Reads (λ u. u) at_end self.now result self.now }
    {
        if self.is_over() {
            Ok(())
        } else {
            Err(Row::LeftOver)
        }
    }

    // How many bytes are left to read.
    pub fn left(&self) -> usize
        ensures { result ≡ unread self.now }
    {
        let whole = self.bytes.len();
        whole - self.at
    }
}
