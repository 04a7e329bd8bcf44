// The parts of a line between single spaces.
ghost use Rattle.std.specs.Prelude.{◌≡◌, ◌∷◌, ◌==◌, position};
ghost use Rattle.std.specs.Iterator.{YieldsFirstRef, item_count};
ghost use Rattle.script.specs.Split.{split};
ghost use Rattle.script.specs.Words.{parts_of, left};

// The words that are left: those of `rest`, or none. The iterator of the library's `split` has a closure in its type: a
// struct could hold it by a type parameter only, and each contract of such a struct would speak of any iterator.
#[derive(Drop)]
pub struct Words<'a> {
    rest: Option<&'a [u8]>,
}

fn first_space(line: &[u8]) -> Option<usize>
    ensures { result ≡ position (λ c. c == 32) line.now }
{
    line.iter().position(|byte| *byte == b' ')
}

// The first word, and what follows the space after it, if there is one.
#[tactic(auto, using(crate::proofs::Splitting::split_at_space, crate::proofs::Splitting::split_no_space))]
fn cut(line: &[u8]) -> (&[u8], Option<&[u8]>)
    ensures { split line.now ≡ result.0.now ∷ parts_of result.1 }
{
    match first_space(line) {
        Some(end) => (&line[..end], Some(&line[end + 1..])),
        None => (line, None),
    }
}

impl<'a> Words<'a> {
    pub fn new(line: &'a [u8]) -> Words<'a>
        ensures { left result ≡ split line.now }
    {
        Words { rest: Some(line) }
    }
}

// A word is empty between two spaces in a row, and beside a space at either end of the line.
impl<'a> Iterator for Words<'a> {
    type Item = &'a [u8];

    ghost next_gives = { YieldsFirstRef left };

    ghost remaining = { item_count left };

    fn next(&mut self) -> Option<&'a [u8]> {
        let (word, rest) = cut(self.rest?);
        self.rest = rest;
        Some(word)
    }
}
