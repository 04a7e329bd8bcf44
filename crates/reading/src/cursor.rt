// A place in an input, from which items are read one after another.
ghost use Rattle.std.specs.Prelude.{◌≤◌, length};

mod faults;
mod reads;

// Why an item could not be read, by its number among the refusals of reading.
#[derive(Clone, Copy, Debug, PartialEq, Eq)]
pub enum Row {
    // The bytes end inside a field or term.
    CutShort = 1,
    // A kind byte that is not taken there.
    UnknownKind = 2,
    // The term would pass 60 bytes.
    TooLong = 3,
    // Bytes are left over.
    LeftOver = 4,
}

// `at` is where the next item starts. A reader that fails leaves it at the item that failed. A cursor of the rest alone
// is no plainer: that it stays over its input would be said of nothing that it holds, and a term's start would be a count.
#[derive(Drop)]
pub struct Cursor<'a> {
    bytes: &'a [u8],
    at: usize,
    ghost within: { at ≤ length bytes.now },
}
