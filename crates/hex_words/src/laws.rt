// What is proved of spelling bytes, besides what each function answers.
ghost use Rattle.hex_words.specs.Spelling.{WordsTellBytesApart};

// A word spells at most one list of bytes.
#[tactic(auto, using(crate::proofs::Spelling::words_tell_bytes_apart))]
pub fn spelling_is_exact()
    ensures { WordsTellBytesApart }
{}
