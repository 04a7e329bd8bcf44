// What is proved of reading terms, in the words of the format.
ghost use Rattle.reading.specs.Laws.{ExactlyTermsAreRead, RowsAreExact, TermsAreToldApart};

// Exactly the terms of at most 60 bytes are read; each row comes in the cases of its row, at its place, and in no
// others; no term begins another, and different principals have different terms.
pub fn reading_is_exact()
    ensures terms { ExactlyTermsAreRead }
    ensures rows { RowsAreExact }
    ensures apart { TermsAreToldApart }
{}
