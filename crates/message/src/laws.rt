// What is proved of reading messages, in the words of the format.
ghost use Rattle.message.specs.Laws.{ExactlyMessagesAreRead, MessageRowsAreExact};

// A message is read as its content exactly when its bytes are that content's; each row comes in the cases of its row,
// at its place, and in no others.
pub fn reading_is_exact()
    ensures messages { ExactlyMessagesAreRead }
    ensures rows { MessageRowsAreExact }
{}
