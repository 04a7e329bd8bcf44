// What is proved of writing messages, in the words of the format.
ghost use Rattle.writer.specs.RoundTrip.{WrittenMessagesReadBack, ReadMessagesWriteBack};

// A message that is written reads back as its fields, and one that is read is written again as the same bytes.
pub fn messages_round_trip()
    ensures written { WrittenMessagesReadBack }
    ensures read { ReadMessagesWriteBack }
{}
