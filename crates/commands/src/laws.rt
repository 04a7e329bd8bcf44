// What is proved of the lines of a script, besides what each function answers.
ghost use Rattle.commands.specs.Laws.{WordsAskForOneCall};

// The words of a line ask for one call at most.
pub fn calls_are_told_apart()
    ensures { WordsAskForOneCall }
{}
