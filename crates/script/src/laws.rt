// What is proved of words, besides what each function answers.
ghost use Rattle.script.specs.Split.{PartsMakeTheLine, OnlyThePartsDo};

// The words of a line are the one way to make it of words without spaces.
pub fn splitting_is_exact()
    ensures makes { PartsMakeTheLine }
    ensures only { OnlyThePartsDo }
{}
