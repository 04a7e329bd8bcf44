// What is proved of reading an input as one term, in the words of the format.
ghost use Rattle.principal.specs.Laws.{ExactlyOneTermIsRead, InputFaultsAreExact};

// An input is read as a principal exactly when it is that principal's term; each fault comes in its own cases, at its
// place, and in no others.
pub fn an_input_is_one_term()
    ensures terms { ExactlyOneTermIsRead }
    ensures faults { InputFaultsAreExact }
{}
