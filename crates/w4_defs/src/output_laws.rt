//! What the definition of the program's output promises, as a contract of a function that does nothing.

ghost use Rattle.w4_defs.specs.OneOutput.{OthersTakeNoLines};
ghost use Rattle.w4_defs.specs.OutputsThere.{CompleteIsDone, MadeOutputsAreThere, OutputsAreThere};
ghost use Rattle.w4_defs.specs.WorkedAnswers.{RefusalsInOrder};

/// What comes of arguments and files is there, if the runs of the cart that is named or made have a meaning.
pub fn outputs_are_there()
    ensures over_carts { OutputsAreThere }
    ensures made { MadeOutputsAreThere }
{}

/// If everything is there that a command names, its output is no refusal.
pub fn complete_is_done()
    ensures { CompleteIsDone }
{}

/// Only a live session takes lines: what any other command does is the same whatever lines there are.
pub fn others_take_no_lines()
    ensures { OthersTakeNoLines }
{}

/// Which refusal comes first where several hold.
pub fn refusals_in_order()
    ensures { RefusalsInOrder }
{}
