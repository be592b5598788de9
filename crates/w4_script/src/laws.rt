//! Laws of texts of lines, as contracts of functions that do nothing.

ghost use Rattle.w4_script.specs.InputsTextLaws.{LinesAreCarriedOut, LinesRemakeInputs, ScriptRemakesInputs};

/// The text of a recording's inputs makes them again, as a script and in a live session.
pub fn inputs_are_remade()
    ensures script { ScriptRemakesInputs }
    ensures session { LinesRemakeInputs }
    ensures answers { LinesAreCarriedOut }
{}
