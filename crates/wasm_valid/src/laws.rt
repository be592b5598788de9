//! Laws of the definition of typing, which the pass over a body stands on.

ghost use Rattle.wasm_valid.specs.AbstractStackLaw.{StackDecides, StackDecidesBodies, StackDecidesFrom};
ghost use Rattle.wasm_valid.specs.Called.{CallsAreCounted, OwnBodiesAreTyped};
ghost use Rattle.wasm_valid.specs.Instructions.{InstructionsAreCounted};
ghost use Rattle.wasm_valid.specs.Pass.{PassDecidesBodies};

/// A list has a type from no operands if and only if its abstract stack is there and stands for the type. The
/// second clause says it from any abstract stack that knows no float.
pub fn stack_decides()
    ensures from_nothing { StackDecides }
    ensures from_any { StackDecidesFrom }
{}

/// In a module in which no f32 or f64 stands an own body has its type if and only if its abstract stack
/// stands for the function's results.
pub fn stack_decides_bodies()
    ensures { StackDecidesBodies }
{}

/// The pass over the marks of a body, with one abstract stack for each open list, comes to the end with none
/// open if and only if the body's abstract stack stands for the function's results.
pub fn pass_decides_bodies()
    ensures { PassDecidesBodies }
{}

/// The marks of a flattening besides each `else` and each `end` are as many as the instructions of its tree.
pub fn instructions_are_counted()
    ensures { InstructionsAreCounted }
{}

/// In a valid module the body of each own function that an index names leads from no operands to its results.
/// And where a function index has a type, its call takes and gives as many values as the type says.
pub fn called_functions_are_typed()
    ensures bodies { OwnBodiesAreTyped }
    ensures calls { CallsAreCounted }
{}
