//! Laws of the bytes that are written. A function here does nothing: its contract is the law.

ghost use Rattle.wasm_write.specs.Laws.{MadeModulesAreCarts, ModulesAreEncoded, SignedAreShortest, UnsignedAreShortest};

/// The bytes of a module encode it, wherever the format can encode it.
pub fn modules_are_encoded()
    ensures { ModulesAreEncoded }
{}

/// The bytes of the module that is made of a number are a cart, whatever the number.
pub fn made_modules_are_carts()
    ensures { MadeModulesAreCarts }
{}

/// No encoding of a number is shorter than the one that is written.
pub fn numbers_are_shortest()
    ensures unsigned { UnsignedAreShortest }
    ensures signed { SignedAreShortest }
{}
