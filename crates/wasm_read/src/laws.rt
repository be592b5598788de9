//! Laws of what bytes encode, as contracts of functions that do nothing.

ghost use Rattle.wasm_read.specs.MalformedCases.{MalformedCases};
ghost use Rattle.wasm_read.specs.Reserves.{ReservesAreSmall};

/// No function of an accepted cart has so large a reserve that it couldn't be entered.
pub fn reserves_are_small()
    ensures { ReservesAreSmall }
{}

/// A size in six bytes, one with an unused bit set, and a section past the end encode no module.
pub fn malformed_cases()
    ensures { MalformedCases }
{}
