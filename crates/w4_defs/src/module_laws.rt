//! Laws of the definitions of modules, and worked cases of them.

ghost use Rattle.w4_defs.specs.BinaryNumber.{NumberCases, TooLongNumber};
ghost use Rattle.w4_defs.specs.Cart.{EveryFileIsJudged};
ghost use Rattle.w4_defs.specs.EmptyCart.{DataCountIsSpelled, EmptyCartIsCart, EmptyCartIsSpelled, LongSizeIsSpelled, MixedCodeHasNoStack, PreambleIsRefused, UnreachableCodeHasType};
ghost use Rattle.w4_defs.specs.Typing.{TypesInParts};
ghost use Rattle.w4_defs.specs.View.{ViewCase};

/// Numbers in one, two and five bytes.
pub fn numbers_are_spelled()
    ensures { NumberCases }
{}

/// In the fifth byte of a u32 the unused bits are 0.
pub fn unused_bits_are_zero()
    ensures { TooLongNumber }
{}

/// 53 bytes encode the smallest cart: one function `update` that does nothing.
pub fn empty_cart_is_spelled()
    ensures { EmptyCartIsSpelled }
{}

/// A size may be encoded in up to five bytes, and the module is the same.
pub fn long_size_is_spelled()
    ensures { LongSizeIsSpelled }
{}

/// A data count section leaves no trace.
pub fn data_count_is_spelled()
    ensures { DataCountIsSpelled }
{}

/// The first 8 bytes alone encode a module, which imports no memory.
pub fn preamble_is_refused()
    ensures { PreambleIsRefused }
{}

/// None of the causes of a refusal holds of these 53 bytes.
pub fn empty_cart_is_cart()
    ensures { EmptyCartIsCart }
{}

/// Behind `unreachable` the typing chooses the operands of `i32.add`.
pub fn unreachable_code_has_type()
    ensures { UnreachableCodeHasType }
{}

/// An i64 that was pushed behind `unreachable` is no operand of `i32.add`.
pub fn mixed_code_has_no_stack()
    ensures { MixedCodeHasNoStack }
{}

/// A list has a type where its two parts have, wherever it is cut.
pub fn lists_have_types_in_parts()
    ensures { TypesInParts }
{}

/// Every list of bytes is a cart or is refused for a kind. Stated as it can be without the excluded middle:
/// it is never neither.
pub fn every_file_is_judged()
    ensures { EveryFileIsJudged }
{}

/// The default of a br_table is its last label, and an `if` without an `else` has one list.
pub fn instructions_are_seen_as_trees()
    ensures { ViewCase }
{}
