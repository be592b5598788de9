//! What the prover has shown of the operations' definitions.

ghost use Rattle.std.specs.Prelude.{ℕ, ◌<◌};
ghost use Rattle.wasm_num.specs.Traps.{TrapsExactly};

/// Which operations trap, with which cause, at which operands.
pub fn trap_law()
    ensures { (width : ℕ) → 0 < width → TrapsExactly width }
{}
