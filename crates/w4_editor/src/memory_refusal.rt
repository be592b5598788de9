//! A refusal that can be for memory alone.

ghost use Rattle.std.specs.Prelude.{◌≡◌};

use w4_defs::{EditRefusal, OutOfMemory};

/// What is left of a refusal where no other cause holds: memory was refused.
pub fn only_memory(refusal: EditRefusal) -> OutOfMemory
    requires { refusal ≡ EditRefusal.OutOfMemory }
{
    prove!(refusal == EditRefusal::OutOfMemory);
    OutOfMemory
}
