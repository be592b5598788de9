//! What a search has left, however it was narrowed, as the contract of a function that does nothing.

ghost use Rattle.w4_inspect.specs.Search.{FoundIsRemaining, FoundRises};

/// After any accepted narrowings, the addresses at which all their tests held, in rising order.
pub fn narrowing_laws()
    ensures left { FoundIsRemaining }
    ensures rising { FoundRises }
{}
