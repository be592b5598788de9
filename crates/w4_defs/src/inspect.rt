//! What a query of memory asks for.

/// What a narrowing asks of the value at an address, at its place and at that of the call before. Numbers are
/// unsigned.
#[derive(Clone, Copy, PartialEq, Eq, Debug)]
pub enum Test {
    /// The new value is this number.
    Is { value: u32 },
    /// Both values are equal.
    Same,
    /// They differ.
    Changed,
    /// The new value is greater than the old one.
    More,
    /// The new value is smaller than the old one.
    Less,
}

/// A request of a query. A width is 1, 2 or 4 bytes; places count frames from the reset.
#[derive(Clone, Copy, PartialEq, Eq, Debug)]
pub enum Ask {
    /// The values at an address, at each place from `a` to `b`, where `a` is at most `b`.
    Watch {
        address: u32,
        width: u32,
        a: u32,
        b: u32,
    },
    /// A new search begins with all addresses at place `p`.
    Start {
        width: u32,
        p: u32,
    },
    /// The search keeps the addresses at which the test holds at place `p`.
    Narrow {
        p: u32,
        test: Test,
    },
    /// The addresses that are left are listed.
    List,
}

/// One line of a query: a request, or one of the orders of a script that keep places.
#[derive(Clone, Copy, PartialEq, Eq, Debug)]
pub enum QueryLine {
    /// A request.
    Ask { ask: Ask },
    /// The state of place `p` is kept.
    Keep { p: u32 },
    /// Each place that is a multiple of `every`, at least 1, is kept.
    KeepEvery { every: u32 },
}
