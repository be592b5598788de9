//! What neither a clause nor a case of cases/ shows: that two pieces of work are under way at once, and that
//! calls that take memory, if no test of w4_program makes them, succeed where there is enough of it.

mod editor;
mod replica;
mod segments;
