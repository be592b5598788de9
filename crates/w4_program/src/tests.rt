//! What neither a clause nor a case of cases/ shows: houses whose calls fail, and workers of a whole command
//! that are under way at once.

mod at_once;
mod each_call;
mod houses;
mod live;
