//! What neither a clause nor a case of cases/ shows: that the house of the program reads and writes what the
//! system has, and that calls which take memory succeed where there is enough.

mod devices;
mod houses;
mod script;
mod write_lists;
mod write_modules;
