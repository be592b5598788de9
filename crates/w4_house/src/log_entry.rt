//! What was done, as a house in memory logs it.

/// A line was taken, the input was found to be at its end, a read of it failed, bytes were written to
/// standard output, a file was replaced, or replacing the file of this name failed.
#[derive(PartialEq, Debug, Drop)]
pub enum LogEntry {
    Line(Vec<u8>),
    InputEnd,
    InputFault,
    Output(Vec<u8>),
    File { name: String, bytes: Vec<u8> },
    FileFault(String),
}
