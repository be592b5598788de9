//! The refusals of files of lines.

ghost use Rattle.std.specs.Prelude.{◌≡◌};
ghost use Rattle.w4_commands.specs.LinesRefusal.{lines_refusal, lines_refused};
ghost use Rattle.w4_commands.specs.declared.lines_refusal.LinesFile.TheVariants.{List as Listed, Script};

use w4_defs::{Refusal, ScriptKind};
use w4_script::ScriptRefusal;

/// A kind of file of lines, by how it is refused.
#[derive(Clone, Copy)]
pub enum LinesFile {
    /// A script, a log or a query.
    Script,
    /// A list of names.
    List,
}

/// The refusal of a file for what stands in it.
fn lines_refused(file: LinesFile, kind: ScriptKind) -> Refusal
    ensures { result ≡ lines_refused file kind }
{
    match file {
        LinesFile::Script => Refusal::ScriptRefused(kind),
        LinesFile::List => Refusal::ListRefused(kind),
    }
}

/// The refusal of a file that its reader refuses.
fn lines_refusal(file: LinesFile, refusal: ScriptRefusal) -> Refusal
    ensures { result ≡ lines_refusal file refusal }
{
    match refusal {
        ScriptRefusal::TooLong => lines_refused(file, ScriptKind::TooLong),
        ScriptRefusal::BadLine(number) => lines_refused(file, ScriptKind::BadLine(number)),
        ScriptRefusal::OutOfMemory => Refusal::OutOfMemory,
    }
}

/// The refusal of a script, a log or a query.
pub fn script_refusal(refusal: ScriptRefusal) -> Refusal
    ensures { result ≡ lines_refusal Script refusal }
{
    lines_refusal(LinesFile::Script, refusal)
}

/// The refusal of a list of names.
pub fn list_refusal(refusal: ScriptRefusal) -> Refusal
    ensures { result ≡ lines_refusal Listed refusal }
{
    lines_refusal(LinesFile::List, refusal)
}
