//! Lists of names: one file's name in each line that isn't empty.

ghost use Rattle.std.specs.Prelude.{◌≡◌, IfErr, IfOk, Ok, map, option_map, string_bytes};
ghost use Rattle.w4_defs.specs.NameLists.{name_after, names_of};
ghost use Rattle.w4_script.specs.Refusal.{Refuses};

use crate::name_lines::NameLines;
use crate::refusal::ScriptRefusal;
use std::alloc::Global;
use std::str;

/// The greatest length of a list, in bytes: 256 lines of at most 255 bytes and their end.
pub const MOST_LIST_BYTES: usize = 65_536;

/// How many names a list has at most.
const MOST_NAMES: usize = 256;

/// How many bytes a name has at most.
const MOST_NAME_BYTES: usize = 255;

/// The name that a line is, after that many others.
fn name_after(count: usize, line: &[u8]) -> Option<&str>
    ensures { option_map (λ name. name.now) result ≡ name_after count line.now }
{
    if count >= MOST_NAMES || line.len() > MOST_NAME_BYTES {
        return None;
    }
    match str::from_utf8(line) {
        Ok(name) => Some(name),
        Err(_) => None,
    }
}

/// The names of a list, in order: at most 256 of at most 255 bytes of UTF-8, each in a line as it stands. One
/// byte 13 at the end of a line is dropped, and empty lines are skipped. A list of more than 65,536 bytes is
/// too long; otherwise the first line that isn't such a name, or is the 257th, is bad.
#[tactic(auto, unfolding(w4_defs::specs::NameLists::names_of))]
pub fn read_names(alloc: Global, bytes: &[u8]) -> Result<Vec<String>, ScriptRefusal>
    ensures names { IfOk result (λ names. names_of bytes.now ≡ Ok (map string_bytes names.items)) }
    ensures refused { IfErr result (λ refusal. Refuses refusal (names_of bytes.now)) }
{
    if bytes.len() > MOST_LIST_BYTES {
        return Err(ScriptRefusal::TooLong);
    }
    let mut names = Vec::new(alloc);
    for line in NameLines::of(bytes) {
        match name_after(names.len(), line.name) {
            Some(name) => names.push(String::from_str(alloc, name)?)?,
            None => return Err(ScriptRefusal::BadLine(line.number)),
        }
    }
    Ok(names)
}
