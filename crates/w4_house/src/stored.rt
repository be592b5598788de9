//! Files in memory: a map from names to bytes.

ghost use Rattle.std.specs.Prelude.{◌≡◌, OnOk, OnErr};
ghost use Rattle.std.specs.FinMap.{insert};
ghost use Rattle.w4_house.specs.Stored.{stored_files};

use std::alloc::Global;
use std::collections::BTreeMap;
use w4_defs::OutOfMemory;

/// Makes the file of this name just these bytes.
pub(crate) fn put(
    alloc: Global,
    files: &mut BTreeMap<String, Vec<u8>>,
    name: &str,
    bytes: &[u8],
) -> Result<(), OutOfMemory>
    ensures whole { OnOk result
        (stored_files files.new ≡ insert (stored_files files.old) name.now bytes.now) }
    ensures refused { OnErr result (stored_files files.new ≡ stored_files files.old) }
{
    let key = String::from_str(alloc, name)?;
    let value = Vec::from_slice(alloc, bytes)?;
    files.insert(key, value)?;
    Ok(())
}
