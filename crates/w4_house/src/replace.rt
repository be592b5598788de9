//! Files of the system, replaced whole: a new file is written beside the old one, if any, and then takes the
//! name.
//!
//! No clause speaks of what stands in the system's files. Until the rename the old file is as it was, and
//! whatever fails before it, the file beside is removed again. After it only the folder is synchronised: if that
//! fails, the file has its new bytes, and a power failure may bring the old one back.

ghost use Rattle.std.specs.Prelude.{◌≡◌, ◌≢◌, IfErr, bit_and, if◌then◌else◌};
ghost use Rattle.std.specs.IoError.{error_kind};

use std::alloc::Global;
use std::fs::{self, Metadata, OpenFile, OpenOptions, Permissions};
use std::io::{self, ErrorKind, Write};
use std::os::unix::fs::{MetadataExt, OpenOptionsExt, PermissionsExt};
use std::path::{Path, PathBuf};
use std::rt::Files;

/// How many names are tried for the file beside. A process that is killed while it writes one leaves its name taken,
/// and whatever has a name is left alone, be it a file, a link, a pipe or a folder.
const NAMES: u32 = 10_000;

/// How many links are followed, as many as Linux follows.
const LINKS: u32 = 40;

/// The permissions of a file beside, until it gets those of the file that it replaces.
const OWNER_ALONE: u32 = 0o600;

/// The permissions that a new file takes over from the old one: all but set-uid, set-gid and sticky.
const TAKEN_OVER: u32 = 0o777;

/// Those that it takes over where its owner or its group is another. What the old group was allowed isn't for the
/// new one.
const TAKEN_FROM_ANOTHER: u32 = 0o707;

/// Makes a file of exactly these bytes. A link stays, and the file that it leads to is made. Anything but a
/// regular file, such as a device or a pipe, is written into.
pub(crate) fn replace<R: Files>(
    alloc: Global,
    runtime: &R,
    name: &str,
    bytes: &[u8],
) -> io::Result<()> {
    match fs::metadata(runtime, name) {
        Ok(found) => {
            if !found.is_file() {
                return write_into(runtime, name, bytes);
            }
            let path = follow_links(alloc, runtime, name)?;
            // A file that can't be written isn't replaced either.
            OpenOptions::new().write(true).open(runtime, path.as_str())?;
            put_beside(alloc, runtime, path.as_str(), bytes, Some(&found))
        }
        Err(error) => {
            if error.kind() != ErrorKind::NotFound {
                return Err(error);
            }
            let path = follow_links(alloc, runtime, name)?;
            put_beside(alloc, runtime, path.as_str(), bytes, None)
        }
    }
}

/// Writes into something that isn't a regular file. Since some bytes may have gone before it failed, it never
/// says that memory ran out.
fn write_into<R: Files>(runtime: &R, name: &str, bytes: &[u8]) -> io::Result<()> {
    let mut file = OpenOptions::new().write(true).open(runtime, name)?;
    match file.write_all(bytes) {
        Ok(()) => Ok(()),
        Err(_) => Err(io::Error::from(ErrorKind::Other)),
    }
}

/// The path that the links of this name lead to, which is no link and may be absent.
fn follow_links<R: Files>(alloc: Global, runtime: &R, name: &str) -> io::Result<PathBuf> {
    let mut path = PathBuf::from_str(alloc, name)?;
    for _ in 0..LINKS {
        match fs::symlink_metadata(runtime, path.as_str()) {
            Ok(found) => {
                if !found.is_symlink() {
                    return Ok(path);
                }
            }
            Err(error) => {
                if error.kind() == ErrorKind::NotFound {
                    return Ok(path);
                }
                return Err(error);
            }
        }
        let target = runtime.read_link(alloc, path.as_str())?;
        path.set_file_name(target.as_str())?;
    }
    Err(io::Error::from(ErrorKind::FilesystemLoop))
}

/// Writes a new file beside, and gives it the name. The file that was found is the one that it replaces.
fn put_beside<R: Files>(
    alloc: Global,
    runtime: &R,
    path: &str,
    bytes: &[u8],
    found: Option<&Metadata>,
) -> io::Result<()> {
    let folder = open_folder(runtime, path)?;
    for number in 0..NAMES {
        let beside = format!(in alloc; "{path}.new{number}")?;
        match create(runtime, beside.as_str(), found) {
            Ok(mut file) => {
                let done = fill(&mut file, bytes, found).and_then(|()| fs::rename(
                    runtime,
                    beside.as_str(),
                    path,
                ));
                if done.is_err() {
                    let _removed = fs::remove_file(runtime, beside.as_str());
                    return done;
                }
                return synchronize(folder);
            }
            Err(error) => {
                if error.kind() != ErrorKind::AlreadyExists {
                    return Err(error);
                }
            }
        }
    }
    Err(io::Error::from(ErrorKind::AlreadyExists))
}

/// The folder that a path is in, unless it may be written but not read: such a folder can't be synchronised. It is
/// opened before the rename, so that where that fails the old file stays.
fn open_folder<R: Files>(runtime: &R, path: &str) -> io::Result<Option<R::File>> {
    let folder = match Path::new(path).parent() {
        Some(folder) => folder.as_str(),
        None => "",
    };
    match fs::open(runtime, if folder.is_empty() { "." } else { folder }) {
        Ok(file) => Ok(Some(file)),
        Err(error) => {
            if error.kind() != ErrorKind::PermissionDenied {
                return Err(error);
            }
            Ok(None)
        }
    }
}

/// The names of a folder, on the disk; some file systems can't do that. Since the new file has its name by now,
/// it never says that memory ran out.
fn synchronize<F: OpenFile + Drop>(folder: Option<F>) -> io::Result<()>
    ensures never_out_of_memory { IfErr result (λ error. error_kind error ≢ ErrorKind.OutOfMemory) }
{
    let Some(folder) = folder else {
        return Ok(());
    };
    match folder.sync_all() {
        Ok(()) => Ok(()),
        Err(error) => match error.kind() {
            ErrorKind::InvalidInput | ErrorKind::Unsupported => Ok(()),
            _ => Err(io::Error::from(ErrorKind::Other)),
        },
    }
}

/// A file that wasn't there. If it is to replace another, none but its owner may open it as yet.
fn create<R: Files>(runtime: &R, path: &str, found: Option<&Metadata>) -> io::Result<R::File> {
    let mut options = OpenOptions::new();
    options.write(true).create_new(true);
    if found.is_some() {
        options.mode(OWNER_ALONE);
    }
    options.open(runtime, path)
}

/// All bytes, with the permissions that the file that was found leaves to it, on the disk.
fn fill<F: Write + OpenFile>(
    file: &mut F,
    bytes: &[u8],
    found: Option<&Metadata>,
) -> io::Result<()> {
    file.write_all(bytes)?;
    if let Some(found) = found {
        let made = file.metadata()?;
        let is_same = made.uid() == found.uid() && made.gid() == found.gid();
        let mode = taken_over(found.mode(), is_same);
        file.set_permissions(Permissions::from_mode(mode))?;
    }
    file.sync_all()
}

/// What a new file takes over of the mode of the one that it replaces, which has the same owner and group or not.
fn taken_over(mode: u32, is_same: bool) -> u32
    ensures permissions { result ≡ bit_and mode (if is_same then 0o777 else 0o707) }
{
    let most = if is_same {
        TAKEN_OVER
    } else {
        TAKEN_FROM_ANOTHER
    };
    mode & most
}
