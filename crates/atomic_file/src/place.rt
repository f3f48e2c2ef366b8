//! Where a file is, and where its draft goes.

use std::alloc::Global;
use std::fs::{self, Files, OpenFile, OpenOptions, Permissions};
use std::io::{self, ErrorKind};
use std::path::Path;

// What a draft is to replace.
#[derive(Drop)]
pub struct Target {
    // Behind any symbolic link.
    pub path: String,
    // Those of the file that is there.
    pub permissions: Option<Permissions>,
}

// The path, or if it is a symbolic link, that of the file that it leads to.
fn resolved<R: Files>(files: &R, alloc: Global, path: &str) -> io::Result<String> {
    if let Ok(found) = fs::symlink_metadata(files, path) {
        if found.is_symlink() {
            return Ok(files.canonicalize(alloc, path)?.into_string());
        }
    }
    Ok(String::from_str(alloc, path)?)
}

// The permissions of the file, if there is one. Anything else than a regular file is refused.
fn permissions_of<R: Files>(files: &R, path: &str) -> io::Result<Option<Permissions>> {
    match fs::metadata(files, path) {
        Ok(found) => {
            if found.is_dir() {
                return Err(io::Error::from(ErrorKind::IsADirectory));
            }
            if !found.is_file() {
                return Err(io::Error::new(ErrorKind::InvalidInput, "not a regular file"));
            }
            Ok(Some(found.permissions()))
        }
        Err(error) => {
            if error.kind() != ErrorKind::NotFound {
                return Err(error);
            }
            Ok(None)
        }
    }
}

// What a draft for this path is to replace.
pub fn target_of<R: Files>(files: &R, alloc: Global, path: &str) -> io::Result<Target> {
    let path = resolved(files, alloc, path)?;
    let permissions = permissions_of(files, path.as_str())?;
    Ok(Target { path, permissions })
}

// The folder of a path.
pub fn folder_of(path: &str) -> &str {
    match Path::new(path).parent() {
        Some(folder) => {
            let text = folder.as_str();
            if text.is_empty() { "." } else { text }
        }
        None => ".",
    }
}

// Creates a draft in the folder, by a name that nothing there has.
pub fn make_new<R: Files>(
    files: &R,
    alloc: Global,
    folder: &str,
    number: u64,
) -> io::Result<(String, R::File)> {
    let path = format!(in alloc; "{folder}/.{number:016x}.draft")?;
    let file = OpenOptions::new()
        .write(true)
        .create_new(true)
        .open(files, path.as_str())?;
    Ok((path, file))
}

// Gives the draft the permissions of the file that it is to replace.
pub fn permit<F: OpenFile>(file: &F, permissions: Option<Permissions>) -> io::Result<()> {
    match permissions {
        Some(permissions) => file.set_permissions(permissions),
        None => Ok(()),
    }
}
