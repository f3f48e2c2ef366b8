//! A new file beside the one that it is to replace.
ghost use Rattle.std.specs.Prelude.{◌≡◌, IfErr};
ghost use Rattle.atomic_file.specs.Steps.{IsOfMaking, IsOfPlacing};

use crate::fault::{FileStep, StoreFault};
use crate::place::{Target, folder_of, make_new, permit, target_of};
use std::alloc::Global;
use std::fs::{File, Files, OpenFile};
use std::io::{self, ErrorKind, Write};

/// How many names are tried for a draft.
pub const MAX_NAMES: u64 = 16;

/// A file that is being written and is not yet in place. Its drop removes it.
///
/// Its name is `.NUMBER.draft`, in the folder of the file that it is to replace; NUMBER has 16
/// hexadecimal digits. A process that is killed leaves it behind. No later draft reads, reuses or
/// removes it, since each takes a name that is free; whoever finds it may remove it.
pub struct Draft<'a, R: Files> {
    files: &'a R,
    // The path of the file that it is to replace.
    target: String,
    // Its own path.
    path: String,
    file: R::File,
    folder: R::File,
}

fn failed(step: FileStep, error: io::Error) -> StoreFault
    ensures { result.step ≡ step }
{
    StoreFault { step, error }
}

// Creates a draft by the first name that is free, of those from this number on.
fn make_free<R: Files>(
    files: &R,
    alloc: Global,
    folder: &str,
    number: u64,
) -> io::Result<(String, R::File)> {
    for more in 0..MAX_NAMES {
        match make_new(files, alloc, folder, number.wrapping_add(more)) {
            Ok(made) => return Ok(made),
            Err(error) => {
                if error.kind() != ErrorKind::AlreadyExists {
                    return Err(error);
                }
            }
        }
    }
    Err(io::Error::from(ErrorKind::AlreadyExists))
}

// Syncs the draft and renames it over the old file.
fn put_in_place<R: Files>(
    files: &R,
    file: &R::File,
    path: &str,
    target: &str,
) -> Result<(), StoreFault>
    ensures { IfErr result (λ why. IsOfPlacing why.step) }
{
    if let Err(error) = file.sync_all() {
        return Err(failed(FileStep::Sync, error));
    }
    if let Err(error) = files.rename(path, target) {
        return Err(failed(FileStep::Rename, error));
    }
    Ok(())
}

impl<'a, R: Files> Draft<'a, R> {
    /// Creates a draft of the file at `path`, which may exist or not. A symbolic link is followed:
    /// the file behind it is the one to be replaced. The draft gets the old file's permissions, not
    /// its owner.
    ///
    /// The number picks the draft's name: drafts that are created at one time should have numbers
    /// far apart, as random ones are. If the name is taken the next number is tried,
    /// [`MAX_NAMES`] in all.
    ///
    /// # Errors
    /// In this order: the steps `Target`, `Folder` and `Create`. No draft is left, and the old file
    /// is unchanged.
    pub fn create(
        files: &'a R,
        alloc: Global,
        path: &str,
        number: u64,
    ) -> Result<Draft<'a, R>, StoreFault>
        ensures { IfErr result (λ why. IsOfMaking why.step) }
    {
        let Target {
            path: target,
            permissions,
        } = match target_of(files, alloc, path) {
            Ok(target) => target,
            Err(error) => return Err(failed(FileStep::Target, error)),
        };
        let folder = match File::open(files, folder_of(target.as_str())) {
            Ok(folder) => folder,
            Err(error) => return Err(failed(FileStep::Folder, error)),
        };
        let (path, file) = match make_free(files, alloc, folder_of(target.as_str()), number) {
            Ok(made) => made,
            Err(error) => return Err(failed(FileStep::Create, error)),
        };
        let draft = Draft {
            files,
            target,
            path,
            file,
            folder,
        };
        if let Err(error) = permit(&draft.file, permissions) {
            return Err(failed(FileStep::Create, error));
        }
        Ok(draft)
    }

    /// Puts the draft in place: syncs it, renames it over the old file, and syncs their folder.
    ///
    /// # Errors
    /// In this order:
    /// - The steps `Sync` and `Rename`: the draft is removed, and the old file is unchanged.
    /// - The step `SyncFolder`: the new file is in place, and a loss of power may bring the old one
    ///   back.
    pub fn commit(self) -> Result<(), StoreFault>
        ensures { IfErr result (λ why. IsOfPlacing why.step) }
    {
        let Draft {
            files,
            target,
            path,
            file,
            folder,
        } = self;
        if let Err(fault) = put_in_place(files, &file, path.as_str(), target.as_str()) {
            let _ = files.remove_file(path.as_str());
            return Err(fault);
        }
        if let Err(error) = folder.sync_all() {
            return Err(failed(FileStep::SyncFolder, error));
        }
        Ok(())
    }
}

impl<'a, R: Files> Write for Draft<'a, R> {
    fn write(&mut self, buf: &[u8]) -> io::Result<usize> {
        self.file.write(buf)
    }

    fn flush(&mut self) -> io::Result<()> {
        self.file.flush()
    }
}

impl<'a, R: Files> Drop for Draft<'a, R> {
    fn drop(self) {
        let Draft {
            files,
            target: _,
            path,
            file: _,
            folder: _,
        } = self;
        // If it cannot be removed, it stays, as after a kill.
        let _ = files.remove_file(path.as_str());
    }
}
