use crate::name::{Dir, FileName};
use crate::names::Names;
use crate::opening_lock::OpeningLock;
use facet_io::read_retrying;
use std::alloc::{AllocError, Global};
use std::cell::Cell;
use std::fs::{File, Metadata, OpenFile, OpenOptions, TryLockError};
use std::io;
use std::io::{ErrorKind, Read, Write};
use std::os::fd::AsRawFd;
use std::os::unix::fs::MetadataExt;
use std::rt::Files;

/// A folder of the operating system, with a folder in it for each directory. Each call locks the folder first, and no
/// call unlocks it. If it is only read, it is not locked.
///
/// Between the first call that writes and `rest` no other process opens the store to read it only, and while this one
/// opens it to read it only, no other process writes it. For that the two directories' folders are locked.
///
/// Only the opened folder is read and written. Its path is resolved once, when it is locked; where the path leads after
/// a rename or a moved link has no effect.
///
/// Only plain files are read, synced and removed. A link to a plain file is read as that file.
///
/// Errors: the kind `NotFound` means that a file does not exist, and `AlreadyExists` that one does.
#[derive(Drop)]
pub(crate) struct HeldFolder<R: Files<File = File> + Drop> {
    alloc: Global,
    files: R,
    root: String,
    // the folder, with its lock unless it is only read
    folder: Option<File>,
    // a path to the open folder, the prefix of each file's path
    base: String,
    // whether `base` may lead elsewhere later, so that each call checks it first
    may_move: bool,
    // whether another process had locked the folder
    is_in_use: bool,
    // whether a call found no folder, and this disk has not made it since
    was_absent: bool,
    // whether the folders of the two directories were made or found by a call that makes them
    has_folders: bool,
    // whether each call that writes is an error
    is_only_read: Cell<bool>,
    // whether a call that only reads found no folder of the index
    had_no_index: bool,
    // what keeps openings and commits apart, once a call has found the folder of the index
    opening: Option<OpeningLock>,
}

impl<R: Files<File = File> + Drop> HeldFolder<R> {
    /// Copies the path. It makes no system call. Errors: out of memory.
    pub(crate) fn new(alloc: Global, files: R, path: &str) -> Result<HeldFolder<R>, AllocError> {
        let root = String::from_str(alloc, path)?;
        Ok(HeldFolder {
            alloc,
            files,
            root,
            folder: None,
            base: String::new(alloc),
            may_move: false,
            is_in_use: false,
            was_absent: false,
            has_folders: false,
            is_only_read: Cell::new(false),
            had_no_index: false,
            opening: None,
        })
    }

    /// From now on each call that writes is an error. Call it before the first call that reads.
    pub(crate) fn only_read(&self) {
        self.is_only_read.set(true);
    }

    /// Lets other processes write the store, or open it to read it only.
    pub(crate) fn rest(&self) {
        if let Some(opening) = &self.opening {
            opening.release();
        }
    }

    /// Returns whether a call failed because another process has locked the folder.
    pub(crate) fn is_in_use(&self) -> bool {
        self.is_in_use
    }

    // Locks the folder. If another process has locked it, the error is of the kind `WouldBlock`.
    fn lock(&mut self, folder: &File) -> io::Result<()> {
        let locked = folder.try_lock();
        self.is_in_use = matches!(&locked, Err(TryLockError::WouldBlock));
        locked?;
        Ok(())
    }

    // Opens the folder, unless it is open, and locks it, unless it is only read. If another process has locked it, the
    // error is of the kind `WouldBlock`.
    fn take(&mut self) -> io::Result<()> {
        if let Some(folder) = &self.folder {
            return if !self.may_move || leads_to(&self.files, &self.base, folder)? {
                Ok(())
            } else {
                Err(ErrorKind::StaleNetworkFileHandle.into())
            };
        }
        let folder = open_expected(&self.files, &self.root, Expected::Folder)?;
        if !self.is_only_read.get() {
            self.lock(&folder)?;
        }
        let fd = folder.as_raw_fd();
        self.base = format!(in self.alloc; "/proc/self/fd/{fd}")?;
        self.may_move = !leads_to(&self.files, &self.base, &folder)?;
        if self.may_move {
            self.base = resolved_path(self.alloc, &self.files, &self.root, &folder)?;
        }
        self.folder = Some(folder);
        Ok(())
    }

    // Takes the folder, and returns whether it exists. If it did not exist before and another process made it since,
    // that is an error: what this disk has reported of it is no longer true. If it is only read, it is then as it was.
    fn take_if_there(&mut self) -> io::Result<bool> {
        if self.was_absent && self.is_only_read.get() {
            return Ok(false);
        }
        match self.take() {
            Ok(()) => if self.was_absent {
                Err(ErrorKind::WouldBlock.into())
            } else {
                Ok(true)
            },
            Err(e) => if e.kind() == ErrorKind::NotFound {
                self.was_absent = true;
                Ok(false)
            } else {
                Err(e)
            },
        }
    }

    // Does the same, for a call on something in the folder.
    fn take_there(&mut self) -> io::Result<()> {
        if self.take_if_there()? {
            Ok(())
        } else {
            Err(ErrorKind::NotFound.into())
        }
    }

    // Opens the folders that are locked for an opening or a commit, unless they are open, and returns whether there is
    // one of the index. The first call that writes makes it.
    fn open_lock(&mut self) -> io::Result<bool> {
        if self.opening.is_none() {
            let Some(index) = self.open_folder(Dir::Index)? else {
                return Ok(false);
            };
            let taxonomy = self.open_folder(Dir::Taxonomy)?;
            self.opening = Some(OpeningLock::new(taxonomy, index));
        }
        Ok(true)
    }

    // Opens the folder of a directory's files, if it exists.
    fn open_folder(&self, dir: Dir) -> io::Result<Option<File>> {
        let path = self.folder_path(dir)?;
        match open_expected(&self.files, &path, Expected::Folder) {
            Ok(folder) => Ok(Some(folder)),
            Err(e) => if e.kind() == ErrorKind::NotFound {
                Ok(None)
            } else {
                Err(e)
            },
        }
    }

    // Takes the folder for a call that reads, and returns whether it exists. If it is only read, no other process
    // writes it until `rest`. Without a folder of the index nothing was written that could change.
    fn take_to_read(&mut self) -> io::Result<bool> {
        if !self.take_if_there()? {
            return Ok(false);
        }
        if self.is_only_read.get() && !self.had_no_index {
            self.had_no_index = !self.open_lock()?;
            if let Some(opening) = &self.opening {
                opening.take_shared()?;
            }
        }
        Ok(true)
    }

    fn check_writable(&self) -> io::Result<()> {
        if self.is_only_read.get() {
            Err(ErrorKind::ReadOnlyFilesystem.into())
        } else {
            Ok(())
        }
    }

    // Takes the folder for a call that writes something in it. No other process opens it to read it only until `rest`.
    fn take_to_write(&mut self) -> io::Result<()> {
        self.check_writable()?;
        self.take_there()?;
        self.open_lock()?;
        match &self.opening {
            Some(opening) => opening.take_alone(),
            None => Ok(()),
        }
    }

    fn folder_path(&self, dir: Dir) -> Result<String, AllocError> {
        format!(in self.alloc; "{}/{dir}", self.base)
    }

    fn file_path(&self, name: FileName) -> Result<String, AllocError> {
        format!(in self.alloc; "{}/{name}", self.base)
    }

    fn sync_path(&self, path: &str, expected: Expected) -> io::Result<()> {
        open_expected(&self.files, path, expected)?.sync_all()
    }

    // Makes a folder that may exist already, and returns whether it was made.
    fn make_folder(&self, path: &str) -> io::Result<bool> {
        match self.files.create_dir(path) {
            Ok(()) => Ok(true),
            Err(e) => if e.kind() == ErrorKind::AlreadyExists {
                Ok(false)
            } else {
                Err(e)
            },
        }
    }

    // Makes the folder of the store, which did not exist, and locks it. If it has files of a store, it is not the one
    // that was made: another process came first, or the path leads elsewhere by now.
    fn make_root(&mut self) -> io::Result<()> {
        if self.make_folder(&self.root)? {
            self.take()?;
            let taxonomy = self.folder_path(Dir::Taxonomy)?;
            let index = self.folder_path(Dir::Index)?;
            self.was_absent = self.is_there(&taxonomy)? || self.is_there(&index)?;
        }
        self.take_there()
    }

    // Makes the folders of the two directories, if they do not exist, and syncs the folders that hold them, even if
    // they existed: an interrupted process may have made them and not synced them, and without that a synced file is
    // not durable.
    fn make_folders(&mut self) -> io::Result<()> {
        if self.has_folders {
            return Ok(());
        }
        let taxonomy = self.folder_path(Dir::Taxonomy)?;
        self.make_folder(&taxonomy)?;
        let index = self.folder_path(Dir::Index)?;
        self.make_folder(&index)?;
        let above = format!(in self.alloc; "{}/..", self.base)?;
        self.sync_path(&above, Expected::Folder)?;
        self.sync_path(&self.base, Expected::Folder)?;
        self.has_folders = true;
        Ok(())
    }

    // A name that does not exist is an error of the kind `NotFound`.
    fn is_there(&self, path: &str) -> io::Result<bool> {
        match self.files.symlink_metadata(path) {
            Ok(_) => Ok(true),
            Err(e) => if e.kind() == ErrorKind::NotFound {
                Ok(false)
            } else {
                Err(e)
            },
        }
    }

    /// Returns the names of store files in a directory's folder; none if the folder does not exist.
    pub(crate) fn list(&mut self, alloc: Global, dir: Dir) -> io::Result<Names> {
        if !self.take_to_read()? || (self.had_no_index && dir == Dir::Index) {
            return Ok(Names::new(Vec::new(alloc)));
        }
        let path = self.folder_path(dir)?;
        match self.files.open_dir(&path) {
            Ok(mut folder) => {
                let names = read_names(alloc, &mut folder, dir)?;
                Ok(Names::new(names))
            }
            Err(e) => if e.kind() == ErrorKind::NotFound {
                Ok(Names::new(Vec::new(alloc)))
            } else {
                Err(e)
            },
        }
    }

    pub(crate) fn read(&mut self, alloc: Global, name: FileName) -> io::Result<Vec<u8>> {
        if !self.take_to_read()? {
            return Err(ErrorKind::NotFound.into());
        }
        let path = self.file_path(name)?;
        let mut file = open_expected(&self.files, &path, Expected::PlainFile)?;
        let mut bytes = Vec::new(alloc);
        file.read_to_end(&mut bytes)?;
        Ok(bytes)
    }

    pub(crate) fn put(&mut self, name: FileName, bytes: &[u8]) -> io::Result<()> {
        self.check_writable()?;
        if !self.take_if_there()? {
            self.make_root()?;
        }
        self.make_folders()?;
        self.take_to_write()?;
        let path = self.file_path(name)?;
        let mut how = OpenOptions::new();
        how.write(true);
        how.create_new(true);
        self.files.open_file(&how, &path)?.write_all(bytes)
    }

    /// Syncs the file and its directory's folder.
    pub(crate) fn sync(&mut self, name: FileName) -> io::Result<()> {
        self.take_to_write()?;
        let path = self.file_path(name)?;
        self.sync_path(&path, Expected::PlainFile)?;
        let folder = self.folder_path(name.dir)?;
        self.sync_path(&folder, Expected::Folder)
    }

    /// Renames a file. The operating system would replace a file of the new name, so the call looks for one first.
    pub(crate) fn rename(&mut self, from: FileName, to: FileName) -> io::Result<()> {
        self.take_to_write()?;
        let old = self.file_path(from)?;
        let new = self.file_path(to)?;
        if !self.is_there(&old)? {
            return Err(ErrorKind::NotFound.into());
        }
        if self.is_there(&new)? {
            return Err(ErrorKind::AlreadyExists.into());
        }
        if from.dir != to.dir {
            self.make_folders()?;
        }
        self.files.rename(&old, &new)
    }

    pub(crate) fn sync_names(&mut self, dir: Dir) -> io::Result<()> {
        self.take_to_write()?;
        let path = self.folder_path(dir)?;
        self.sync_path(&path, Expected::Folder)
    }

    /// Removes a plain file. It leaves any other entry in place, also a link to a plain file: no store made it.
    pub(crate) fn remove(&mut self, name: FileName) -> io::Result<()> {
        self.take_to_write()?;
        let path = self.file_path(name)?;
        if self.files.symlink_metadata(&path)?.is_file() {
            self.files.remove_file(&path)
        } else {
            Ok(())
        }
    }
}

// What a path has to lead to.
#[derive(Clone, Copy)]
enum Expected {
    PlainFile,
    Folder,
}

// Returns an error if something else was found.
fn check_found(found: &Metadata, expected: Expected) -> io::Result<()> {
    match expected {
        Expected::PlainFile => if found.is_file() {
            Ok(())
        } else {
            Err(ErrorKind::InvalidInput.into())
        },
        Expected::Folder => if found.is_dir() {
            Ok(())
        } else {
            Err(ErrorKind::NotADirectory.into())
        },
    }
}

// Opens what a path leads to, for reading, and follows links. Opening a pipe may block, and opening a device may have
// any effect, so it is checked first. It is checked again after opening, since another entry may have taken the name.
fn open_expected<R: Files<File = File>>(
    files: &R,
    path: &str,
    expected: Expected,
) -> io::Result<File> {
    check_found(&files.metadata(path)?, expected)?;
    let mut how = OpenOptions::new();
    how.read(true);
    let opened = files.open_file(&how, path)?;
    check_found(&opened.metadata()?, expected)?;
    Ok(opened)
}

// Returns whether a path leads to an open folder. A path that leads nowhere does not.
fn leads_to<R: Files<File = File>>(files: &R, path: &str, folder: &File) -> io::Result<bool> {
    let Ok(found) = files.metadata(path) else {
        return Ok(false);
    };
    let held = folder.metadata()?;
    Ok(found.dev() == held.dev() && found.ino() == held.ino())
}

// Returns the path to an open folder without links, for a system without `/proc`. It is an error if the path has led
// elsewhere since the folder was opened.
fn resolved_path<R: Files<File = File>>(
    alloc: Global,
    files: &R,
    path: &str,
    folder: &File,
) -> io::Result<String> {
    match files.canonicalize(alloc, path) {
        Ok(found) => {
            let resolved = found.into_string();
            if leads_to(files, &resolved, folder)? {
                Ok(resolved)
            } else {
                Err(ErrorKind::StaleNetworkFileHandle.into())
            }
        }
        Err(e) => if e.kind() == ErrorKind::OutOfMemory {
            Err(e)
        } else {
            Err(ErrorKind::StaleNetworkFileHandle.into())
        },
    }
}

// Adds the names of store files. A block has whole entries, each ended by a NUL.
fn add_names(block: &[u8], dir: Dir, names: &mut Vec<FileName>) -> io::Result<()> {
    for entry in block.split(|byte| *byte == 0) {
        if let Ok(text) = str::from_utf8(entry) {
            if let Some(name) = FileName::from_entry(dir, text) {
                names.push(name)?;
            }
        }
    }
    Ok(())
}

// Returns the names of store files that are left in an open folder. The system fails a read if the next entry does not
// fit, so a block is longer than the longest entry.
fn read_names<F: Read>(alloc: Global, folder: &mut F, dir: Dir) -> io::Result<Vec<FileName>> {
    let mut names = Vec::new(alloc);
    let mut block = [0; 4096];
    for _ in 0..u64::MAX {
        let count = read_retrying(folder, &mut block)?;
        if count == 0 {
            break;
        }
        add_names(&block[..count], dir, &mut names)?;
    }
    Ok(names)
}
