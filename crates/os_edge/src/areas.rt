ghost use Rattle.std.specs.Prelude.{◌≡◌, ◌<◌, ◌≤◌, length, IfOk};
ghost use Rattle.os_edge.specs.Outcomes.{read_outcome, store_outcome};
ghost use Rattle.os_edge.specs.Answers.{ReadsInto, StoresOrFails};

use crate::looks::{Look, are_areas};
use node_device::{AreaRead, Stored};
use std::alloc::{AllocError, Global};
use std::fs::{self, File, OpenOptions};
use std::io::{self, ErrorKind};
use std::os::fd::AsRawFd;
use std::os::unix::fs::{FileExt, OpenOptionsExt};
use std::path::{Path, PathBuf};
use std::rt::Files;

/// Where the files of the areas stand.
#[derive(Drop)]
pub(crate) struct AreaPaths {
    slot0: PathBuf,
    slot1: PathBuf,
    selector: PathBuf,
}

impl AreaPaths {
    /// The paths of the files in this directory.
    pub(crate) fn within(alloc: Global, dir: &str) -> Result<Self, AllocError> {
        let dir = Path::new(dir);
        Ok(AreaPaths {
            slot0: dir.join(alloc, "slot0")?,
            slot1: dir.join(alloc, "slot1")?,
            selector: dir.join(alloc, "selector")?,
        })
    }
}

/// The open files of the areas, and the directory, which stays locked as long as it is open.
#[derive(Drop)]
pub(crate) struct AreaFiles {
    dir: File,
    slot0: File,
    slot1: File,
    selector: File,
}

impl AreaFiles {
    /// Locks an existing directory, opens its files, and makes those that are missing. The directory is opened first, so that nothing is
    /// made where there is none, and synced before the files are used, so that one that was made is there after a crash too.
    pub(crate) fn open<R: Files<File = File>>(
        files: &R,
        dir: &str,
        paths: &AreaPaths,
    ) -> io::Result<Self> {
        let dir = lock(files, dir)?;
        let slot0 = Look::at(files, &paths.slot0)?;
        let slot1 = Look::at(files, &paths.slot1)?;
        let selector = Look::at(files, &paths.selector)?;
        if !are_areas(slot0, slot1, selector) {
            return Err(ErrorKind::Unsupported.into());
        }
        let areas = AreaFiles {
            dir,
            slot0: open_area(files, &paths.slot0, slot0.is_none())?,
            slot1: open_area(files, &paths.slot1, slot1.is_none())?,
            selector: open_area(files, &paths.selector, selector.is_none())?,
        };
        areas.dir.sync_all()?;
        settle(&areas.slot0)?;
        settle(&areas.slot1)?;
        settle(&areas.selector)?;
        Ok(areas)
    }

    /// Reads an area from a place on, in one call of the system, which is made again where a signal came first.
    pub(crate) fn read_at(&self, area: u8, at: u64, buf: &mut [u8]) -> AreaRead
        requires { area < 3 }
        ensures { ReadsInto buf.new result }
    {
        for _ in 0..u64::MAX {
            if let Some(read) = read_outcome(FileExt::read_at(self.file(area), buf, at)) {
                return read;
            }
        }
        AreaRead::Failed
    }

    /// Writes all the bytes into an area at a place.
    pub(crate) fn write_at(&self, area: u8, at: u64, bytes: &[u8]) -> Stored
        requires { area < 3 }
        ensures { StoresOrFails result }
    {
        store_outcome(self.file(area).write_all_at(bytes, at))
    }

    /// Makes an area this long.
    pub(crate) fn cut(&self, area: u8, len: u64) -> Stored
        requires { area < 3 }
        ensures { StoresOrFails result }
    {
        store_outcome(self.file(area).set_len(len))
    }

    /// Brings an area to the disk, its length too.
    pub(crate) fn sync(&self, area: u8) -> Stored
        requires { area < 3 }
        ensures { StoresOrFails result }
    {
        store_outcome(self.file(area).sync_all())
    }

    fn file(&self, area: u8) -> &File
        requires { area < 3 }
    {
        match area {
            0 => &self.slot0,
            1 => &self.slot1,
            _ => &self.selector,
        }
    }
}

// Opens and locks a directory. What is none is not opened, since the system may wait for another process at a pipe.
fn lock<R: Files<File = File>>(files: &R, dir: &str) -> io::Result<File> {
    if !fs::metadata(files, dir)?.is_dir() {
        return Err(ErrorKind::NotADirectory.into());
    }
    let dir = File::open(files, dir)?;
    dir.try_lock()?;
    Ok(dir)
}

// Opens the file of an area, or makes one that nobody else reads.
fn open_area<R: Files<File = File>>(
    files: &R,
    path: &PathBuf,
    is_missing: bool,
) -> io::Result<File> {
    let mut options = OpenOptions::new();
    options.read(true).write(true);
    if is_missing {
        options.create_new(true).mode(0o600);
    }
    let file = options.open(files, path)?;
    // What is meant for a standard stream that was closed must not land in an area.
    if file.as_raw_fd() <= 2 {
        return file.try_clone();
    }
    Ok(file)
}

// Syncs a file, and drops the system's pages of it: where a sync of an earlier process failed they may be other than what the disk has.
fn settle(file: &File) -> io::Result<()> {
    file.sync_all()?;
    let advised = libc::posix_fadvise(file.as_raw_fd(), 0, 0, libc::POSIX_FADV_DONTNEED);
    if advised != 0 {
        return Err(io::Error::from_raw_os_error(advised));
    }
    Ok(())
}

// What a read comes to that the system answered so: nothing yet, where a signal came first.
fn read_outcome(got: io::Result<usize>) -> Option<AreaRead>
    ensures { result ≡ read_outcome got }
{
    match got {
        Ok(count) => Some(AreaRead::Got(count)),
        Err(fault) => match fault.kind() {
            ErrorKind::Interrupted => None,
            _ => Some(AreaRead::Failed),
        },
    }
}

// What a write, a cut or a sync comes to that the system answered so.
fn store_outcome(done: io::Result<()>) -> Stored
    ensures { result ≡ store_outcome done }
{
    match done {
        Ok(()) => Stored::Done,
        Err(_) => Stored::Failed,
    }
}
