ghost use Rattle.std.specs.Prelude.{◌≡◌, ◌↔◌, IsTrue};
ghost use Rattle.std.specs.Fs.{metadata_len, file_type, IsFile};
ghost use Rattle.os_edge.specs.Looks.{is_plain, is_same, has_bytes, are_areas};

use std::fs::{self, Metadata};
use std::io::{self, ErrorKind};
use std::os::unix::fs::MetadataExt;
use std::path::PathBuf;
use std::rt::Files;

/// What is looked at of a file before it is opened.
#[derive(Clone, Copy, Debug, PartialEq, Eq)]
pub(crate) struct Look {
    /// No link, directory, pipe or device.
    is_regular: bool,
    /// How many names it has.
    names: u64,
    /// With the inode's number, this tells it from each other file.
    device: u64,
    inode: u64,
    len: u64,
}

impl Look {
    fn of(found: &Metadata) -> Self
        ensures regular { IsTrue result.is_regular ↔ IsFile (file_type found.now) }
        ensures len { result.len ≡ metadata_len found.now }
    {
        Look {
            is_regular: found.is_file(),
            names: found.nlink(),
            device: found.dev(),
            inode: found.ino(),
            len: found.len(),
        }
    }

    /// What stands at the path itself, also where that is a link. `None` where nothing does.
    pub(crate) fn at<R: Files>(files: &R, path: &PathBuf) -> io::Result<Option<Self>> {
        match fs::symlink_metadata(files, path) {
            Ok(found) => Ok(Some(Look::of(&found))),
            Err(fault) if fault.kind() == ErrorKind::NotFound => Ok(None),
            Err(fault) => Err(fault),
        }
    }
}

/// Whether files that look so are taken as the slots and the selector.
pub(crate) fn are_areas(slot0: Option<Look>, slot1: Option<Look>, selector: Option<Look>) -> bool
    ensures { result ≡ are_areas slot0 slot1 selector }
{
    let is_each_plain = is_plain(slot0) && is_plain(slot1) && is_plain(selector);
    let is_one_twice = is_same(slot0, slot1)
        || is_same(slot0, selector)
        || is_same(slot1, selector);
    let has_state = has_bytes(slot0) || has_bytes(slot1);
    is_each_plain && !is_one_twice && (selector.is_some() || !has_state)
}

// Whether it is missing, or a regular file with one name.
fn is_plain(look: Option<Look>) -> bool
    ensures { result ≡ is_plain look }
{
    match look {
        Some(look) => look.is_regular && look.names == 1,
        None => true,
    }
}

// Whether both names lead to one file.
fn is_same(one: Option<Look>, other: Option<Look>) -> bool
    ensures { result ≡ is_same one other }
{
    match (one, other) {
        (Some(one), Some(other)) => one.device == other.device && one.inode == other.inode,
        _ => false,
    }
}

fn has_bytes(look: Option<Look>) -> bool
    ensures { result ≡ has_bytes look }
{
    match look {
        Some(look) => look.len > 0,
        None => false,
    }
}
