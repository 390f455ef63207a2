//! Which directories and files a device takes.
use crate::places::{begun, empty_folder, free_addresses};
use node_device::Device;
use os_edge::RealDevice;
use outside::Begun;
use std::alloc::AllocError;
use std::fs::{self, File};
use std::io::{self, ErrorKind};
use std::os::fd::AsRawFd;
use std::os::unix::fs::{MetadataExt, symlink};
use std::os::unix::net::UnixListener;
use std::path::PathBuf;
use std::rt::{Clock, Files, HostRuntime, Net};
use std::test::Fail;

// What beginning there comes to.
fn begins<R: Files<File = File> + Net + Clock + AllocGlobal>(
    rt: &R,
    folder: &str,
) -> io::Result<Begun> {
    let [at, _] = free_addresses(rt)?;
    Ok(RealDevice::new(rt).begin(at, folder))
}

// A folder whose files a device has made.
fn made_folder(rt: &HostRuntime, name: &str) -> Result<PathBuf, Fail> {
    let folder = empty_folder(rt, name)?;
    match begins(rt, folder.as_str())? {
        Begun::Ready => Ok(folder),
        Begun::Failed | Begun::Memory => Err(io::Error::from(ErrorKind::Other).into()),
    }
}

fn within(rt: &HostRuntime, folder: &PathBuf, name: &str) -> Result<PathBuf, AllocError> {
    folder.join(rt.alloc(), name)
}

#[test]
fn a_directory_is_of_one_device(rt: HostRuntime) -> Result<(), Fail> {
    let folder = empty_folder(&rt, "locked")?;
    let [here, _] = free_addresses(&rt)?;
    let first = begun(&rt, here, folder.as_str());
    assert!(rt; first.is_some());
    assert!(rt; begins(&rt, folder.as_str())? == Begun::Failed);
    drop(first);
    assert!(rt; begins(&rt, folder.as_str())? == Begun::Ready);
    fs::remove_dir_all(&rt, folder.as_path())?;
    Ok(())
}

#[test]
fn files_are_made_for_their_owner_alone(rt: HostRuntime) -> Result<(), Fail> {
    let folder = made_folder(&rt, "modes")?;
    for name in ["slot0", "slot1", "selector"] {
        let file = fs::symlink_metadata(&rt, within(&rt, &folder, name)?.as_path())?;
        assert_eq!(rt; file.mode(), 0o100_600, "of {name}");
    }
    fs::remove_dir_all(&rt, folder.as_path())?;
    Ok(())
}

#[test]
fn a_pipe_in_place_of_the_directory_is_not_waited_at(rt: HostRuntime) -> Result<(), Fail> {
    // Opening a pipe that nobody writes waits until somebody does.
    let (reader, writer) = io::pipe(&rt)?;
    drop(writer);
    let number = reader.as_raw_fd();
    let pipe = format!(in rt.alloc(); "/proc/self/fd/{number}")?;
    assert!(rt; begins(&rt, pipe.as_str())? == Begun::Failed);
    assert!(rt; begins(&rt, "/dev/null")? == Begun::Failed);
    Ok(())
}

#[test]
fn a_link_and_a_second_name_are_refused(rt: HostRuntime) -> Result<(), Fail> {
    let folder = made_folder(&rt, "names")?;
    let (slot, kept) = (
        within(&rt, &folder, "slot0")?,
        within(&rt, &folder, "kept")?,
    );
    fs::rename(&rt, slot.as_path(), kept.as_path())?;
    symlink(&rt, kept.as_path(), slot.as_path())?;
    assert!(rt; begins(&rt, folder.as_str())? == Begun::Failed);
    fs::remove_file(&rt, slot.as_path())?;
    fs::hard_link(&rt, kept.as_path(), slot.as_path())?;
    assert!(rt; begins(&rt, folder.as_str())? == Begun::Failed);
    fs::remove_file(&rt, kept.as_path())?;
    assert!(rt; begins(&rt, folder.as_str())? == Begun::Ready);
    fs::remove_dir_all(&rt, folder.as_path())?;
    Ok(())
}

#[test]
fn what_is_no_regular_file_is_refused(rt: HostRuntime) -> Result<(), Fail> {
    let folder = made_folder(&rt, "kinds")?;
    let slot = within(&rt, &folder, "slot1")?;
    fs::remove_file(&rt, slot.as_path())?;
    fs::create_dir(&rt, slot.as_path())?;
    assert!(rt; begins(&rt, folder.as_str())? == Begun::Failed);
    fs::remove_dir(&rt, slot.as_path())?;
    let socket = UnixListener::bind(&rt, slot.as_path())?;
    assert!(rt; begins(&rt, folder.as_str())? == Begun::Failed);
    drop(socket);
    fs::remove_dir_all(&rt, folder.as_path())?;
    Ok(())
}

#[test]
fn a_selector_that_went_away_is_missed(rt: HostRuntime) -> Result<(), Fail> {
    let folder = made_folder(&rt, "selector")?;
    let (slot, selector) = (
        within(&rt, &folder, "slot1")?,
        within(&rt, &folder, "selector")?,
    );
    fs::write(&rt, slot.as_path(), b"state")?;
    assert!(rt; begins(&rt, folder.as_str())? == Begun::Ready);
    fs::remove_file(&rt, selector.as_path())?;
    assert!(rt; begins(&rt, folder.as_str())? == Begun::Failed);
    assert!(rt; !fs::exists(&rt, selector.as_path())?);
    fs::write(&rt, slot.as_path(), b"")?;
    assert!(rt; begins(&rt, folder.as_str())? == Begun::Ready);
    fs::remove_dir_all(&rt, folder.as_path())?;
    Ok(())
}
