//! Where the devices of tests listen, and what they open.
ghost use Rattle.std.specs.Prelude.{◌≡◌, true, IfSome};

use node_device::Device;
use os_edge::RealDevice;
use outside::{Address, Begun};
use std::fs::File;
use std::net::{Ipv4Addr, SocketAddr, SocketAddrV4, UdpSocket};
use std::path::PathBuf;
use std::rt::{Clock, Files, HostRuntime, Net};
use std::test::Fail;
use std::{env, fs, io, process};

/// Two addresses of this computer at which nobody listens.
pub(crate) fn free_addresses(net: &impl Net) -> io::Result<[Address; 2]> {
    // Both are taken at once, so they differ.
    let (one, other) = (any_socket(net)?, any_socket(net)?);
    Ok([address_of(&one)?, address_of(&other)?])
}

fn any_socket(net: &impl Net) -> io::Result<UdpSocket> {
    let any = SocketAddrV4::new(Ipv4Addr::LOCALHOST, 0);
    UdpSocket::bind(net, SocketAddr::V4(any))
}

fn address_of(socket: &UdpSocket) -> io::Result<Address> {
    Ok(Address {
        ip: [127, 0, 0, 1],
        port: socket.local_addr()?.port(),
    })
}

/// An empty folder of this process, among the temporary files of the system. What an earlier run left goes first.
pub(crate) fn empty_folder(rt: &HostRuntime, name: &str) -> Result<PathBuf, Fail> {
    let number = process::id(rt.process());
    let name = format!(in rt.alloc(); "os_edge_{number}_{name}")?;
    let folder = env::temp_dir(rt)?.join(rt.alloc(), name.as_str())?;
    let _ = fs::remove_dir_all(rt, folder.as_path());
    fs::create_dir(rt, folder.as_path())?;
    Ok(folder)
}

/// A device that has begun.
pub(crate) fn begun<'a, R: Files<File = File> + Net + Clock + AllocGlobal>(
    rt: &'a R,
    at: Address,
    folder: &str,
) -> Option<RealDevice<'a, R>>
    ensures { IfSome result (λ device. device.begun ≡ true) }
{
    let mut device = RealDevice::new(rt);
    match device.begin(at, folder) {
        Begun::Ready => Some(device),
        Begun::Failed | Begun::Memory => None,
    }
}
