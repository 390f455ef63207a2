ghost use Rattle.std.specs.Prelude.{◌≡◌, ◌≤◌, IfSome, Some};
ghost use Rattle.std.specs.List.{slice_get};
ghost use Rattle.command_line.specs.CommandSet.{CanBeRun, node_words};
ghost use Rattle.commands.specs.NodeComing.{Comes};
ghost use Rattle.commands.specs.NodeSeen.{device_seen};
ghost use Rattle.node_config.specs.Outcomes.{Fits};
ghost use Rattle.commands.specs.Seen.{source_seen};

use crate::Trouble;
use node_config::{Config, read_config};
use node_device::Device;
use outside::{Address, Begun, Source};
use std::alloc::Global;
use udp_node::serve;

// The address of the node that is configured.
fn own_address(config: &Config) -> Address
    requires { Fits config.now.me config.now }
    ensures { slice_get config.now.peers config.now.me ≡ Some result }
{
    config.peers.as_slice()[usize::from(config.me)]
}

// Reads the configuration of node `me`, begins in the directory of its state, and takes so many turns.
pub(crate) fn take_turns<S: Source, D: Device>(
    alloc: Global,
    me: u8,
    turns: u32,
    state: &str,
    input: &mut S,
    device: &mut D,
) -> Result<(), Trouble>
    requires { CanBeRun (node_words me turns state.now) }
    ensures comes { Comes (node_words me turns state.now) (source_seen S.Source input.old) (source_seen S.Source input.new)
        (device_seen D.Device device.old) (device_seen D.Device device.new) result }
    ensures reads { S.faults input.old ≤ S.faults input.new }
{
    let config = read_config(alloc, input, me)?;
    match device.begin(own_address(&config), state) {
        Begun::Ready => {}
        Begun::Failed => return Err(Trouble::Begin),
        Begun::Memory => return Err(Trouble::Memory),
    }
    serve(alloc, device, &config, turns)?;
    Ok(())
}
