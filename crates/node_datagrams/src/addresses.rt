ghost use Rattle.std.specs.Prelude.{◌≡◌, ◌<◌, length, slice_get, true};
ghost use Rattle.node_run.specs.Events.{is_at, same_address};

use node_config::Config;
use outside::Address;
use vst_base::{ClientId, Node};

/// The address of a node of the cluster, and `None` where there is no such node.
pub fn address_of_node(config: &Config, node: Node) -> Option<Address>
    ensures { result ≡ slice_get config.now.peers node }
{
    config
        .peers
        .as_slice()
        .get(usize::from(node.index()))
        .copied()
}

/// The address of a client, who is known by the number of its slot, and `None` where there is no such slot.
pub fn address_of_client(config: &Config, client: ClientId) -> Option<Address>
    ensures { result ≡ slice_get config.now.clients client }
{
    config
        .clients
        .as_slice()
        .get(client.number() as usize)
        .copied()
}

// Whether two addresses are the same.
fn same_address(a: &Address, b: &Address) -> bool
    ensures { result ≡ same_address a.now b.now }
{
    a.ip == b.ip && a.port == b.port
}

// Whether this is the address of the number in the list.
pub(crate) fn is_at(addresses: &[Address], number: u8, from: &Address) -> bool
    ensures value { result ≡ is_at (slice_get addresses.now number) from.now }
    ensures within { result ≡ true → number < length addresses.now }
{
    match addresses.get(usize::from(number)) {
        Some(address) => same_address(address, from),
        None => false,
    }
}
