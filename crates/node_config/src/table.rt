ghost use Rattle.std.specs.Prelude.{◌≡◌, None, Some, IfErr, IfOk};
ghost use Rattle.toml.specs.View.{items_view, table_view, view};
ghost use Rattle.node_config.specs.Configs.{config_of};
ghost use Rattle.node_config.specs.Held.{addresses_in, addresses_of, clients_in, cluster_in, item_address, peers_in, period_in, stack_in};
ghost use Rattle.node_config.specs.Outcomes.{Comes};

use crate::address::address_of;
use crate::addresses::are_distinct;
use crate::entries::{are_known, array_at, integer_at, string_at};
use crate::name::name_of;
use crate::{Addresses, Config, ConfigFault, ConfigKey, MAX_CLIENTS, MAX_PERIOD};
use outside::Address;
use std::alloc::{AllocError, Global};
use toml::{Table, Value};
use vst_base::{MAX_NODES, StackId};
use wire_fields::NAME_LEN;

// The stack, where a node runs it.
#[tactic(auto, unfolding(crate::specs::Held::stack_in))]
fn stack_in(table: &Table) -> Option<StackId>
    ensures { result ≡ stack_in (table_view table.now) }
{
    match StackId::named(string_at(table, "stack")?)? {
        StackId::KvRaft => Some(StackId::KvRaft),
        StackId::TableRaft => Some(StackId::TableRaft),
        _ => None,
    }
}

// The address that a value is, if it is a string that spells one.
#[tactic(auto, unfolding(crate::specs::Held::item_address))]
fn item_address(value: &Value) -> Option<Address>
    ensures { result ≡ item_address (view value.now) }
{
    address_of(value.as_str()?.as_bytes())
}

// The addresses that the values are, if each is one.
fn addresses_of(alloc: Global, values: &[Value]) -> Result<Option<Addresses>, AllocError>
    ensures { IfOk result (λ found. found ≡ addresses_of (items_view values.now)) }
{
    let mut addresses = Vec::new(alloc);
    for value in values {
        let Some(address) = item_address(value) else {
            return Ok(None);
        };
        addresses.push(address)?;
    }
    Ok(Some(Addresses::new(addresses)))
}

// The addresses at a key, if they are so many.
#[tactic(auto, unfolding(crate::specs::Held::addresses_in))]
fn addresses_in(
    alloc: Global,
    table: &Table,
    key: &str,
    least: usize,
    most: usize,
) -> Result<Option<Addresses>, AllocError>
    ensures { IfOk result (λ found. found ≡ addresses_in least most key.now (table_view table.now)) }
{
    let Some(values) = array_at(table, key) else {
        return Ok(None);
    };
    let Some(addresses) = addresses_of(alloc, values)? else {
        return Ok(None);
    };
    let count = addresses.as_slice().len();
    if least <= count && count <= most {
        Ok(Some(addresses))
    } else {
        Ok(None)
    }
}

// The peers.
#[tactic(auto, unfolding(crate::specs::Held::peers_in))]
fn peers_in(alloc: Global, table: &Table) -> Result<Option<Addresses>, AllocError>
    ensures { IfOk result (λ found. found ≡ peers_in (table_view table.now)) }
{
    addresses_in(alloc, table, "peers", 1, usize::from(MAX_NODES))
}

// The clients, where no two of them and of the peers are equal.
#[tactic(auto, unfolding(crate::specs::Held::clients_in))]
fn clients_in(
    alloc: Global,
    table: &Table,
    peers: &Addresses,
) -> Result<Option<Addresses>, AllocError>
    ensures { IfOk result (λ found. found ≡ clients_in peers.now (table_view table.now)) }
{
    let Some(clients) = addresses_in(alloc, table, "clients", 0, MAX_CLIENTS)? else {
        return Ok(None);
    };
    let mut all = Vec::from_slice(alloc, peers.as_slice())?;
    all.extend_from_slice(clients.as_slice())?;
    if are_distinct(&all) {
        Ok(Some(clients))
    } else {
        Ok(None)
    }
}

// So many milliseconds at a key.
#[tactic(auto, unfolding(crate::specs::Held::period_in))]
fn period_in(table: &Table, key: &str) -> Option<u32>
    ensures { result ≡ period_in key.now (table_view table.now) }
{
    let ms = integer_at(table, key)?;
    if ms >= 1 && ms <= i64::from(MAX_PERIOD) {
        Some(ms as u32)
    } else {
        None
    }
}

// The name of the cluster.
#[tactic(auto, unfolding(crate::specs::Held::cluster_in))]
fn cluster_in(table: &Table) -> Option<[u8; NAME_LEN]>
    ensures { result ≡ cluster_in (table_view table.now) }
{
    name_of(string_at(table, "cluster")?)
}

// What a key needs, or its refusal where it was not found.
fn need<T>(key: ConfigKey, found: Option<T>) -> Result<T, ConfigFault>
    ensures ok { IfOk result (λ value. found ≡ Some value) }
    ensures err { IfErr result (λ fault. (fault ≡ ConfigFault.Refused key) × (found ≡ None)) }
{
    match found {
        Some(value) => Ok(value),
        None => Err(ConfigFault::Refused(key)),
    }
}

/// The configuration of node `me` that a table says, or the first key for which it is refused.
#[tactic(auto, unfolding(crate::specs::Configs::config_of))]
pub(crate) fn config_of(alloc: Global, table: &Table, me: u8) -> Result<Config, ConfigFault>
    ensures { Comes (config_of me (table_view table.now)) result }
{
    let stack = need(ConfigKey::Stack, stack_in(table))?;
    let peers = need(ConfigKey::Peers, peers_in(alloc, table)?)?;
    let clients = need(ConfigKey::Clients, clients_in(alloc, table, &peers)?)?;
    let heartbeat_ms = need(ConfigKey::HeartbeatMs, period_in(table, "heartbeat_ms"))?;
    let election_ms = need(ConfigKey::ElectionMs, period_in(table, "election_ms"))?;
    let cluster = need(ConfigKey::Cluster, cluster_in(table))?;
    if !are_known(table) {
        return Err(ConfigFault::Refused(ConfigKey::Unknown));
    }
    if usize::from(me) >= peers.as_slice().len() {
        return Err(ConfigFault::Refused(ConfigKey::Me));
    }
    Ok(Config {
        stack,
        me,
        peers,
        clients,
        heartbeat_ms,
        election_ms,
        cluster,
    })
}
