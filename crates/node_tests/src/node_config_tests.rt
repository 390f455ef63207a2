use node_config::{Config, ConfigFault, ConfigKey, read_config};
use outside::Address;
use outside_mem::MemorySource;
use std::alloc::Global;
use std::test::Fail;
use vst_base::StackId;

// The lines of a configuration of three nodes, that of the stack left out.
const REST: &[u8] =
    b"peers = [\"127.0.0.1:7000\", \"127.0.0.1:7001\", \"127.0.0.1:7002\"]\nclients = [\"10.0.0.9:1\", \"10.0.0.8:65535\"]\nheartbeat_ms = 50\nelection_ms = 300\ncluster = \"000102030405060708090a0b0c0d0e0f\"\n";

// Such a text after some first lines.
fn text_after(alloc: Global, first: &[u8]) -> Result<Vec<u8>, Fail> {
    let mut text = Vec::from_slice(alloc, first)?;
    text.extend_from_slice(REST)?;
    Ok(text)
}

// For which key a text is refused to a node, and none where it is taken.
fn refused(alloc: Global, text: Vec<u8>, me: u8) -> Result<Option<ConfigKey>, Fail> {
    let mut source = MemorySource::new(text, 7, Vec::new(alloc));
    match read_config(alloc, &mut source, me) {
        Ok(_) => Ok(None),
        Err(ConfigFault::Refused(key)) => Ok(Some(key)),
        Err(_) => Err(Fail::from("neither taken nor refused")),
    }
}

// The configuration of node 2 of a cluster of lock tables.
fn table_config(alloc: Global) -> Result<Config, Fail> {
    let text = text_after(alloc, b"stack = \"table/raft\"\n")?;
    let mut source = MemorySource::new(text, 10, Vec::new(alloc));
    match read_config(alloc, &mut source, 2) {
        Ok(config) => Ok(config),
        Err(_) => Err(Fail::from("not taken")),
    }
}

// The address of the network 10.0.0 with this last byte and port.
fn at(last: u8, port: u16) -> Address {
    Address {
        ip: [10, 0, 0, last],
        port,
    }
}

#[test]
fn a_configuration_keeps_its_order(rt: HostRuntime) -> Result<(), Fail> {
    let config = table_config(rt.alloc())?;
    assert!(rt; config.stack == StackId::TableRaft && config.me == 2);
    assert!(rt; config.peers.as_slice().len() == 3);
    assert!(rt; config.clients.as_slice() == [at(9, 1), at(8, 65_535)].as_slice());
    assert!(rt; config.heartbeat_ms == 50 && config.election_ms == 300);
    assert!(rt; config.cluster[15] == 15);
    Ok(())
}

#[test]
fn a_whole_configuration_is_taken_by_its_nodes(rt: HostRuntime) -> Result<(), Fail> {
    let alloc = rt.alloc();
    for (me, key) in [(2, None), (3, Some(ConfigKey::Me))] {
        let text = text_after(alloc, b"stack = 'kv/raft'\n")?;
        assert!(rt; refused(alloc, text, me)? == key);
    }
    Ok(())
}

#[test]
fn the_first_key_that_applies_is_named(rt: HostRuntime) -> Result<(), Fail> {
    let alloc = rt.alloc();
    for (first, key) in [
        (b"".as_slice(), ConfigKey::Stack),
        (b"stack = \"kv\"\n", ConfigKey::Stack),
        (b"stack = kv/raft\n", ConfigKey::Text),
        (b"stack = 'kv/raft'\nstack = 'kv/raft'\n", ConfigKey::Text),
        (b"stack = 'kv/raft'\nport = 1\n", ConfigKey::Unknown),
        (b"stack = 'kv/raft'\n[raft]\n", ConfigKey::Peers),
    ] {
        assert!(rt; refused(alloc, text_after(alloc, first)?, 3)? == Some(key));
    }
    Ok(())
}

// A configuration of this size, which ends in empty lines.
fn text_of(alloc: Global, size: usize) -> Result<Vec<u8>, Fail> {
    let mut text = text_after(alloc, b"stack = \"kv/raft\"\n")?;
    text.resize(size, b'\n')?;
    Ok(text)
}

#[test]
fn a_text_may_have_65_536_bytes(rt: HostRuntime) -> Result<(), Fail> {
    let alloc = rt.alloc();
    for (size, key) in [(65_536, None), (65_537, Some(ConfigKey::Text))] {
        assert!(rt; refused(alloc, text_of(alloc, size)?, 0)? == key);
    }
    Ok(())
}

#[test]
fn a_failed_read_is_told(rt: HostRuntime) -> Result<(), Fail> {
    let alloc = rt.alloc();
    let text = text_after(alloc, b"stack = \"kv/raft\"\n")?;
    let mut source = MemorySource::new(text, 10, vec![in alloc; 3]?);
    let fault = read_config(alloc, &mut source, 0).err();
    assert!(rt; fault == Some(ConfigFault::Read));
    assert!(rt; source.faults() == 1);
    Ok(())
}
