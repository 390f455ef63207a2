use crate::{Datagram, Heading, Kind, decode, encode_into};
use kv_machine::{KvCmd, KvOut};
use lock_table::{TableCmd, TableOut};
use raft_types::{RaftMsg, ReadMsg};
use std::alloc::{AllocError, Global};
use std::process::Abort;
use std::test::Fail;
use vst_base::{LockMsg, MirrorMsg, PbMsg, RetryMsg, SeqMsg, StackId};
use wire_messages::{Answer, ClientReply, ClientRequest, Wire, from_bytes};

// Datagrams whose bytes an independent reference worked out, of the cluster whose name is the bytes 0 to 15.
const NAME: [u8; 16] = [0, 1, 2, 3, 4, 5, 6, 7, 8, 9, 10, 11, 12, 13, 14, 15];

const ASKS_FOR_A_VOTE: [u8; 43] = [
    86, 2, 5, 0, 1, 0, 0, 1, 2, 3, 4, 5, 6, 7, 8, 9, 10, 11, 12, 13, 14, 15, 1, 0, 0, 0, 0, 0, 0,
    0, 1, 0, 0, 0, 0, 0, 0, 0, 0, 0, 0, 0, 0,
];

const GRANTS_A_VOTE: [u8; 32] = [
    86, 2, 5, 0, 0, 1, 0, 1, 2, 3, 4, 5, 6, 7, 8, 9, 10, 11, 12, 13, 14, 15, 2, 0, 0, 0, 0, 0, 0,
    0, 1, 1,
];

const ASKS_FOR_THE_LOCK: [u8; 31] = [
    86, 2, 2, 0, 1, 0, 0, 1, 2, 3, 4, 5, 6, 7, 8, 9, 10, 11, 12, 13, 14, 15, 0, 0, 0, 0, 0, 0, 0,
    0, 1,
];

const PUTS_A: [u8; 26] = [
    86, 2, 8, 0, 1, 0, 0, 1, 2, 3, 4, 5, 6, 7, 8, 9, 10, 11, 12, 13, 14, 15, 1, 0, 1, 97,
];

const PUTS_A_AS_PACKET_1: [u8; 34] = [
    86, 2, 9, 0, 1, 0, 0, 1, 2, 3, 4, 5, 6, 7, 8, 9, 10, 11, 12, 13, 14, 15, 0, 0, 0, 0, 0, 0, 0,
    1, 1, 0, 1, 97,
];

const ASKS_AS_DATA_1: [u8; 40] = [
    86, 2, 10, 0, 1, 0, 0, 1, 2, 3, 4, 5, 6, 7, 8, 9, 10, 11, 12, 13, 14, 15, 1, 0, 0, 0, 0, 0, 0,
    0, 1, 0, 0, 0, 0, 0, 0, 0, 0, 1,
];

const ACKNOWLEDGES_DATA_1: [u8; 31] = [
    86, 2, 11, 0, 1, 0, 0, 1, 2, 3, 4, 5, 6, 7, 8, 9, 10, 11, 12, 13, 14, 15, 2, 0, 0, 0, 0, 0, 0,
    0, 1,
];

const REQUESTS_PUT: [u8; 36] = [
    86, 2, 5, 1, 0, 0, 0, 1, 2, 3, 4, 5, 6, 7, 8, 9, 10, 11, 12, 13, 14, 15, 0, 0, 0, 0, 0, 0, 0,
    1, 2, 1, 97, 0, 1, 120,
];

const REPLIES_X: [u8; 38] = [
    86, 2, 5, 2, 0, 0, 0, 1, 2, 3, 4, 5, 6, 7, 8, 9, 10, 11, 12, 13, 14, 15, 0, 0, 0, 0, 0, 0, 0,
    1, 1, 1, 97, 1, 0, 1, 120, 0,
];

const SENDS_AN_ENTRY: [u8; 80] = [
    86, 2, 5, 0, 0, 1, 0, 1, 2, 3, 4, 5, 6, 7, 8, 9, 10, 11, 12, 13, 14, 15, 3, 0, 0, 0, 0, 0, 0,
    0, 1, 0, 0, 0, 0, 0, 0, 0, 0, 0, 0, 0, 0, 0, 0, 0, 0, 1, 0, 0, 0, 0, 0, 0, 0, 1, 1, 0, 0, 0, 0,
    0, 0, 0, 7, 0, 0, 0, 0, 0, 0, 0, 1, 0, 2, 1, 97, 0, 1, 120,
];

// The datagram put again, if this is a message of the type.
fn put_again<M: Wire>(
    alloc: Global,
    datagram: &Datagram<'_>,
) -> Result<Option<Vec<u8>>, AllocError> {
    let Some(message) = from_bytes::<M>(alloc, datagram.body)? else {
        return Ok(None);
    };
    let mut again = Vec::new(alloc);
    encode_into(&mut again, &datagram.heading, &message)?;
    Ok(Some(again))
}

// The same of a message between nodes.
fn put_peer_again(alloc: Global, datagram: &Datagram<'_>) -> Result<Option<Vec<u8>>, AllocError> {
    match datagram.heading.stack {
        StackId::Lock => put_again::<LockMsg>(alloc, datagram),
        StackId::LockSeq => put_again::<SeqMsg<LockMsg>>(alloc, datagram),
        StackId::KvPb => put_again::<PbMsg<KvCmd>>(alloc, datagram),
        StackId::KvPbSeq => put_again::<SeqMsg<PbMsg<KvCmd>>>(alloc, datagram),
        StackId::Mirror => put_again::<MirrorMsg>(alloc, datagram),
        StackId::MirrorFifo => put_again::<SeqMsg<MirrorMsg>>(alloc, datagram),
        StackId::LockSeqRetry => put_again::<RetryMsg<SeqMsg<LockMsg>>>(alloc, datagram),
        StackId::KvPbSeqRetry => put_again::<RetryMsg<SeqMsg<PbMsg<KvCmd>>>>(alloc, datagram),
        StackId::KvRaft => put_again::<RaftMsg<KvCmd>>(alloc, datagram),
        StackId::KvRaftRead => put_again::<ReadMsg<KvCmd>>(alloc, datagram),
        StackId::TableRaftRead => put_again::<ReadMsg<TableCmd>>(alloc, datagram),
        StackId::TablePbSeq => put_again::<SeqMsg<PbMsg<TableCmd>>>(alloc, datagram),
        StackId::TableRaft => put_again::<RaftMsg<TableCmd>>(alloc, datagram),
        StackId::Kv | StackId::Table => Ok(None),
    }
}

// What is read of the bytes, by the stack and kind of their heading, put again.
fn read_and_put(alloc: Global, bytes: &[u8]) -> Result<Option<Vec<u8>>, AllocError> {
    let Some(datagram) = decode(bytes) else {
        return Ok(None);
    };
    match (datagram.heading.kind, datagram.heading.stack) {
        (Kind::Peer, _) => put_peer_again(alloc, &datagram),
        (Kind::Request, StackId::KvRaft) => put_again::<ClientRequest<KvCmd>>(alloc, &datagram),
        (Kind::Request, StackId::TableRaft) => {
            put_again::<ClientRequest<TableCmd>>(alloc, &datagram)
        }
        (Kind::Reply, StackId::KvRaft) => put_again::<ClientReply<KvOut>>(alloc, &datagram),
        (Kind::Reply, StackId::TableRaft) => put_again::<ClientReply<TableOut>>(alloc, &datagram),
        _ => Ok(None),
    }
}

// Whether the bytes are a datagram. Those of what is read are just these.
fn is_datagram(rt: &impl Abort, alloc: Global, bytes: &[u8]) -> Result<bool, Fail> {
    let Some(again) = read_and_put(alloc, bytes)? else {
        return Ok(false);
    };
    assert!(rt; again.as_slice() == bytes);
    Ok(true)
}

// The bytes are a datagram of this heading; one byte more or less is none.
fn is_read(
    rt: &impl Abort,
    alloc: Global,
    bytes: &[u8],
    stack: StackId,
    kind: Kind,
    from: u8,
    to: u8,
) -> Result<(), Fail> {
    let heading = Heading {
        stack,
        kind,
        from,
        to,
        name: NAME,
    };
    let datagram = decode(bytes).ok_or("no datagram")?;
    assert!(rt; datagram.heading == heading);
    assert!(rt; is_datagram(rt, alloc, bytes)?);
    let mut more = bytes.to_vec(alloc)?;
    more.push(0)?;
    assert!(rt; !is_datagram(rt, alloc, &more)?, "a byte after the message");
    if let [most @ .., _] = bytes {
        assert!(rt; !is_datagram(rt, alloc, most)?, "without the last byte");
    }
    Ok(())
}

#[test]
fn datagrams_are_read_and_written(rt: HostRuntime) -> Result<(), Fail> {
    let alloc = rt.alloc();
    is_read(
        &rt,
        alloc,
        &ASKS_FOR_A_VOTE,
        StackId::KvRaft,
        Kind::Peer,
        1,
        0,
    )?;
    is_read(
        &rt,
        alloc,
        &GRANTS_A_VOTE,
        StackId::KvRaft,
        Kind::Peer,
        0,
        1,
    )?;
    is_read(
        &rt,
        alloc,
        &ASKS_FOR_THE_LOCK,
        StackId::LockSeq,
        Kind::Peer,
        1,
        0,
    )?;
    is_read(
        &rt,
        alloc,
        &REQUESTS_PUT,
        StackId::KvRaft,
        Kind::Request,
        0,
        0,
    )?;
    is_read(&rt, alloc, &REPLIES_X, StackId::KvRaft, Kind::Reply, 0, 0)?;
    is_read(
        &rt,
        alloc,
        &SENDS_AN_ENTRY,
        StackId::KvRaft,
        Kind::Peer,
        0,
        1,
    )
}

#[test]
fn datagrams_of_mirrors_are_read_and_written(rt: HostRuntime) -> Result<(), Fail> {
    let alloc = rt.alloc();
    is_read(&rt, alloc, &PUTS_A, StackId::Mirror, Kind::Peer, 1, 0)?;
    is_read(
        &rt,
        alloc,
        &PUTS_A_AS_PACKET_1,
        StackId::MirrorFifo,
        Kind::Peer,
        1,
        0,
    )
}

#[test]
fn datagrams_that_are_sent_again_are_read_and_written(rt: HostRuntime) -> Result<(), Fail> {
    let alloc = rt.alloc();
    is_read(
        &rt,
        alloc,
        &ASKS_AS_DATA_1,
        StackId::LockSeqRetry,
        Kind::Peer,
        1,
        0,
    )?;
    is_read(
        &rt,
        alloc,
        &ACKNOWLEDGES_DATA_1,
        StackId::KvPbSeqRetry,
        Kind::Peer,
        1,
        0,
    )
}

// Whether the bytes are this datagram's but for one.
fn with_byte(
    rt: &impl Abort,
    alloc: Global,
    mut bytes: [u8; 43],
    at: usize,
    byte: u8,
) -> Result<bool, Fail> {
    if at < 43 {
        bytes[at] = byte;
    }
    is_datagram(rt, alloc, &bytes)
}

#[test]
fn hostile_datagrams_are_none(rt: HostRuntime) -> Result<(), Fail> {
    let alloc = rt.alloc();
    let asks = ASKS_FOR_A_VOTE;
    assert!(rt; with_byte(&rt, alloc, asks, 0, 0x56)?);
    assert!(rt; !is_datagram(&rt, alloc, &[])?);
    assert!(rt; !is_datagram(&rt, alloc, &asks[..42])?);
    assert!(rt; decode(&asks[..21]).is_none(), "a heading cut short");
    assert!(rt; decode(&[0x56; 60_001]).is_none(), "too long");
    assert!(rt; !with_byte(&rt, alloc, asks, 0, 0x57)?, "another letter");
    assert!(rt; !with_byte(&rt, alloc, asks, 1, 3)?, "version 3");
    assert!(rt; !with_byte(&rt, alloc, asks, 1, 1)?, "version 1");
    assert!(rt; !with_byte(&rt, alloc, asks, 3, 3)?, "no kind");
    assert!(rt; !with_byte(&rt, alloc, asks, 30, 0)?, "term 0");
    assert!(rt;
        !with_byte(&rt, alloc, asks, 23, 0x80)?,
        "a term past the greatest"
    );
    assert!(rt;
        !with_byte(&rt, alloc, asks, 32, 0x10)?,
        "an index past the last"
    );
    assert!(rt; !with_byte(&rt, alloc, asks, 2, 12)?, "no stack");
    Ok(())
}

// Of all datagrams that differ from this one in one byte at most, how many are read, each byte counted by itself.
fn how_many_are_read(rt: &impl Abort, alloc: Global, bytes: &mut [u8]) -> Result<u32, Fail> {
    let mut count = 0u32;
    for at in 0..bytes.len() {
        let was = bytes[at];
        for byte in 0..=255u8 {
            bytes[at] = byte;
            if is_datagram(rt, alloc, bytes)? {
                count = count.wrapping_add(1);
            }
        }
        bytes[at] = was;
    }
    Ok(count)
}

// The counts are the products of the ranges of the fields, summed over the bytes.
#[test]
fn one_byte_changed(rt: HostRuntime) -> Result<(), Fail> {
    let alloc = rt.alloc();
    assert_eq!(rt;
        how_many_are_read(&rt, alloc, &mut { ASKS_FOR_A_VOTE })?,
        8490
    );
    assert_eq!(rt;
        how_many_are_read(&rt, alloc, &mut { GRANTS_A_VOTE })?,
        6043
    );
    assert_eq!(rt;
        how_many_are_read(&rt, alloc, &mut { ASKS_FOR_THE_LOCK })?,
        6169
    );
    assert_eq!(rt; how_many_are_read(&rt, alloc, &mut { PUTS_A })?, 4215);
    assert_eq!(rt;
        how_many_are_read(&rt, alloc, &mut { PUTS_A_AS_PACKET_1 })?,
        6263
    );
    assert_eq!(rt;
        how_many_are_read(&rt, alloc, &mut { ASKS_AS_DATA_1 })?,
        8218
    );
    assert_eq!(rt;
        how_many_are_read(&rt, alloc, &mut { ACKNOWLEDGES_DATA_1 })?,
        6169
    );
    assert_eq!(rt; how_many_are_read(&rt, alloc, &mut { REQUESTS_PUT })?, 6605);
    assert_eq!(rt; how_many_are_read(&rt, alloc, &mut { REPLIES_X })?, 6606);
    assert_eq!(rt;
        how_many_are_read(&rt, alloc, &mut { SENDS_AN_ENTRY })?,
        15235
    );
    Ok(())
}

// The bytes are a message, and are put again.
fn is_taken<M: Wire>(rt: &impl Abort, alloc: Global, bytes: &[u8]) -> Result<(), Fail> {
    let message = from_bytes::<M>(alloc, bytes)?.ok_or("no message")?;
    let mut again = Vec::new(alloc);
    message.put(&mut again)?;
    assert!(rt; again.as_slice() == bytes);
    Ok(())
}

#[test]
fn messages_are_taken_and_put(rt: HostRuntime) -> Result<(), Fail> {
    let alloc = rt.alloc();
    is_taken::<RaftMsg<KvCmd>>(&rt, alloc, &ASKS_FOR_A_VOTE[22..])?;
    is_taken::<RaftMsg<KvCmd>>(&rt, alloc, &GRANTS_A_VOTE[22..])?;
    is_taken::<SeqMsg<LockMsg>>(&rt, alloc, &ASKS_FOR_THE_LOCK[22..])?;
    is_taken::<MirrorMsg>(&rt, alloc, &PUTS_A[22..])?;
    is_taken::<SeqMsg<MirrorMsg>>(&rt, alloc, &PUTS_A_AS_PACKET_1[22..])?;
    is_taken::<RetryMsg<SeqMsg<LockMsg>>>(&rt, alloc, &ASKS_AS_DATA_1[22..])?;
    is_taken::<RetryMsg<SeqMsg<PbMsg<KvCmd>>>>(&rt, alloc, &ACKNOWLEDGES_DATA_1[22..])?;
    is_taken::<ClientRequest<KvCmd>>(&rt, alloc, &REQUESTS_PUT[22..])?;
    is_taken::<ClientReply<KvOut>>(&rt, alloc, &REPLIES_X[22..])?;
    is_taken::<RaftMsg<KvCmd>>(&rt, alloc, &SENDS_AN_ENTRY[22..])?;
    is_taken::<RaftMsg<TableCmd>>(&rt, alloc, &[4, 0, 0, 0, 0, 0, 0, 0, 1, 1, 0, 0, 0, 9])?;
    is_taken::<SeqMsg<PbMsg<TableCmd>>>(
        &rt,
        alloc,
        &[0, 0, 0, 0, 0, 0, 0, 5, 1, 1, 1, b'n', 1, b'o'],
    )?;
    is_taken::<Answer<TableOut>>(&rt, alloc, &[1, 1, b'n', 1, 1, b'o', 1])
}
