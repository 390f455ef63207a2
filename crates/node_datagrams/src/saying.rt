ghost use Rattle.std.specs.Prelude.{◌≡◌, ◌<◌, ◌++◌, OnErr, OnOk};
ghost use Rattle.node_config.specs.declared.limits.TheConstants.{MAX_CLIENTS};
ghost use Rattle.node_datagrams.specs.Configured.{settings_of};
ghost use Rattle.node_datagrams.specs.Saying.{bytes_of};
ghost use Rattle.node_run.specs.Events.{own_heading, reply_of};
ghost use Rattle.wire_codec.specs.declared.kind.Kind.TheVariants as kind;
ghost use Rattle.wire_messages.specs.ClientBytes.{client_reply};
ghost use Rattle.wire_messages.specs.RaftBytes.{raft_message};
ghost use Rattle.lists.specs.Prefixes.{IsPrefix};

use node_config::Config;
use raft_types::{RaftMsg, RaftOut};
use std::alloc::AllocError;
use vst_base::{ClientId, Node};
use wire_codec::{Heading, Kind, encode_into};
use wire_fields::put_u64;
use wire_messages::Wire;

// The heading of a datagram of the node.
fn heading_to(config: &Config, kind: Kind, to: u8) -> Heading
    ensures { result ≡ own_heading (settings_of config.now) kind to }
{
    Heading {
        stack: config.stack,
        kind,
        from: config.me,
        to,
        name: config.cluster,
    }
}

/// Adds the datagram of a message to a node at the end, or nothing.
pub fn put_packet<C: Wire>(
    out: &mut Vec<u8>,
    config: &Config,
    to: Node,
    message: &RaftMsg<C>,
) -> Result<(), AllocError>
    ensures ok { OnOk result (out.new.items
        ≡ out.old.items ++ bytes_of (raft_message C.format) (settings_of config.now) kind.Peer to message.now) }
    ensures fits { OnOk result ((raft_message C.format).Fits message.now) }
    ensures err { OnErr result (out.new.items ≡ out.old.items) }
{
    let heading = heading_to(config, Kind::Peer, to.index());
    encode_into(out, &heading, message)
}

// Whom an output is for.
pub(crate) fn client_of<O>(output: &RaftOut<O>) -> ClientId
    ensures { result ≡ (reply_of output.now).0 }
{
    match output {
        RaftOut::Reply { client, .. }
        | RaftOut::NotLeader { client, .. }
        | RaftOut::Full { client, .. } => *client,
    }
}

// Adds what a client is told by an output at the end, or a part of it.
#[tactic(auto, using(wire_fields::specs::Fronts::front_stays))]
fn put_output<O: Wire>(out: &mut Vec<u8>, output: &RaftOut<O>) -> Result<(), AllocError>
    ensures ok { OnOk result (out.new.items ≡ out.old.items ++ (client_reply O.format).spell (reply_of output.now).1) }
    ensures fits { OnOk result ((client_reply O.format).Fits (reply_of output.now).1) }
    ensures err { OnErr result (IsPrefix out.old.items out.new.items) }
{
    match output {
        RaftOut::Reply {
            request,
            output,
            ..
        } => {
            put_u64(out, request.number())?;
            out.push(1)?;
            output.put(out)
        }
        RaftOut::NotLeader { request, .. } => {
            put_u64(out, request.number())?;
            Ok(out.push(2)?)
        }
        RaftOut::Full { request, .. } => {
            put_u64(out, request.number())?;
            Ok(out.push(3)?)
        }
    }
}

/// Adds the datagram of an output to its client, of a slot that there may be, at the end, or a part of it.
#[tactic(auto, using(wire_fields::specs::Fronts::front_stays))]
pub fn put_reply<O: Wire>(
    out: &mut Vec<u8>,
    config: &Config,
    output: &RaftOut<O>,
) -> Result<(), AllocError>
    requires { (reply_of output.now).0 < MAX_CLIENTS }
    ensures ok { OnOk result (out.new.items ≡ out.old.items
        ++ bytes_of (client_reply O.format) (settings_of config.now) kind.Reply (reply_of output.now).0 (reply_of output.now).1) }
    ensures fits { OnOk result ((client_reply O.format).Fits (reply_of output.now).1) }
    ensures err { OnErr result (IsPrefix out.old.items out.new.items) }
{
    let client = client_of(output).number();
    heading_to(config, Kind::Reply, client as u8).put(out)?;
    put_output(out, output)
}
