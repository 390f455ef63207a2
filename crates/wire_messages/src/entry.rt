ghost use Rattle.std.specs.Prelude.{◌≡◌, ◌++◌, IfOk, IfSome, OnErr, OnOk};
ghost use Rattle.vst_base.specs.Entries.{HasOrigin};
ghost use Rattle.wire_messages.specs.EntryBytes.{entry, held, old_entry, request_front};
ghost use Rattle.wire_messages.specs.EntryByteLaws.{entry_is_format};
ghost use Rattle.wire_messages.specs.Wires.{Takes};

use crate::Wire;
use crate::asked::take_asked;
use byteorder::{ByteOrder, NetworkEndian};
use std::alloc::{AllocError, Global};
use vst_base::{Entry, MAX_TERM, What};
use wire_fields::{Input, put_u64};

// How many bytes stand before the command of an entry with a request.
const REQUEST_FRONT_LEN: usize = 26;

// Adds what stands before the command of an entry with a request at the end, or nothing.
#[tactic(auto, unfolding(wire_fields::specs::Bytes::number_bytes))]
fn put_request_front(
    out: &mut Vec<u8>,
    term: u64,
    client: u64,
    request: u64,
    origin: u8,
) -> Result<(), AllocError>
    ensures ok { OnOk result (out.new.items ≡ out.old.items ++ request_front term client request origin) }
    ensures err { OnErr result (out.new.items ≡ out.old.items) }
{
    let mut front = [0; REQUEST_FRONT_LEN];
    NetworkEndian::write_u64(&mut front, term);
    front[8] = 1;
    NetworkEndian::write_u64(&mut front[9..], client);
    NetworkEndian::write_u64(&mut front[17..], request);
    front[25] = origin;
    out.extend_from_slice(&front)
}

// What the entry that stands in front holds.
fn take_what<C: Wire>(alloc: Global, input: &mut Input<'_>) -> Result<Option<What<C>>, AllocError>
    ensures what { Takes (held C.format) input.old input.new result }
    ensures in_range { IfOk result (λ there. IfSome there (λ what. HasOrigin what)) }
{
    match input.byte() {
        Some(0) => Ok(Some(What::Noop)),
        Some(1) => {
            let Some(asked) = take_asked(alloc, input)? else {
                return Ok(None);
            };
            Ok(Some(What::Request {
                client: asked.client,
                request: asked.request,
                origin: asked.origin,
                cmd: asked.cmd,
            }))
        }
        _ => Ok(None),
    }
}

impl<C: Wire> Wire for Entry<C> {
    ghost format = { entry C.format };

    #[tactic(auto, using(wire_fields::specs::Fronts::front_stays))]
    fn put(&self, out: &mut Vec<u8>) -> Result<(), AllocError> {
        let term = self.term();
        match self.what() {
            What::Noop => {
                put_u64(out, term)?;
                Ok(out.push(0)?)
            }
            What::Request {
                client,
                request,
                origin,
                cmd,
            } => {
                put_request_front(out, term, client.number(), request.number(), origin.index())?;
                cmd.put(out)
            }
        }
    }

    fn take(alloc: Global, input: &mut Input<'_>) -> Result<Option<Entry<C>>, AllocError> {
        let Some(term) = input.u64(1, MAX_TERM) else {
            return Ok(None);
        };
        let Some(what) = take_what(alloc, input)? else {
            return Ok(None);
        };
        Ok(Some(Entry::new(term, what)))
    }

    ghost is_format = { entry_is_format C.format C.is_format };
}

/// The entry that stands in front as nodes of version 1 wrote it, and `None` where none does: it holds a request, and
/// has no byte that says so. What is left of the input after a `None` or an `Err` is not said.
pub fn take_old_entry<C: Wire>(
    alloc: Global,
    input: &mut Input<'_>,
) -> Result<Option<Entry<C>>, AllocError>
    ensures { Takes (old_entry C.format) input.old input.new result }
{
    let Some(term) = input.u64(1, MAX_TERM) else {
        return Ok(None);
    };
    let Some(asked) = take_asked(alloc, input)? else {
        return Ok(None);
    };
    Ok(Some(Entry::new(
        term,
        What::Request {
            client: asked.client,
            request: asked.request,
            origin: asked.origin,
            cmd: asked.cmd,
        },
    )))
}
