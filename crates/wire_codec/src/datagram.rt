ghost use Rattle.std.specs.Prelude.{◌≡◌, ◌++◌, IfSome, OnErr, OnOk};
ghost use Rattle.std.specs.Option.{option_map};
ghost use Rattle.wire_codec.specs.Datagrams.{read_datagram, said, spell_datagram};
ghost use Rattle.wire_codec.specs.Headings.{heading};
ghost use Rattle.lists.specs.Prefixes.{IsPrefix};

use crate::Heading;
use std::alloc::AllocError;
use wire_fields::Input;
use wire_messages::Wire;

/// The greatest number of bytes of a datagram.
pub const MAX_DATAGRAM: usize = 60_000;

/// A datagram's heading, and the bytes behind it. Who knows the type of the message that its stack and kind have takes it from these.
#[derive(Clone, Copy, Debug)]
pub struct Datagram<'a> {
    pub heading: Heading,
    pub body: &'a [u8],
}

/// The heading that the bytes begin with, of a kind that its stack has, and what stands behind it, which is borrowed from them. `None`
/// comes exactly where they begin with none or are more than `MAX_DATAGRAM`. Whether what stands behind is a message is not asked.
pub fn decode(bytes: &[u8]) -> Option<Datagram<'_>>
    ensures datagram { option_map (λ datagram. said datagram) result ≡ read_datagram bytes.now }
    ensures in_range { IfSome result (λ datagram. heading.Fits datagram.heading) }
{
    if bytes.len() > MAX_DATAGRAM {
        return None;
    }
    let mut input = Input::new(bytes);
    let heading = Heading::read(&mut input)?;
    let body = input.rest();
    Some(Datagram { heading, body })
}

// Adds a datagram at the end, or a part of it.
#[tactic(auto, using(wire_fields::specs::Fronts::front_stays))]
fn put_datagram<M: Wire>(
    out: &mut Vec<u8>,
    heading: &Heading,
    message: &M,
) -> Result<(), AllocError>
    ensures ok { OnOk result (out.new.items ≡ out.old.items ++ spell_datagram M.format heading.now message.now) }
    ensures fits { OnOk result (M.format.Fits message.now) }
    ensures err { OnErr result (IsPrefix out.old.items out.new.items) }
{
    heading.put(out)?;
    message.put(out)
}

/// Adds the datagram of a heading and a message at the end, or nothing.
pub fn encode_into<M: Wire>(
    out: &mut Vec<u8>,
    heading: &Heading,
    message: &M,
) -> Result<(), AllocError>
    ensures ok { OnOk result (out.new.items ≡ out.old.items ++ spell_datagram M.format heading.now message.now) }
    ensures fits { OnOk result (M.format.Fits message.now) }
    ensures err { OnErr result (out.new.items ≡ out.old.items) }
{
    let len = out.len();
    let put = put_datagram(out, heading, message);
    if put.is_err() {
        out.truncate(len);
    }
    put
}
