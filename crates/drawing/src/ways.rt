ghost use Rattle.std.specs.Prelude.{◌≤◌};

use crate::layout::{x_of, y_of};
use crate::svg::{push_curve, push_number, push_shape, push_text};
use crate::{Arrow, Mark, Stub};
use std::alloc::AllocError;

// How far towards the top a way is drawn for each node that it passes.
const BOW: u32 = 14;

// How long the number of a packet is at most.
const NUMBER: u32 = 10;

// How far the number of a packet stands above its way.
const NUMBER_ABOVE: u32 = 3;

// How far a packet in flight is drawn, down and to the side.
const STUB: u32 = 14;

/// Adds a line between two places.
pub(crate) fn push_line(
    out: &mut Vec<u8>,
    look: &str,
    from: (u32, u32),
    to: (u32, u32),
) -> Result<(), AllocError> {
    push_shape(
        out,
        look,
        &[("x1", from.0), ("y1", from.1), ("x2", to.0), ("y2", to.1)],
    )
}

// The number of a packet at a place.
fn push_packet(out: &mut Vec<u8>, packet: u32, x: u32, y: u32) -> Result<(), AllocError> {
    let mut number = Vec::new(*out.allocator());
    push_number(&mut number, u64::from(packet))?;
    push_text(out, "text class=\"packet\"", (x, y), &number, NUMBER)
}

// Where a quarter of a curve is done that goes from a number to another, drawn towards a third.
fn quarter(from: u32, towards: u32, to: u32) -> u32
    requires from { from ≤ 8000000 }
    requires towards { towards ≤ 8000000 }
    requires to { to ≤ 8000000 }
{
    (from * 9 + towards * 6 + to) / 16
}

// The way of a packet, with its number. Where it passes nodes it is bowed, so that the ways to several nodes do not lie on one another, as
// if one node handed on what another sent.
fn push_arrow(out: &mut Vec<u8>, nodes: u8, arrow: &Arrow) -> Result<(), AllocError> {
    let look = match arrow.mark {
        Mark::Delivery => "path class=\"sent\"",
        _ => "path class=\"gone\"",
    };
    let from = (x_of(nodes, arrow.from.column), y_of(arrow.from.row));
    let to = (x_of(nodes, arrow.to.column), y_of(arrow.to.row));
    let passed = (arrow.from.column.abs_diff(arrow.to.column) / 2).saturating_sub(1);
    let middle = (from.1 + to.1) / 2;
    let towards = (
        (from.0 + to.0) / 2,
        middle.saturating_sub(u32::from(passed) * BOW),
    );
    push_curve(out, look, from, towards, to)?;
    let y = quarter(from.1, towards.1, to.1).saturating_sub(NUMBER_ABOVE);
    push_packet(out, arrow.packet, quarter(from.0, towards.0, to.0), y)
}

/// Adds the ways of the packets.
pub(crate) fn push_arrows(
    out: &mut Vec<u8>,
    nodes: u8,
    arrows: &[Arrow],
) -> Result<(), AllocError> {
    for arrow in arrows {
        push_arrow(out, nodes, arrow)?;
    }
    Ok(())
}

// The beginning of the way of a packet no copy of which has come or is lost.
fn push_stub(out: &mut Vec<u8>, nodes: u8, stub: &Stub) -> Result<(), AllocError> {
    let from = (x_of(nodes, stub.from.column), y_of(stub.from.row));
    let x = if stub.to < stub.from.column {
        from.0.saturating_sub(STUB)
    } else {
        from.0 + STUB
    };
    let to = (x, from.1 + STUB);
    push_line(out, "line class=\"flies\"", from, to)?;
    push_packet(out, stub.packet, to.0, to.1 + NUMBER_ABOVE * 3)
}

/// Adds the beginnings of the ways of the packets no copy of which has come or is lost.
pub(crate) fn push_stubs(out: &mut Vec<u8>, nodes: u8, stubs: &[Stub]) -> Result<(), AllocError> {
    for stub in stubs {
        push_stub(out, nodes, stub)?;
    }
    Ok(())
}
