use crate::layout::{NAMES, TOP, WIDTH, x_of, y_of};
use crate::legend::push_legend;
use crate::svg::{push, push_head, push_number, push_shape, push_text};
use crate::ways::{push_arrows, push_line, push_stubs};
use crate::words::push_words;
use crate::{Bar, BarKind, Mark, Picture, Row};
use std::alloc::{AllocError, Global};

/// How many rows are drawn at most, so that their places fit.
pub const MOST_ROWS: usize = 60_000;

// How long a label is at most.
const LABEL: u32 = 14;

// How long a title is at most.
const TITLE: u32 = 100;

// How far above the middle of a row the names of the nodes stand.
const NAME_ABOVE: u32 = 24;

// The name of a node above its line.
fn push_name(out: &mut Vec<u8>, nodes: u8, node: u8, y: u32) -> Result<(), AllocError> {
    let x = x_of(nodes, u16::from(node) * 2);
    let mut name = b"node ".to_vec(*out.allocator())?;
    push_number(&mut name, u64::from(node))?;
    push_text(out, "text class=\"node\"", (x, y), &name, LABEL)
}

// The names of all nodes in a line.
fn push_names(out: &mut Vec<u8>, nodes: u8, y: u32) -> Result<(), AllocError> {
    for node in 0..nodes {
        push_name(out, nodes, node, y)?;
    }
    Ok(())
}

// The line of a node.
fn push_life(out: &mut Vec<u8>, nodes: u8, node: u8, bottom: u32) -> Result<(), AllocError> {
    let x = x_of(nodes, u16::from(node) * 2);
    push_line(out, "line class=\"life\"", (x, TOP), (x, bottom))
}

// A bar along the line of a node.
fn push_bar(out: &mut Vec<u8>, nodes: u8, bar: &Bar) -> Result<(), AllocError> {
    let x = x_of(nodes, u16::from(bar.node) * 2) - 4;
    let top = y_of(bar.first);
    let height = y_of(bar.last).saturating_sub(top);
    let look = match bar.kind {
        BarKind::Down => "rect class=\"down\"",
        BarKind::Leads => "rect class=\"leads\"",
    };
    push_shape(
        out,
        look,
        &[("x", x), ("y", top), ("width", 9), ("height", height)],
    )
}

/// The mark of a step.
pub(crate) fn push_mark(out: &mut Vec<u8>, mark: Mark, x: u32, y: u32) -> Result<(), AllocError> {
    let look = match mark {
        Mark::Input => "use href=\"#input\"",
        Mark::Delivery => "use href=\"#delivery\"",
        Mark::Timer => "use href=\"#timer\"",
        Mark::Copy => "use href=\"#copy\"",
        Mark::Loss => "use href=\"#loss\"",
        Mark::Crash => "use href=\"#crash\"",
        Mark::Reboot => "use href=\"#reboot\"",
    };
    push_shape(out, look, &[("x", x), ("y", y)])
}

// A step, which stands in this row.
fn push_row(out: &mut Vec<u8>, nodes: u8, row: &Row, place: u16) -> Result<(), AllocError> {
    let x = x_of(nodes, row.column);
    let y = y_of(place);
    let mut number = Vec::new(*out.allocator());
    push_number(&mut number, u64::from(place) + 1)?;
    push_text(out, "text class=\"number\"", (34, y + 4), &number, LABEL)?;
    push_text(out, "text", (42, y + 4), &row.label, LABEL)?;
    push_mark(out, row.mark, x, y)?;
    push_words(out, row, x, y)
}

// A faint line along each row.
fn push_rules(out: &mut Vec<u8>, rows: u16) -> Result<(), AllocError> {
    for row in 0..rows {
        let y = y_of(row);
        push_line(out, "line class=\"row\"", (140, y), (WIDTH - 6, y))?;
    }
    Ok(())
}

// The lines of the nodes, down to below the last row.
fn push_lives(out: &mut Vec<u8>, nodes: u8, rows: u16) -> Result<(), AllocError> {
    let bottom = y_of(rows);
    for node in 0..nodes {
        push_life(out, nodes, node, bottom)?;
    }
    Ok(())
}

// The bars along the lines of the nodes.
fn push_bars(out: &mut Vec<u8>, nodes: u8, bars: &[Bar]) -> Result<(), AllocError> {
    for bar in bars {
        push_bar(out, nodes, bar)?;
    }
    Ok(())
}

// What lies below the steps.
fn push_ground(out: &mut Vec<u8>, picture: &Picture, rows: u16) -> Result<(), AllocError> {
    push_rules(out, rows)?;
    push_lives(out, picture.nodes, rows)?;
    push_bars(out, picture.nodes, &picture.bars)?;
    push_stubs(out, picture.nodes, &picture.stubs)?;
    push_arrows(out, picture.nodes, &picture.arrows)
}

// The steps, one below the other, with the names of the nodes above each page of them.
fn push_rows(out: &mut Vec<u8>, nodes: u8, rows: &[Row]) -> Result<(), AllocError> {
    let mut place = 0;
    for row in rows {
        if place % NAMES == 0 {
            push_names(out, nodes, y_of(place).saturating_sub(NAME_ABOVE))?;
        }
        push_row(out, nodes, row, place)?;
        place = place.saturating_add(1);
    }
    Ok(())
}

// How many steps are not drawn, where there are such.
fn push_undrawn(out: &mut Vec<u8>, undrawn: u64, y: u32) -> Result<(), AllocError> {
    if undrawn == 0 {
        return Ok(());
    }
    let mut more = Vec::new(*out.allocator());
    push_number(&mut more, undrawn)?;
    push(&mut more, " steps more are not drawn")?;
    push_text(out, "text", (42, y), &more, TITLE)
}

/// The text of a picture, in SVG. Of more than `MOST_ROWS` rows the first so many are drawn, and the others count as steps that are not
/// drawn. A bar or the way of a packet that leads past them is not cut off.
pub fn svg_of(alloc: Global, picture: &Picture) -> Result<Vec<u8>, AllocError> {
    let mut out = Vec::new(alloc);
    let (drawn, past) = picture.rows.split_at(picture.rows.len().min(MOST_ROWS));
    let rows = drawn.len() as u16;
    let bottom = y_of(rows);
    push_head(&mut out, &picture.title, WIDTH, bottom + 56)?;
    push_text(
        &mut out,
        "text class=\"title\"",
        (10, 22),
        &picture.title,
        TITLE,
    )?;
    push_ground(&mut out, picture, rows)?;
    push_rows(&mut out, picture.nodes, drawn)?;
    let undrawn = picture.undrawn.saturating_add(past.len() as u64);
    push_undrawn(&mut out, undrawn, bottom + 16)?;
    push_legend(&mut out, bottom + 40)?;
    push(&mut out, "</svg>\n")?;
    Ok(out)
}
