use crate::page::Page;
use drawing::{Arrow, Bar, BarKind, Picture, Row};
use drawn_schedules::picture_of;
use std::alloc::{AllocError, Global};

// Adds where a packet is, by its column, behind words for a node and for a way.
fn add_column(page: &mut Page, at: &str, on: &str, column: u16) -> Result<(), AllocError> {
    if column % 2 == 0 {
        page.add(at)?;
        page.add_number("node ", u64::from(column / 2))
    } else {
        page.add(on)?;
        page.add("its way")
    }
}

// The way of the packet that comes in a row, if one does.
fn way_to(arrows: &[Arrow], place: u64) -> Option<Arrow> {
    for arrow in arrows {
        if u64::from(arrow.to.row) == place {
            return Some(*arrow);
        }
    }
    None
}

// Adds from where and to where a packet goes.
fn add_way(page: &mut Page, way: &Arrow) -> Result<(), AllocError> {
    add_column(page, ", from ", ", from ", way.from.column)?;
    page.add_number(" in ", u64::from(way.from.row).saturating_add(1))?;
    add_column(page, ", at ", ", on ", way.to.column)
}

// Adds words behind a mark, if there are such.
fn add_words(page: &mut Page, mark: &str, words: &[u8]) -> Result<(), AllocError> {
    if words.is_empty() {
        return Ok(());
    }
    page.add(mark)?;
    page.add_shown(words)
}

// Adds a step in a line.
fn add_row(page: &mut Page, arrows: &[Arrow], row: &Row, place: u64) -> Result<(), AllocError> {
    page.add_number("step ", place.saturating_add(1))?;
    add_words(page, ", ", &row.label)?;
    add_words(page, ": ", &row.heard)?;
    if let Some(way) = way_to(arrows, place) {
        add_way(page, &way)?;
    }
    add_words(page, ", tells ", &row.told)?;
    page.add("\n")
}

// Adds in which step what a bar says ended, if it ended in one of so many.
fn add_end(page: &mut Page, last: u16, steps: u64) -> Result<(), AllocError> {
    if u64::from(last) < steps {
        page.add_number(" to ", u64::from(last).saturating_add(1))
    } else {
        page.add(" on")
    }
}

// Adds from which step to which a node is down or leads, of so many steps.
fn add_bar(page: &mut Page, bar: &Bar, steps: u64) -> Result<(), AllocError> {
    page.add_number("node ", u64::from(bar.node))?;
    page.add(match bar.kind {
        BarKind::Down => " is down",
        BarKind::Leads => " leads",
    })?;
    page.add_number(" from ", u64::from(bar.first).saturating_add(1))?;
    add_end(page, bar.last, steps)?;
    page.add("\n")
}

// Adds the bars of a picture.
fn add_bars(page: &mut Page, bars: &[Bar], steps: u64) -> Result<(), AllocError> {
    for bar in bars {
        add_bar(page, bar, steps)?;
    }
    Ok(())
}

// Adds the steps of a picture.
fn add_steps(page: &mut Page, picture: &Picture) -> Result<(), AllocError> {
    let mut place = 0u64;
    for row in &picture.rows {
        add_row(page, &picture.arrows, row, place)?;
        place = place.saturating_add(1);
    }
    Ok(())
}

/// Adds the steps of a schedule in words, and then which nodes are down or lead.
pub(crate) fn add_rows(alloc: Global, page: &mut Page, input: &[u8]) -> Result<(), AllocError> {
    let picture = picture_of(alloc, Vec::from_slice(alloc, input)?)?;
    add_steps(page, &picture)?;
    add_bars(page, &picture.bars, picture.rows.len() as u64)
}
