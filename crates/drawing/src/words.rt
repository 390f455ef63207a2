ghost use Rattle.std.specs.Prelude.{◌≤◌};

use crate::layout::{Beside, place_beside};
use crate::svg::push_text;
use crate::{Mark, Row};
use std::alloc::AllocError;

// How far below the highest place the words of a row begin: at a mark to which a line comes from the same side below that line, and where
// none comes above the lines that leave.
fn lower_by(row: &Row, place: Beside) -> u32
    ensures { result ≤ 14 }
{
    let comes_from_there = match place.ends {
        true => row.from < row.column,
        false => row.from > row.column,
    };
    match row.mark {
        Mark::Input | Mark::Timer => 0,
        _ if comes_from_there => 14,
        _ => 6,
    }
}

// The look of what a node is asked.
fn asked_look(ends: bool) -> &'static str {
    if ends {
        "text class=\"asked ends\""
    } else {
        "text class=\"asked\""
    }
}

// The look of what it hears.
fn heard_look(ends: bool) -> &'static str {
    if ends {
        "text class=\"heard ends\""
    } else {
        "text class=\"heard\""
    }
}

// The look of what it tells.
fn told_look(ends: bool) -> &'static str {
    if ends {
        "text class=\"told ends\""
    } else {
        "text class=\"told\""
    }
}

/// What a node is asked or hears, and what it tells, beside the mark: one above the other where there is both.
pub(crate) fn push_words(out: &mut Vec<u8>, row: &Row, x: u32, y: u32) -> Result<(), AllocError>
    requires x { x ≤ 8000000 }
    requires below_the_top { 20 ≤ y }
    requires y { y ≤ 8000000 }
{
    let place = place_beside(x, row.heard.len().max(row.told.len()));
    let heard = match row.mark {
        Mark::Input => asked_look(place.ends),
        _ => heard_look(place.ends),
    };
    let told = told_look(place.ends);
    let middle = y - 2 + lower_by(row, place);
    let apart = if row.heard.is_empty() || row.told.is_empty() {
        0
    } else {
        6
    };
    if !row.heard.is_empty() {
        push_text(
            out,
            heard,
            (place.x, middle - apart),
            &row.heard,
            place.most,
        )?;
    }
    if !row.told.is_empty() {
        push_text(out, told, (place.x, middle + apart), &row.told, place.most)?;
    }
    Ok(())
}
