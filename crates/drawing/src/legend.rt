use crate::Mark;
use crate::picture::push_mark;
use crate::svg::{push_shape, push_text};
use std::alloc::AllocError;

// How far apart what is explained stands.
const APART: u32 = 92;

// How long an explanation is at most.
const KEY: u32 = 12;

// A mark, and what it says.
const KEYS: &[(Mark, &str)] = &[
    (Mark::Input, "input"),
    (Mark::Delivery, "delivery"),
    (Mark::Timer, "timer"),
    (Mark::Copy, "copied"),
    (Mark::Loss, "lost"),
    (Mark::Crash, "stops"),
    (Mark::Reboot, "starts"),
];

// What stands beside a mark or a bar.
fn push_key(out: &mut Vec<u8>, word: &str, x: u32, y: u32) -> Result<(), AllocError> {
    let place = (x.saturating_add(12), y.saturating_add(4));
    push_text(out, "text class=\"key\"", place, word.as_bytes(), KEY)
}

// A bar, and what it says.
fn push_bar_key(
    out: &mut Vec<u8>,
    look: &str,
    word: &str,
    x: u32,
    y: u32,
) -> Result<(), AllocError> {
    let (left, top) = (x.saturating_sub(4), y.saturating_sub(6));
    push_shape(
        out,
        look,
        &[("x", left), ("y", top), ("width", 9), ("height", 12)],
    )?;
    push_key(out, word, x, y)
}

/// Adds what the marks and bars of a picture say, in one line.
pub(crate) fn push_legend(out: &mut Vec<u8>, y: u32) -> Result<(), AllocError> {
    let mut x = 48u32;
    for (mark, word) in KEYS {
        push_mark(out, *mark, x, y)?;
        push_key(out, word, x, y)?;
        x = x.saturating_add(APART);
    }
    push_bar_key(out, "rect class=\"leads\"", "leads", 692, y)?;
    push_bar_key(out, "rect class=\"down\"", "down", 784, y)
}
