ghost use Rattle.std.specs.Prelude.{◌≤◌};

/// The width of the page, in pixels.
pub const WIDTH: u32 = 900;

/// How many rows stand between one line of the nodes' names and the next.
pub const NAMES: u16 = 40;

/// Where the lines of the nodes begin, below their names.
pub const TOP: u32 = 64;

// Where the line of node 0 stands.
const FIRST: u32 = 200;

// How far the first line and the last are apart, at most.
const SPREAD: u32 = 620;

// How far two lines are apart, at most.
const MOST_APART: u32 = 240;

// How high a row is.
const ROW: u32 = 34;

// How far a text stands from its mark.
const GAP: u32 = 12;

// Ten characters take so much.
const TEN_WIDE: u32 = 67;

// Texts stand between these.
const TEXT_LEFT: u32 = 140;

const TEXT_RIGHT: u32 = 894;

/// Where the texts of a row stand beside a mark: from which place on, whether they end there, and how many characters there is room for.
#[derive(Clone, Copy)]
pub struct Beside {
    pub x: u32,
    pub ends: bool,
    pub most: u32,
}

// How far half the way between two lines is.
fn half_apart(nodes: u8) -> u32
    ensures { result ≤ 120 }
{
    let gaps = u32::from(nodes).max(2) - 1;
    (SPREAD / gaps).min(MOST_APART) / 2
}

/// How far from the left a column is.
pub fn x_of(nodes: u8, column: u16) -> u32
    ensures in_page { 4 ≤ result }
    ensures small { result ≤ 8000000 }
{
    FIRST + u32::from(column) * half_apart(nodes)
}

/// How far down a row is.
pub fn y_of(row: u16) -> u32
    ensures in_page { 20 ≤ result }
    ensures small { result ≤ 8000000 }
{
    TOP + 20 + u32::from(row) * ROW
}

/// Where a text of so many characters stands beside a mark: after it, where there is room, or else on the side that has more.
pub fn place_beside(x: u32, chars: usize) -> Beside
    requires { x ≤ 8000000 }
{
    let after = TEXT_RIGHT.saturating_sub(x + GAP) * 10 / TEN_WIDE;
    let before = x.saturating_sub(TEXT_LEFT + GAP) * 10 / TEN_WIDE;
    if chars as u64 <= u64::from(after) || before <= after {
        Beside {
            x: x + GAP,
            ends: false,
            most: after,
        }
    } else {
        Beside {
            x: x.saturating_sub(GAP),
            ends: true,
            most: before,
        }
    }
}
