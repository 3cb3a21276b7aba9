// The places of APS and NSR, by row and column.
#![tactic(auto)]

ghost use Rattle.std.specs.Prelude.{◌≡◌, ◌-◌, ◌*◌, ◌≤◌};
ghost use Rattle.rules.specs.Text.{addressed, positioned, placed_by};

use rules::{Coordinate, DISPLAY_TOP, FRESH_HEIGHT, FRESH_WIDTH, Pen, Positioning};
use text::axis::magnitude;
use text::cursor::set_cursor;

// So many fields from the edge, by a byte less 32.
fn fields(byte: u8, size: u32) -> u64
    ensures { result ≡ (byte - 32) * size }
{
    byte.saturating_sub(32) as u64 * size as u64
}

// APS, once its row and column are read.
#[tactic(auto, unfolding(rules::specs::Text::addressed))]
fn addressed(row: u8, column: u8, pen: Pen) -> Pen
    ensures { result ≡ addressed row column pen }
{
    let width = magnitude(pen.text.field.x);
    let height = magnitude(pen.text.field.y);
    let x = Coordinate {
        ahead: fields(column, width),
        back: 0,
    };
    let y = Coordinate {
        ahead: fields(row, height),
        back: 0,
    };
    set_cursor(x, y, pen)
}

// NSR, once its row and column are read.
#[tactic(auto, unfolding(rules::specs::Text::positioned))]
fn positioned(row: u8, column: u8, pen: Pen) -> Pen
    ensures { result ≡ positioned row column pen }
{
    let right = column.saturating_sub(64) as u64;
    let down = row.saturating_sub(64) as u64;
    let x = Coordinate {
        ahead: right * FRESH_WIDTH,
        back: 0,
    };
    let y = Coordinate {
        ahead: DISPLAY_TOP,
        back: (down + 1) * FRESH_HEIGHT,
    };
    set_cursor(x, y, pen)
}

// The cursor set by a row and a column.
pub fn placed(positioning: Positioning, row: u8, column: u8, pen: Pen) -> Pen
    ensures { result ≡ placed_by positioning row column pen }
{
    match positioning {
        Positioning::Aps => addressed(row, column, pen),
        Positioning::Nsr => positioned(row, column, pen),
    }
}
