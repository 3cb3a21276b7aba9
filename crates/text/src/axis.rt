// One axis of the screen: coordinates, and the field held on it.
ghost use Rattle.std.specs.Prelude.{◌≡◌, ◌-◌, ◌≤◌, ◌<◌};
ghost use Rattle.rules.specs.Text.{trunc256, min, max, magnitude, coordinate_of, field_fits, held, stride, after_stride, entry_edge, row_step, forwards};

use rules::{Coordinate, Reach, SCREEN_SIDE};

// Half of all patterns: those from here on stand for negative numbers.
const NEGATIVE: u32 = 0x8000_0000;

// The last multiple of 256 on the screen.
pub const LAST: u64 = 0x7FFF_FF00;

// The number of patterns.
pub const PATTERNS: u64 = 0x1_0000_0000;

// Toward zero, to a multiple of 256.
#[tactic(auto, unfolding(rules::specs::Text::trunc256))]
fn trunc256(n: u64) -> u64
    ensures { result ≡ trunc256 n }
{
    n / 256 * 256
}

// What a pattern stands for, without its sign.
#[tactic(auto, unfolding(rules::specs::Text::magnitude))]
pub fn magnitude(n: u32) -> u32
    ensures { (result ≡ magnitude n) × (result ≤ 2147483648) }
{
    n.cast_signed().unsigned_abs()
}

// The coordinate that a pattern stands for.
#[tactic(auto, unfolding(rules::specs::Text::coordinate_of))]
pub fn coordinate_of(n: u32) -> Coordinate
    ensures { (result ≡ coordinate_of n) × (result.ahead ≤ 4294967295) × (result.back ≤ 4294967296) }
{
    Coordinate {
        ahead: n as u64,
        back: if n < NEGATIVE { 0 } else { PATTERNS },
    }
}

// Whether the field is on the screen with its origin at a coordinate: touching the edge is inside.
#[tactic(auto, unfolding(rules::specs::Text::field_fits))]
pub fn field_fits(reach: Reach, at: Coordinate) -> bool
    ensures { result ≡ field_fits reach at }
{
    let x = at.ahead.saturating_sub(at.back);
    let edge = SCREEN_SIDE.saturating_sub(reach.after as u64);
    at.back <= at.ahead && reach.before as u64 <= x && x <= edge
}

// Held on the screen: every cursor that is set goes through this.
#[tactic(auto, unfolding(rules::specs::Text::held, rules::specs::Text::trunc256, rules::specs::Text::min, rules::specs::Text::max))]
pub fn held(reach: Reach, at: Coordinate) -> u32
    ensures { result ≡ held reach at }
{
    let x = at.ahead.saturating_sub(at.back);
    let low = x.max(reach.before as u64);
    let high = low.min(SCREEN_SIDE.saturating_sub(reach.after as u64));
    trunc256(high.min(LAST)) as u32
}

// An advance or a row step: so many quarters of the field's extent.
#[tactic(auto, unfolding(rules::specs::Text::stride, rules::specs::Text::trunc256))]
pub fn stride(reach: Reach, quarters: u8) -> u64
    ensures { (result ≡ stride reach quarters) × (result < 1099511627776) }
{
    let extent = reach.before as u64 + reach.after as u64;
    trunc256(extent * (quarters as u64) / 4)
}

// The coordinate a stride further.
#[tactic(auto, unfolding(rules::specs::Text::after_stride))]
pub fn after_stride(reach: Reach, forwards: bool, quarters: u8, cursor: u32) -> Coordinate
    ensures { result ≡ after_stride reach forwards quarters cursor }
{
    let length = stride(reach, quarters);
    let from = coordinate_of(cursor);
    if forwards {
        Coordinate {
            ahead: from.ahead + length,
            ..from
        }
    } else {
        Coordinate {
            back: from.back + length,
            ..from
        }
    }
}

// The edge that a field comes in by when it moves forwards, and backwards.
#[tactic(auto, unfolding(rules::specs::Text::entry_edge))]
pub fn entry_edge(reach: Reach, forwards: bool) -> Coordinate
    ensures { result ≡ entry_edge reach forwards }
{
    let ahead = if forwards {
        reach.before as u64
    } else {
        SCREEN_SIDE.saturating_sub(reach.after as u64)
    };
    Coordinate { ahead, back: 0 }
}

// A row step along an axis: the place a stride further, or the edge that the field comes in by.
#[tactic(auto, unfolding(rules::specs::Text::row_step))]
pub fn row_step(reach: Reach, forwards: bool, quarters: u8, cursor: u32) -> Coordinate
    ensures { result ≡ row_step reach forwards quarters cursor }
{
    let next = after_stride(reach, forwards, quarters, cursor);
    if field_fits(reach, next) {
        next
    } else {
        entry_edge(reach, forwards)
    }
}
