// Characters on one line: how many there are before the field leaves the screen, and the step from each to the next.
#![tactic(auto)]

ghost use Rattle.std.specs.Prelude.{◌≡◌, ℕ, ◌<◌, true};
ghost use Rattle.rules.specs.Text.{coordinate_of, held};
ghost use Rattle.text_lines.specs.Line.{packed, unpacked, Within, IsStep, Straight};

use moves::movers::{cursor_along, forwards, reach_in};
use rules::{Path, Point, Reach, SCREEN_SIDE, Text};
use text::axis::{LAST, PATTERNS, coordinate_of, held, stride};
use text::field::{field_box, spacing_quarters};

// The cursor of so many characters is the last plus the step, as packed numbers.
#[derive(Clone, Copy)]
pub struct Line {
    pub most: u64,
    pub step: u64,
}

// Both coordinates as one number.
pub fn packed(p: Point) -> u64
    ensures { (result ≡ packed p) × (unpacked result ≡ p) }
{
    p.x as u64 + PATTERNS * p.y as u64
}

pub fn unpacked(n: u64) -> Point
    ensures { result ≡ unpacked n }
{
    Point {
        x: (n % PATTERNS) as u32,
        y: (n / PATTERNS) as u32,
    }
}

// Whether a coordinate of the cursor is held where it stands.
fn is_held(reach: Reach, cursor: u32) -> bool
    ensures { result ≡ true → held reach (coordinate_of cursor) ≡ cursor }
{
    held(reach, coordinate_of(cursor)) == cursor
}

// How many strides of a length stay on the screen, short of its end, which is held before it.
fn strides_within(reach: Reach, forwards: bool, length: u64, cursor: u32) -> u64
    ensures { (i : ℕ) → i < result → Within reach forwards length cursor i }
{
    let from = cursor as u64;
    let before = reach.before as u64;
    if length == 0 || from < before {
        return 0;
    }
    if forwards {
        let edge = SCREEN_SIDE.saturating_sub(reach.after as u64).min(LAST);
        edge.saturating_sub(from) / length
    } else {
        (from - before) / length
    }
}

// What is added to a packed cursor, and wraps: a length in a direction.
fn step_of(direction: Path, length: u64) -> u64
    ensures { IsStep direction length result }
{
    let tall = length % PATTERNS * PATTERNS;
    match direction {
        Path::Right => length,
        Path::Left => length.wrapping_neg(),
        Path::Up => tall,
        Path::Down => tall.wrapping_neg(),
    }
}

// The line that the next characters stand on: none where the cursor is not held, or the next leaves the screen.
pub fn line_of(text: Text) -> Line
    ensures { Straight text result.most result.step }
{
    let bounds = field_box(text);
    if !is_held(bounds.x, text.cursor.x) || !is_held(bounds.y, text.cursor.y) {
        return Line { most: 0, step: 0 };
    }
    let path = text.settings.path;
    let reach = reach_in(path, bounds);
    let length = stride(reach, spacing_quarters(text.settings.spacing));
    let from = cursor_along(path, text);
    Line {
        most: strides_within(reach, forwards(path), length, from),
        step: step_of(path, length),
    }
}
