// Cursor and drawing point: the cursor set, and each following the other.
ghost use Rattle.std.specs.Prelude.{◌≡◌};
ghost use Rattle.rules.specs.Text.{half, offset, point_on, point_at, cursor_on, cursor_at, held, led, aligned, following, follow, set_cursor, with_cursor};

use crate::axis::{PATTERNS, coordinate_of, held};
use crate::field::field_box;
use rules::{Coordinate, FieldBox, Moving, Pair, Pen, Point, Reach, Style, Text};

// Half a reach, truncated.
#[tactic(auto, unfolding(rules::specs::Text::half, rules::specs::Text::trunc256))]
fn half(n: u32) -> u32
    ensures { result ≡ half n }
{
    n / 2 / 256 * 256
}

// How far the drawing point is led from the cursor: not at all, or to the field's centre.
#[tactic(auto, unfolding(rules::specs::Text::offset))]
fn offset(style: Style, reach: Reach) -> Reach
    ensures { result ≡ offset style reach }
{
    match style {
        Style::Underscore | Style::Block => Reach {
            before: 0,
            after: 0,
        },
        Style::CrossHair | Style::Custom => Reach {
            before: half(reach.before),
            after: half(reach.after),
        },
    }
}

// The point on an axis that a cursor leads.
#[tactic(auto, unfolding(rules::specs::Text::point_on))]
fn point_on(offset: Reach, cursor: u32) -> u32
    ensures { result ≡ point_on offset cursor }
{
    let sum = cursor as u64 + offset.after as u64 + (PATTERNS - offset.before as u64);
    (sum % PATTERNS) as u32
}

// The cursor on an axis that a point leads, held on the screen.
#[tactic(auto, unfolding(rules::specs::Text::cursor_on))]
fn cursor_on(style: Style, reach: Reach, point: u32) -> u32
    ensures { result ≡ cursor_on style reach point }
{
    let away = offset(style, reach);
    let from = coordinate_of(point);
    let led = Coordinate {
        ahead: from.ahead + away.before as u64,
        back: from.back + away.after as u64,
    };
    held(reach, led)
}

// The point that the cursor leads.
#[tactic(auto, unfolding(rules::specs::Text::point_at))]
fn point_at(text: Text) -> Point
    ensures { result ≡ point_at text }
{
    let bounds = field_box(text);
    let across = offset(text.settings.style, bounds.x);
    let upwards = offset(text.settings.style, bounds.y);
    Point {
        x: point_on(across, text.cursor.x),
        y: point_on(upwards, text.cursor.y),
    }
}

// The cursor that the point leads.
#[tactic(auto, unfolding(rules::specs::Text::cursor_at))]
pub fn cursor_at(text: Text, point: Point) -> Point
    ensures { result ≡ cursor_at text point }
{
    let bounds = field_box(text);
    Point {
        x: cursor_on(text.settings.style, bounds.x, point.x),
        y: cursor_on(text.settings.style, bounds.y, point.y),
    }
}

// The point after the cursor is set.
#[tactic(auto, unfolding(rules::specs::Text::led))]
fn led(text: Text, point: Point) -> Point
    ensures { result ≡ led text.settings.moving text point }
{
    match text.settings.moving {
        Moving::Together | Moving::CursorLeads => point_at(text),
        Moving::PointLeads | Moving::Independent => point,
    }
}

// Another cursor, with no pair begun.
pub fn with_cursor(text: Text, cursor: Point) -> Text
    ensures { result ≡ with_cursor cursor Pair.NoPair text }
{
    Text {
        cursor,
        pair: Pair::NoPair,
        ..text
    }
}

// The cursor follows the drawing point, as the move attribute says.
#[tactic(auto, unfolding(rules::specs::Text::following))]
pub fn cursor_follows(text: &mut Text, point: Point)
    ensures { text.new ≡ following text.old.settings.moving point text.old }
{
    if matches!(text.settings.moving, Moving::Together | Moving::PointLeads) {
        text.cursor = cursor_at(*text, point);
        text.pair = Pair::NoPair;
    }
}

// The drawing point moved, and the cursor with it as the move attribute says.
pub fn follow(pen: Pen, point: Point) -> Pen
    ensures { result ≡ follow point pen }
{
    let mut text = pen.text;
    cursor_follows(&mut text, point);
    Pen { point, text, ..pen }
}

// The cursor put at two coordinates, each held on the screen in the field's box.
pub fn put_cursor(bounds: FieldBox, x: Coordinate, y: Coordinate, pair: Pair, text: Text) -> Text
    ensures { result ≡ with_cursor (record { x = held bounds.x x; y = held bounds.y y }) pair text }
{
    let cursor = Point {
        x: held(bounds.x, x),
        y: held(bounds.y, y),
    };
    Text {
        cursor,
        pair,
        ..text
    }
}

// The pen after its text became this one: the drawing point led by the cursor, as the move attribute says.
pub fn aligned(text: Text, pen: Pen) -> Pen
    ensures { result ≡ aligned text pen }
{
    let point = led(text, pen.point);
    Pen { point, text, ..pen }
}

// The cursor set, held on the screen, and the drawing point with it as the move attribute says.
#[tactic(auto, unfolding(rules::specs::Text::set_cursor))]
pub fn set_cursor(x: Coordinate, y: Coordinate, pen: Pen) -> Pen
    ensures { result ≡ set_cursor x y pen }
{
    let bounds = field_box(pen.text);
    let text = put_cursor(bounds, x, y, Pair::NoPair, pen.text);
    aligned(text, pen)
}
