// TEXT: its two bytes, its closing, and the default settings.
#![tactic(auto)]

ghost use Rattle.std.specs.Prelude.{◌≡◌};
ghost use Rattle.rules.specs.Text.{coded, byte_one, byte_two, with_missing, with_field, with_first, with_second, aligned, close_text, fresh_settings, fresh_text, reset_text};

use rules::{
    Due, FRESH_HEIGHT, FRESH_WIDTH, Interrow, Moving, ORIGIN, Operand, Pair, Path, Pen, Point,
    Rotation, Settings, Spacing, Style, Text,
};
use text::axis::coordinate_of;
use text::cursor::{aligned, put_cursor};
use text::field::field_box;

// The one of four that a code of two bits stands for.
fn coded<T: Copy>(code: u8, zero: T, one: T, two: T, three: T) -> T
    ensures { result ≡ coded code zero one two three }
{
    match code {
        0 => zero,
        1 => one,
        2 => two,
        _ => three,
    }
}

// Each byte has three settings of its own, so byte_one and byte_two, with_first and with_second are two definitions in the rules too.
#[tactic(auto, unfolding(rules::specs::Text::byte_one))]
pub fn byte_one(byte: u8, settings: Settings) -> Settings
    ensures { result ≡ byte_one byte settings }
{
    Settings {
        rotation: coded(
            byte % 4,
            Rotation::Degrees0,
            Rotation::Degrees90,
            Rotation::Degrees180,
            Rotation::Degrees270,
        ),
        path: coded(byte / 4 % 4, Path::Right, Path::Left, Path::Up, Path::Down),
        spacing: coded(
            byte / 16 % 4,
            Spacing::One,
            Spacing::FiveFourths,
            Spacing::ThreeHalves,
            Spacing::Proportional,
        ),
        ..settings
    }
}

#[tactic(auto, unfolding(rules::specs::Text::byte_two))]
pub fn byte_two(byte: u8, settings: Settings) -> Settings
    ensures { result ≡ byte_two byte settings }
{
    Settings {
        interrow: coded(
            byte % 4,
            Interrow::OneRow,
            Interrow::FiveFourthsRow,
            Interrow::ThreeHalvesRow,
            Interrow::TwoRows,
        ),
        moving: coded(
            byte / 4 % 4,
            Moving::Together,
            Moving::CursorLeads,
            Moving::PointLeads,
            Moving::Independent,
        ),
        style: coded(
            byte / 16 % 4,
            Style::Underscore,
            Style::Block,
            Style::CrossHair,
            Style::Custom,
        ),
        ..settings
    }
}

// The text after TEXT's first byte.
pub fn with_first(byte: u8, text: Text) -> Text
    ensures { result ≡ with_first byte text }
{
    Text {
        settings: byte_one(byte, text.settings),
        ..text
    }
}

// The text after TEXT's second byte.
pub fn with_second(byte: u8, text: Text) -> Text
    ensures { result ≡ with_second byte text }
{
    Text {
        settings: byte_two(byte, text.settings),
        ..text
    }
}

// The text with another character field.
pub fn with_field(field: Point, text: Text) -> Text
    ensures { result ≡ with_field field text }
{
    Text { field, ..text }
}

// The settings, with the bytes that have not come read as zero.
#[tactic(auto, unfolding(rules::specs::Text::with_missing))]
fn with_missing(due: Due, settings: Settings) -> Settings
    ensures { result ≡ with_missing due settings }
{
    match due {
        Due::First => byte_two(0, byte_one(0, settings)),
        Due::Second => byte_two(0, settings),
        Due::Third | Due::Past => settings,
    }
}

// The text once TEXT is closed with so much of its operands read: the cursor is held on the screen.
#[tactic(auto, unfolding(rules::specs::Text::close_text, rules::specs::Text::set_cursor))]
pub fn closed_text(due: Due, text: Text) -> Text
    ensures { (p : Point) (o : Operand) → close_text due (record { point = p; text = text; operand = o }) ≡ aligned result (record { point = p; text = text; operand = o }) }
{
    let x = coordinate_of(text.cursor.x);
    let y = coordinate_of(text.cursor.y);
    let settings = with_missing(due, text.settings);
    let text = Text { settings, ..text };
    put_cursor(field_box(text), x, y, Pair::NoPair, text)
}

// Closes TEXT: the same, and the drawing point aligned.
pub fn close_text(due: Due, pen: Pen) -> Pen
    ensures { result ≡ close_text due pen }
{
    aligned(closed_text(due, pen.text), pen)
}

pub fn fresh_settings() -> Settings
    ensures { result ≡ fresh_settings }
{
    Settings {
        rotation: Rotation::Degrees0,
        path: Path::Right,
        spacing: Spacing::One,
        interrow: Interrow::OneRow,
        moving: Moving::Together,
        style: Style::Underscore,
    }
}

pub fn fresh_text() -> Text
    ensures { result ≡ fresh_text }
{
    Text {
        settings: fresh_settings(),
        field: Point {
            x: FRESH_WIDTH as u32,
            y: FRESH_HEIGHT as u32,
        },
        cursor: ORIGIN,
        pair: Pair::NoPair,
    }
}

// NSR at the 1/15: the default settings and field, and no pair begun; the cursor stays.
#[tactic(auto, unfolding(rules::specs::Text::reset_text))]
pub fn reset_text(text: Text) -> Text
    ensures { result ≡ reset_text text }
{
    Text {
        cursor: text.cursor,
        ..fresh_text()
    }
}
