// What moves the cursor: a character's advance, the format effectors, and the null pair after an automatic one.
ghost use Rattle.std.specs.Prelude.{◌≡◌};
ghost use Rattle.rules.specs.Text.{on_axis, along_x, forwards, opposite, row_direction, cursor_along, reach_along, set_along, next_along, fits_next, enter, row_in, row_down, row_up, first_position, advance, apb, home, paired, apr, apd, formatted};
ghost use Rattle.moves.specs.Advance.{put_along, wrapped, Advances};

use rules::{Coordinate, DISPLAY_TOP, Effector, FieldBox, Pair, Path, Pen, Reach, Text};
use text::axis::{after_stride, coordinate_of, entry_edge, field_fits, held, row_step};
use text::cursor::{aligned, put_cursor, set_cursor};
use text::field::{field_box, interrow_quarters, spacing_quarters};

#[tactic(auto, unfolding(rules::specs::Text::along_x))]
fn along_x(direction: Path) -> bool
    ensures { result ≡ along_x direction }
{
    matches!(direction, Path::Right | Path::Left)
}

#[tactic(auto, unfolding(rules::specs::Text::forwards))]
pub fn forwards(direction: Path) -> bool
    ensures { result ≡ forwards direction }
{
    matches!(direction, Path::Right | Path::Up)
}

fn opposite(direction: Path) -> Path
    ensures { result ≡ opposite direction }
{
    match direction {
        Path::Right => Path::Left,
        Path::Left => Path::Right,
        Path::Up => Path::Down,
        Path::Down => Path::Up,
    }
}

// Down a row: the path turned by -90 degrees.
fn row_direction(path: Path) -> Path
    ensures { result ≡ row_direction path }
{
    match path {
        Path::Right => Path::Down,
        Path::Left => Path::Up,
        Path::Up => Path::Right,
        Path::Down => Path::Left,
    }
}

// The cursor on the axis of a direction.
pub fn cursor_along(direction: Path, text: Text) -> u32
    ensures { result ≡ cursor_along direction text }
{
    if along_x(direction) {
        text.cursor.x
    } else {
        text.cursor.y
    }
}

// What a box reaches on the axis of a direction.
pub fn reach_in(direction: Path, bounds: FieldBox) -> Reach
    ensures { result ≡ on_axis direction bounds.x bounds.y }
{
    if along_x(direction) {
        bounds.x
    } else {
        bounds.y
    }
}

// The field's reach on the axis of a direction.
fn reach_along(direction: Path, text: Text) -> Reach
    ensures { result ≡ reach_along direction text }
{
    reach_in(direction, field_box(text))
}

// The cursor set on the axis of a direction.
#[tactic(auto, unfolding(rules::specs::Text::set_along))]
fn set_along(direction: Path, to: Coordinate, pen: Pen) -> Pen
    ensures { result ≡ set_along direction to pen }
{
    let cursor = pen.text.cursor;
    if along_x(direction) {
        set_cursor(to, coordinate_of(cursor.y), pen)
    } else {
        set_cursor(coordinate_of(cursor.x), to, pen)
    }
}

// The coordinate of the next character in a direction.
#[tactic(auto, unfolding(rules::specs::Text::next_along))]
fn next_along(direction: Path, text: Text) -> Coordinate
    ensures { result ≡ next_along direction text }
{
    let reach = reach_along(direction, text);
    let quarters = spacing_quarters(text.settings.spacing);
    let from = cursor_along(direction, text);
    after_stride(reach, forwards(direction), quarters, from)
}

// Whether the field fits there.
#[tactic(auto, unfolding(rules::specs::Text::fits_next))]
fn fits_next(direction: Path, text: Text) -> bool
    ensures { result ≡ fits_next direction text }
{
    field_fits(reach_along(direction, text), next_along(direction, text))
}

// To the edge that a field comes in by when it moves in a direction.
#[tactic(auto, unfolding(rules::specs::Text::enter))]
fn enter(direction: Path, pen: Pen) -> Pen
    ensures { result ≡ enter direction pen }
{
    let reach = reach_along(direction, pen.text);
    let edge = entry_edge(reach, forwards(direction));
    set_along(direction, edge, pen)
}

// A row step in a direction.
#[tactic(auto, unfolding(rules::specs::Text::row_in))]
fn row_in(direction: Path, pen: Pen) -> Pen
    ensures { result ≡ row_in direction pen }
{
    let reach = reach_along(direction, pen.text);
    let quarters = interrow_quarters(pen.text.settings.interrow);
    let from = cursor_along(direction, pen.text);
    let to = row_step(reach, forwards(direction), quarters, from);
    set_along(direction, to, pen)
}

// Down a row, as APD where no pair is null.
#[tactic(auto, unfolding(rules::specs::Text::row_down))]
fn row_down(pen: Pen) -> Pen
    ensures { result ≡ row_down pen }
{
    row_in(row_direction(pen.text.settings.path), pen)
}

// APU.
#[tactic(auto, unfolding(rules::specs::Text::row_up))]
fn row_up(pen: Pen) -> Pen
    ensures { result ≡ row_up pen }
{
    row_in(opposite(row_direction(pen.text.settings.path)), pen)
}

// To the first position along the path, as APR where no pair is null.
#[tactic(auto, unfolding(rules::specs::Text::first_position))]
fn first_position(pen: Pen) -> Pen
    ensures { result ≡ first_position pen }
{
    enter(pen.text.settings.path, pen)
}

// So much of a pair has come.
fn paired(pair: Pair, pen: Pen) -> Pen
    ensures { result ≡ paired pair pen }
{
    let text = Text { pair, ..pen.text };
    Pen { text, ..pen }
}

// The cursor put on the axis of a direction and across it.
fn put_along(
    direction: Path,
    bounds: FieldBox,
    to: Coordinate,
    across: Coordinate,
    pair: Pair,
    text: Text,
) -> Text
    ensures { result ≡ put_along direction bounds to across pair text }
{
    if along_x(direction) {
        put_cursor(bounds, to, across, pair, text)
    } else {
        put_cursor(bounds, across, to, pair, text)
    }
}

// The automatic APR APD of a field that would leave the screen along the path: the row step starts where the cursor is held.
fn wrapped(path: Path, bounds: FieldBox, text: Text) -> Text
    ensures { result ≡ wrapped path bounds text }
{
    let reach = reach_in(path, bounds);
    let edge = entry_edge(reach, forwards(path));
    let down = row_direction(path);
    let across = reach_in(down, bounds);
    let place = coordinate_of(cursor_along(down, text));
    let from = held(across, place);
    let quarters = interrow_quarters(text.settings.interrow);
    let row = row_step(across, forwards(down), quarters, from);
    put_along(path, bounds, edge, row, Pair::Automatic, text)
}

// The text after a character that spaces; the drawing point is to be aligned with it.
#[tactic(auto, using(crate::proofs::MoverLaws::along_text, crate::proofs::MoverLaws::automatic_text), unfolding(rules::specs::Text::advance, rules::specs::Text::fits_next, rules::specs::Text::next_along))]
pub fn advanced(text: Text) -> Text
    ensures { Advances text result }
{
    let bounds = field_box(text);
    let path = text.settings.path;
    let reach = reach_in(path, bounds);
    let quarters = spacing_quarters(text.settings.spacing);
    let from = cursor_along(path, text);
    let next = after_stride(reach, forwards(path), quarters, from);
    if field_fits(reach, next) {
        let across = coordinate_of(cursor_along(row_direction(path), text));
        put_along(path, bounds, next, across, Pair::NoPair, text)
    } else {
        wrapped(path, bounds, text)
    }
}

// The advance of a character that spaces, and APF.
pub(crate) fn advance(pen: Pen) -> Pen
    ensures { result ≡ advance pen }
{
    aligned(advanced(pen.text), pen)
}

// APB.
#[tactic(auto, unfolding(rules::specs::Text::apb))]
fn apb(pen: Pen) -> Pen
    ensures { result ≡ apb pen }
{
    let against = opposite(pen.text.settings.path);
    if fits_next(against, pen.text) {
        set_along(against, next_along(against, pen.text), pen)
    } else {
        row_up(enter(against, pen))
    }
}

// CS and APH: the upper left character position of the display area.
#[tactic(auto, unfolding(rules::specs::Text::home))]
fn home(pen: Pen) -> Pen
    ensures { result ≡ home pen }
{
    let bounds = field_box(pen.text);
    let x = Coordinate {
        ahead: bounds.x.before as u64,
        back: 0,
    };
    let y = Coordinate {
        ahead: DISPLAY_TOP,
        back: bounds.y.after as u64,
    };
    set_cursor(x, y, pen)
}

#[tactic(auto, unfolding(rules::specs::Text::return_in))]
fn apr(pen: Pen) -> Pen
    ensures { result ≡ apr pen }
{
    match pen.text.pair {
        Pair::NoPair => first_position(pen),
        Pair::Automatic => paired(Pair::ReturnSeen, pen),
        Pair::ReturnSeen => pen,
        Pair::FeedSeen(before) => {
            set_cursor(coordinate_of(before.x), coordinate_of(before.y), pen)
        }
    }
}

#[tactic(auto, unfolding(rules::specs::Text::feed_in))]
fn apd(pen: Pen) -> Pen
    ensures { result ≡ apd pen }
{
    match pen.text.pair {
        Pair::NoPair | Pair::FeedSeen(_) => row_down(pen),
        Pair::Automatic => paired(Pair::FeedSeen(pen.text.cursor), row_down(pen)),
        Pair::ReturnSeen => paired(Pair::NoPair, pen),
    }
}

// What a format effector does.
pub fn format(effector: Effector, pen: Pen) -> Pen
    ensures { result ≡ formatted effector pen }
{
    match effector {
        Effector::Apb => apb(pen),
        Effector::Apf => advance(pen),
        Effector::Apd => apd(pen),
        Effector::Apu => row_up(pen),
        Effector::Apr => apr(pen),
        Effector::Cs | Effector::Aph => home(pen),
    }
}
