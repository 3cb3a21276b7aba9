// Codes that are no moves, and what a code names.
ghost use Rattle.std.specs.Prelude.{◌≡◌, not, ◌||◌, eqb};
ghost use Rattle.rules.specs.Choice.{pick};
ghost use Rattle.rules.specs.Increments.{names_x, names_y, displacement, negated, sign_changed, change_due, changes_after};
ghost use Rattle.outlines.specs.Trails.{trail_of, due_for, on_trail, flag_after, altered_trail};

use operands::negate;
use rules::{Command, Due, Outline, Point};

// How far an outline has come: the drawing point, and what codes change of the command. Its draw flag is off or on, and the next
// code is a change or a move.
#[derive(Clone, Copy)]
pub struct Trail {
    pub point: Point,
    pub step: Point,
    pub off: bool,
    pub changes: bool,
    pub vertices: u16,
}

// Whether a code names the x axis.
fn names_x(code: u8) -> bool
    ensures { result ≡ names_x code }
{
    matches!(code, 1 | 3)
}

// Whether a code names the y axis.
fn names_y(code: u8) -> bool
    ensures { result ≡ names_y code }
{
    matches!(code, 2 | 3)
}

// The step on an axis, where it is named.
fn named(told: bool, step: u32) -> u32
    ensures { result ≡ pick told step 0 }
{
    if told { step } else { 0 }
}

// The step on the axes that a code names.
#[tactic(auto, unfolding(rules::specs::Increments::displacement))]
pub(crate) fn displacement(code: u8, step: Point) -> Point
    ensures { result ≡ displacement code step }
{
    let x = named(names_x(code), step.x);
    let y = named(names_y(code), step.y);
    Point { x, y }
}

// The step on an axis, with the other sign where it is named.
fn turned(told: bool, step: u32) -> u32
    ensures { result ≡ pick told (negated step) step }
{
    if told { negate(step) } else { step }
}

// The step with the other sign on the axes that a code names.
#[tactic(auto, unfolding(rules::specs::Increments::sign_changed))]
fn with_signs(code: u8, step: Point) -> Point
    ensures { result ≡ sign_changed code step }
{
    let x = turned(names_x(code), step.x);
    let y = turned(names_y(code), step.y);
    Point { x, y }
}

// Whether a code is a move.
pub(crate) fn is_move(code: u8, changes: bool) -> bool
    ensures { result ≡ not (changes || eqb code 0) }
{
    !changes && code != 0
}

// Whether a change is due after a code.
pub(crate) fn changes_after(outline: Outline, code: u8, changes: bool) -> bool
    ensures { result ≡ changes_after outline code changes }
{
    match outline {
        Outline::Line => !changes && code == 0,
        Outline::Polygon => code == 0,
    }
}

fn is_change_due(due: Due) -> bool
    ensures { result ≡ change_due due }
{
    matches!(due, Due::Third)
}

fn due_for(changes: bool) -> Due
    ensures { result ≡ due_for changes }
{
    if changes { Due::Third } else { Due::Second }
}

// The trail of a command at a point.
pub fn trail_of(point: Point, command: Command) -> Trail
    ensures { result ≡ trail_of point command }
{
    Trail {
        point,
        step: command.kept,
        off: command.noted,
        changes: is_change_due(command.due),
        vertices: command.vertices,
    }
}

// The command with what its trail has become.
pub fn with_trail(command: Command, trail: Trail) -> Command
    ensures { result ≡ on_trail trail command }
{
    Command {
        due: due_for(trail.changes),
        vertices: trail.vertices,
        kept: trail.step,
        noted: trail.off,
        ..command
    }
}

// A line's draw flag, changed by a change of 00.
fn flag_after(outline: Outline, code: u8, off: bool) -> bool
    ensures { result ≡ flag_after outline code off }
{
    if code != 0 {
        return off;
    }
    match outline {
        Outline::Line => !off,
        Outline::Polygon => off,
    }
}

// A code that is no move alters the trail.
pub(crate) fn alter(outline: Outline, code: u8, trail: &mut Trail)
    ensures { trail.new ≡ altered_trail outline code trail.old }
{
    if trail.changes {
        trail.step = with_signs(code, trail.step);
        trail.off = flag_after(outline, code, trail.off);
    }
    trail.changes = changes_after(outline, code, trail.changes);
}
