// Points applied: the figure that each draws, and what it leaves, by its role. A single step and a run draw by these.
ghost use Rattle.std.specs.Prelude.{◌≡◌, true, ◌||◌, List, ℕ, suc, ◌+◌, ◌<◌, ◌≤◌, length};
ghost use Rattle.rules.specs.Numbers.{record_size, most_vertices};
ghost use Rattle.rules.specs.declared.Look.{Look};
ghost use Rattle.rules.specs.Operands.{point};
ghost use Rattle.rules.specs.Drawing.{with_start, with_vertices, apply};
ghost use Rattle.figures.specs.Carried.{Puts};
ghost use Rattle.figures.specs.Tracing.{Inks, DrawsFigure, figure_records, span_figure, arc_figure, is_relative, aim, strays, is_point};

use operands::{Displaced, displace};
use records::{Head, flags, put_words, with_kind};
use rules::{Command, MOST_VERTICES, ORIGIN, Point, RECORD_SIZE, Role, Row};

// What a record shows of an operand, beside the look. A figure of kind 0 writes no record. The kind is a number and no enum: it is
// the byte of the record, which the table of opcodes has too.
#[derive(Clone, Copy)]
pub struct Figure {
    pub kind: u8,
    pub flags: u8,
    pub p0: Point,
    pub p1: Point,
    pub p2: Point,
}

// The figure of a point, then the drawing point and the open command.
#[derive(Clone, Copy)]
pub struct Traced {
    pub figure: Figure,
    pub point: Point,
    pub command: Command,
}

// Whether an operand is a point that is not refused, with so many vertices read.
#[tactic(auto, unfolding(crate::specs::Tracing::is_point))]
pub fn is_point(role: Role, vertices: u16) -> bool
    ensures { result ≡ is_point role vertices }
{
    match role {
        Role::MoveTo | Role::DrawTo | Role::DrawBy | Role::Middle | Role::ArcEnd | Role::Start =>
            true,
        Role::Edge => vertices < MOST_VERTICES,
        _ => false,
    }
}

// Whether an operand is counted from the drawing point.
#[tactic(auto, unfolding(crate::specs::Tracing::is_relative))]
fn is_relative(role: Role) -> bool
    ensures { result ≡ is_relative role }
{
    matches!(
        role,
        Role::DrawBy | Role::Middle | Role::ArcEnd | Role::Edge
    )
}

// The point that an operand v leads to from the drawing point p.
pub fn target(role: Role, p: Point, v: Point) -> Displaced
    ensures { (result.point ≡ aim role p v) × (result.outside ≡ strays role p v) }
{
    if is_relative(role) {
        return displace(p, v);
    }
    Displaced {
        point: v,
        outside: false,
    }
}

// Writes the record of a figure, if it has one, and answers the place after it.
pub fn put_figure(figure: Figure, ink: Head, pel: Point, out: &mut [u8], at: usize) -> usize
    requires { at + record_size ≤ length out.old }
    ensures put { (l : Look) → Inks ink pel l → Puts (figure_records l figure) at out.old result out.new }
    ensures most { result ≤ at + record_size }
{
    if figure.kind == 0 {
        return at;
    }
    let head = with_kind(ink, figure.kind, figure.flags);
    put_words(out, at, head, figure.p0, figure.p1, figure.p2, pel);
    at + RECORD_SIZE
}

// Whether one of two is so; with no branch, which a run's loop would pay for.
pub fn either(a: bool, b: bool) -> bool
    ensures { result ≡ (a || b) }
{
    a || b
}

// The arc by the start and the middle that the command keeps.
pub(crate) fn arc(filled: bool, wrapped: bool, q: Point, command: Command) -> Figure
    ensures { result ≡ arc_figure filled wrapped q command }
{
    Figure {
        kind: 3,
        flags: flags(filled, either(command.noted, wrapped), false),
        p0: command.start,
        p1: command.kept,
        p2: q,
    }
}

// A figure by one or two points.
pub(crate) fn span(kind: u8, flags: u8, p: Point, q: Point) -> Figure
    ensures { result ≡ span_figure kind flags p q }
{
    Figure {
        kind,
        flags,
        p0: p,
        p1: q,
        p2: ORIGIN,
    }
}

// A point of an operand with this role, at the drawing point p, that leads to q; outside says that a sum for q left the range.
pub fn trace(role: Role, row: Row, outside: bool, q: Point, p: Point, command: Command) -> Traced
    requires { is_point role command.vertices ≡ true }
    ensures drawn { (l : Look) (v : Point) (bs : List ℕ) → q ≡ aim role p v → outside ≡ strays role p v
        → v ≡ point l.domain.three bs
        → DrawsFigure (apply role row bs) l p command result.figure true result.point result.command }
    ensures opcode { result.command.opcode ≡ command.opcode }
{
    let flags = flags(row.filled, outside, false);
    let mut traced = Traced {
        figure: span(0, flags, p, q),
        point: q,
        command,
    };
    match role {
        Role::MoveTo => {}
        Role::Start => traced.command.start = q,
        Role::Middle => {
            traced.command.start = p;
            traced.command.kept = q;
            traced.command.noted = outside;
        }
        Role::ArcEnd => traced.figure = arc(row.filled, outside, q, command),
        Role::Edge => {
            traced.figure = span(5, flags, p, q);
            traced.command.vertices += 1;
        }
        _ => match row.kind {
            1 => traced.figure = span(1, flags, q, ORIGIN),
            2 => traced.figure = span(2, flags, p, q),
            4 => {
                // A rectangle moves the drawing point sideways only.
                traced.figure = span(4, flags, p, q);
                traced.point.y = p.y;
            }
            _ => {}
        },
    }
    traced
}
