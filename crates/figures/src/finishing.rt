// Commands finished: the figure that finishes one, and the drawing point. A single step and a run finish by these.
ghost use Rattle.std.specs.Prelude.{◌≡◌, false};
ghost use Rattle.rules.specs.declared.Look.{Look};
ghost use Rattle.rules.specs.Drawing.{finish};
ghost use Rattle.figures.specs.Tracing.{DrawsFigure, finishes_apart, is_polygon};

use crate::tracing::{Figure, arc, span};
use records::flags;
use rules::{Command, Point, Role, Row};

// The figure that finishes a command, then the drawing point, and whether it was moved. The flag is beside the point since the
// point stands in either case.
#[derive(Clone, Copy)]
pub struct Finished {
    pub figure: Figure,
    pub moved: bool,
    pub point: Point,
}

// Whether a command finishes with another look or another text, and draws no figure: SELECT COLOUR with no operand, and TEXT.
#[tactic(auto, unfolding(crate::specs::Tracing::finishes_apart))]
pub fn finishes_apart(role: Role) -> bool
    ensures { result ≡ finishes_apart role }
{
    matches!(
        role,
        Role::TextFirst | Role::TextSecond | Role::TextField | Role::TextMore | Role::Foreground
    )
}

// Whether a command draws a polygon, by the operand that is due.
#[tactic(auto, unfolding(crate::specs::Tracing::is_polygon))]
fn is_polygon(role: Role) -> bool
    ensures { result ≡ is_polygon role }
{
    matches!(role, Role::Edge | Role::PolygonCodes)
}

// Finishes by the operand that is due, at the drawing point p: an arc with a middle but no end is a circle, a polygon with an
// edge has one that closes it.
pub fn finish(role: Role, row: Row, p: Point, command: Command) -> Finished
    requires { finishes_apart role ≡ false }
    ensures drawn { (l : Look) → DrawsFigure (finish role row.filled) l p command result.figure result.moved result.point command }
    ensures still { result.moved ≡ false → result.point ≡ p }
{
    let start = command.start;
    let mut finished = Finished {
        figure: span(0, 0, p, start),
        moved: false,
        point: p,
    };
    if let Role::ArcEnd = role {
        finished = Finished {
            figure: arc(row.filled, false, start, command),
            moved: true,
            point: start,
        };
    } else if is_polygon(role) && 1 < command.vertices {
        finished.figure = span(5, flags(row.filled, false, true), p, start);
        finished.moved = true;
        finished.point = start;
    }
    finished
}
