// Operands applied: what a complete operand draws and changes, by its role.
#![tactic(auto)]

pub mod colours;

ghost use Rattle.std.specs.Prelude.{◌≡◌, true, List, ℕ, ◌+◌, ◌≤◌, length};
ghost use Rattle.rules.specs.Numbers.{record_size};
ghost use Rattle.rules.specs.Operands.{point, begun};
ghost use Rattle.rules.specs.Drawing.{apply};
ghost use Rattle.figures.specs.Carried.{carry_out, carried_of};
ghost use Rattle.figures.specs.Tracing.{is_point};

use crate::colours::{set_background, set_foreground, set_shade};
use figures::TooManyVertices;
use figures::tracing::{is_point, put_figure, target, trace};
use operands::{address_of, byte_of, domain_of, hue_of, point_of};
use records::head_of;
use rules::{Drawing, Point, Role, Row};
use settings::{with_field, with_first, with_second};
use text::cursor::follow;

// An operand that is the point v is traced, unless it is one vertex too many.
fn draw_point(
    role: Role,
    row: Row,
    v: Point,
    drawing: &mut Drawing,
    out: &mut [u8],
    at: usize,
) -> Result<usize, TooManyVertices>
    requires { (is_point role 0 ≡ true) × (at + record_size ≤ length out.old) }
    ensures { (bs : List ℕ) → v ≡ point drawing.old.look.domain.three bs
        → carried_of result at drawing.new out.new ≡ carry_out (apply role row bs) drawing.old at out.old }
{
    if !is_point(role, drawing.command.vertices) {
        return Err(TooManyVertices);
    }
    let p = drawing.pen.point;
    let aimed = target(role, p, v);
    let traced = trace(role, row, aimed.outside, aimed.point, p, drawing.command);
    let ink = head_of(drawing.look, 0, 0, 0, 0);
    let at = put_figure(traced.figure, ink, drawing.look.domain.pel, out, at);
    drawing.pen = follow(drawing.pen, traced.point);
    drawing.command = traced.command;
    Ok(at)
}

// The point is read for every role: with one call the reading is inlined, and few operands are no point. The count and the
// foreground are bounded here and not by their types: a session that is lent may hold any, which the tests of a call refuse.
#[tactic(auto, using(figures::proofs::Carrying::none_carried), unfolding(rules::specs::Drawing::apply, figures::specs::Tracing::is_point))]
pub fn apply(
    role: Role,
    row: Row,
    drawing: &mut Drawing,
    out: &mut [u8],
    at: usize,
) -> Result<usize, TooManyVertices>
    requires { (drawing.old.pen.operand.count ≤ 8) × (drawing.old.look.colour.foreground ≤ 15) × (at + record_size ≤ length out.old) }
    ensures { carried_of result at drawing.new out.new
        ≡ carry_out (apply role row (begun drawing.old.pen.operand)) drawing.old at out.old }
{
    let operand = drawing.pen.operand;
    let p = point_of(operand, drawing.look.domain.three);
    match role {
        Role::Lengths => {
            drawing.look.domain = domain_of(byte_of(operand, 0), drawing.look.domain.pel);
        }
        Role::Pel => drawing.look.domain.pel = p,
        Role::TextFirst => drawing.pen.text = with_first(byte_of(operand, 0), drawing.pen.text),
        Role::TextSecond => drawing.pen.text = with_second(byte_of(operand, 0), drawing.pen.text),
        Role::TextField => drawing.pen.text = with_field(p, drawing.pen.text),
        Role::Foreground => set_foreground(&mut drawing.look.colour, address_of(operand)),
        Role::Background => set_background(&mut drawing.look.colour, address_of(operand)),
        Role::Shade => return Ok(set_shade(hue_of(operand), drawing, out, at)),
        Role::StepSize => drawing.command.kept = p,
        Role::TextMore | Role::Dropped | Role::LineCodes | Role::PolygonCodes => {}
        _ => return draw_point(role, row, p, drawing, out, at),
    }
    Ok(at)
}
