// Incremental outlines: the codes of a data byte, what they draw and what they change.
#![tactic(auto)]

pub mod changes;

ghost use Rattle.std.specs.Prelude.{◌≡◌, ◌||◌, [], ◌∷◌, ◌++◌, ◌+◌, ◌≤◌, length, eqb};
ghost use Rattle.rules.specs.declared.Record.{Record};
ghost use Rattle.rules.specs.Numbers.{record_size, room_for_step, most_vertices, origin};
ghost use Rattle.rules.specs.Choice.{pick};
ghost use Rattle.rules.specs.Record.{words, bytes_of};
ghost use Rattle.rules.specs.Increments.{codes, moves_in};
ghost use Rattle.rules.specs.Drawing.{apply_codes};
ghost use Rattle.records.specs.Bytes.{head_bytes};
ghost use Rattle.figures.specs.Carried.{Puts, carry_out, carried_of};
ghost use Rattle.outlines.specs.Trails.{kind_of, is_drawn, vertices_after, Inked, MovesOn, Follows, overflows, IsCodes};

use crate::changes::{Trail, alter, changes_after, displacement, is_move, trail_of, with_trail};
use figures::TooManyVertices;
use figures::answers::move_if;
use operands::displace;
use records::{Head, flags, head_of, put_words};
use rules::{Drawing, Look, MOST_VERTICES, ORIGIN, Outline, Point, RECORD_SIZE};

// The heads of the records of moves, by whether a sum left the range, and the pel.
#[derive(Clone, Copy)]
pub struct Inks {
    pub plain: Head,
    pub wrapped: Head,
    pub pel: Point,
}

// The place after the records, whether the point was moved, and the trail. The flag is beside the trail since the trail stands in
// either case.
#[derive(Clone, Copy)]
pub struct Coded {
    pub at: usize,
    pub moved: bool,
    pub trail: Trail,
}

// The kind of an outline's records.
fn kind_of(outline: Outline) -> u8
    ensures { result ≡ kind_of outline }
{
    match outline {
        Outline::Line => 2,
        Outline::Polygon => 5,
    }
}

fn inks_of(outline: Outline, filled: bool, look: Look) -> Inks
    ensures { Inked result outline filled look }
{
    let kind = kind_of(outline);
    Inks {
        plain: head_of(look, kind, flags(filled, false, false), 0, 0),
        wrapped: head_of(look, kind, flags(filled, true, false), 0, 0),
        pel: look.domain.pel,
    }
}

// The head of a move's record.
fn head_for(inks: Inks, outside: bool) -> Head
    ensures { result ≡ pick outside inks.wrapped inks.plain }
{
    if outside { inks.wrapped } else { inks.plain }
}

// Whether a move is drawn: a line's unless the draw flag is off, a polygon's always.
fn is_drawn(outline: Outline, off: bool) -> bool
    ensures { result ≡ is_drawn outline off }
{
    match outline {
        Outline::Line => !off,
        Outline::Polygon => true,
    }
}

// The vertices after a move.
fn vertices_after(outline: Outline, vertices: u16) -> u16
    requires { vertices ≤ most_vertices + 2 }
    ensures { result ≡ vertices_after outline vertices }
{
    match outline {
        Outline::Line => vertices,
        Outline::Polygon => vertices + 1,
    }
}

// Writes the record of a move, if it is drawn, and answers the place after it.
fn put_move(
    drawn: bool,
    head: Head,
    p: Point,
    q: Point,
    pel: Point,
    out: &mut [u8],
    at: usize,
) -> usize
    requires { at + record_size ≤ length out.old }
    ensures put { (x : Record) → head_bytes head ++ words p ++ words q ++ words origin ++ words pel ≡ bytes_of x
        → Puts (pick drawn (x ∷ []) []) at out.old result out.new }
    ensures most { result ≤ at + record_size }
{
    if drawn {
        put_words(out, at, head, p, q, ORIGIN, pel);
        return at + RECORD_SIZE;
    }
    at
}

// A move by the axes that a code names.
fn move_on(outline: Outline, code: u8, coded: &mut Coded, inks: Inks, out: &mut [u8])
    requires { (coded.old.trail.vertices ≤ most_vertices + 2) × (coded.old.at + record_size ≤ length out.old) }
    ensures { MovesOn outline inks code coded.old out.old coded.new out.new }
{
    let p = coded.trail.point;
    let aimed = displace(p, displacement(code, coded.trail.step));
    let drawn = is_drawn(outline, coded.trail.off);
    let head = head_for(inks, aimed.outside);
    coded.at = put_move(drawn, head, p, aimed.point, inks.pel, out, coded.at);
    coded.moved = true;
    coded.trail.point = aimed.point;
    coded.trail.vertices = vertices_after(outline, coded.trail.vertices);
}

// One code: a move, or what alters the trail.
fn apply_code(outline: Outline, code: u8, coded: &mut Coded, inks: Inks, out: &mut [u8])
    requires { (coded.old.trail.vertices ≤ most_vertices + 2) × (coded.old.at + record_size ≤ length out.old) }
    ensures { Follows outline inks (code ∷ []) coded.old out.old coded.new out.new }
{
    if is_move(code, coded.trail.changes) {
        move_on(outline, code, coded, inks, out);
    } else {
        alter(outline, code, &mut coded.trail);
    }
}

// The three codes of a byte, b6 b5 first.
fn apply_codes(outline: Outline, byte: u8, coded: &mut Coded, inks: Inks, out: &mut [u8])
    requires { (coded.old.trail.vertices ≤ most_vertices) × (coded.old.at + room_for_step ≤ length out.old) }
    ensures { Follows outline inks (codes byte) coded.old out.old coded.new out.new }
{
    apply_code(outline, byte / 16 % 4, coded, inks, out);
    apply_code(outline, byte / 4 % 4, coded, inks, out);
    apply_code(outline, byte % 4, coded, inks, out);
}

// How many moves a code makes: one or none.
fn moves_of(code: u8, changes: bool) -> u16
    ensures { (result ≡ pick (changes || eqb code 0) 0 1) × (result ≤ 1) }
{
    if is_move(code, changes) { 1 } else { 0 }
}

// The vertices that a polygon would have after a byte.
fn vertices_with(byte: u8, trail: Trail) -> u16
    requires { trail.vertices ≤ most_vertices }
    ensures { result ≡ trail.vertices + moves_in Outline.Polygon (codes byte) trail.changes }
{
    let first = byte / 16 % 4;
    let second = byte / 4 % 4;
    let third = byte % 4;
    let changes = trail.changes;
    let next = changes_after(Outline::Polygon, first, changes);
    let last = changes_after(Outline::Polygon, second, next);
    trail.vertices + (moves_of(first, changes) + (moves_of(second, next) + moves_of(third, last)))
}

// Whether the codes of a byte have a vertex too many.
fn overflows(outline: Outline, byte: u8, trail: Trail) -> bool
    requires { trail.vertices ≤ most_vertices }
    ensures { result ≡ overflows outline byte trail }
{
    match outline {
        Outline::Line => false,
        Outline::Polygon => MOST_VERTICES < vertices_with(byte, trail),
    }
}

// The codes of a data byte, unless one of them is a vertex too many.
pub fn draw_codes(
    outline: Outline,
    filled: bool,
    byte: u8,
    drawing: &mut Drawing,
    out: &mut [u8],
    at: usize,
) -> Result<usize, TooManyVertices>
    requires { (drawing.old.command.vertices ≤ most_vertices) × (IsCodes drawing.old.command.due) × (at + room_for_step ≤ length out.old) }
    ensures { carried_of result at drawing.new out.new
        ≡ carry_out (apply_codes outline filled (codes byte)) drawing.old at out.old }
{
    let trail = trail_of(drawing.pen.point, drawing.command);
    if overflows(outline, byte, trail) {
        return Err(TooManyVertices);
    }
    let mut coded = Coded {
        at,
        moved: false,
        trail,
    };
    let inks = inks_of(outline, filled, drawing.look);
    apply_codes(outline, byte, &mut coded, inks, out);
    move_if(coded.moved, &mut drawing.pen, coded.trail.point);
    drawing.command = with_trail(drawing.command, coded.trail);
    Ok(coded.at)
}
