// A run of the PDI set: points that come whole, opcodes and recorded controls.
#![tactic(auto)]

ghost use Rattle.std.specs.Prelude.{◌≡◌, true, false, ◌≤◌, length};
ghost use Rattle.rules.specs.declared.Operand.{Operand};
ghost use Rattle.rules.specs.declared.Role.{Role};
ghost use Rattle.rules.specs.declared.Set.{Set};
ghost use Rattle.rules.specs.Ranges.{domain_fits, command_fits};
ghost use Rattle.figures.specs.Tracing.{finishes_apart};
ghost use Rattle.drawing_runs.specs.Run.{ActsAs};
ghost use Rattle.drawing_runs.specs.Strokes.{PassesTo};
ghost use Rattle.command_steps.specs.Asked.{asked};

use command_steps::opening::open_next;
use command_steps::points::point_due;
use data_bytes::{role_due, with_due};
use drawing_runs::strokes::is_stroke;
use drawing_runs::{Moved, Ran};
use figures::finishing::finishes_apart;
use figures::tracing::{either, put_figure, target, trace};
use opcodes::{row_of, row_place, rows};
use operands::whole::{are_data, three_bytes};
use records::head_of;
use rules::{Command, Look, Point, ROOM_FOR_STEP, Role};
use tables::controls::is_recorded;

// Whether four points of three bytes come next.
fn is_long(bytes: &[u8]) -> bool {
    12 <= bytes.len()
        && are_data(three_bytes(bytes, 0))
        && are_data(three_bytes(bytes, 3))
        && are_data(three_bytes(bytes, 6))
        && are_data(three_bytes(bytes, 9))
}

// Whether the points of the command just opened are left to the loop of strokes.
fn leaves_strokes(opcode: u8, bytes: &[u8]) -> bool {
    is_stroke(opcode) && is_long(bytes)
}

// Whether a byte is an opcode or a recorded control, and the open command finishes by a figure or none.
fn opens(role: Role, byte: u8) -> bool
    ensures { result ≡ true → (finishes_apart role ≡ false) × ActsAs Set.Pdi byte (asked byte) }
{
    if finishes_apart(role) {
        return false;
    }
    if byte < 32 {
        return is_recorded(byte);
    }
    byte < 64
}

// Whether data is dropped after so many bytes; a step before it has left no operand begun.
fn drops(role: Role, byte: u8, count: usize) -> bool
    ensures { result ≡ true → (role ≡ Role.Dropped) × (byte ≤ 127) × (1 ≤ count) }
{
    1 <= count && byte <= 127 && matches!(role, Role::Dropped)
}

// What so many bytes leave.
fn after(count: usize, at: usize, moved: bool, point: Point, command: Command) -> Ran<Moved>
    ensures { result ≡ record { count = count; at = at; left = record { moved = moved; point = point }; command = command } }
{
    Ran {
        count,
        at,
        left: Moved { moved, point },
        command,
    }
}

// As many bytes as are whole points, opcodes, recorded controls and dropped data, with no operand begun; the ordinary step does the rest.
pub fn run_commands(
    mut point: Point,
    mut command: Command,
    look: Look,
    bytes: &[u8],
    out: &mut [u8],
    mut at: usize,
) -> Ran<Moved>
    requires { (domain_fits look.domain ≡ true) × (command_fits command ≡ true) × (at ≤ length out.old) }
    ensures ran { (o : Operand) → o.count ≡ 0 → length o.bytes ≡ 8
        → PassesTo bytes.now 0 point o command look at out.old result out.new }
    ensures most { result.count ≤ length bytes.now }
{
    let ink = head_of(look, 0, 0, 0, 0);
    let domain = look.domain;
    let pel = domain.pel;
    let n = domain.multi as usize;
    let rows = rows();
    let mut row = row_of(command.opcode);
    let mut role = role_due(row, command);
    let mut moved = false;
    // A place, since a turn takes a byte or a whole operand.
    let mut place: usize = 0;
    while place < bytes.len() {
        if out.len() - at < ROOM_FOR_STEP {
            return after(place, at, moved, point, command);
        }
        let byte = bytes[place];
        if byte < 64 {
            if !opens(role, byte) {
                return after(place, at, moved, point, command);
            }
            let next = rows[row_place(byte)];
            let opened = open_next(byte, next, row, point, command, ink, pel, out, at);
            at = opened.at;
            moved = either(moved, opened.moved);
            point = opened.point;
            command = opened.command;
            row = next;
            role = role_due(row, command);
            place += 1;
            if leaves_strokes(byte, &bytes[place..]) {
                return after(place, at, moved, point, command);
            }
            continue;
        }
        let whole = point_due(role, command.vertices, n, domain.three, &bytes[place..]);
        match whole {
            None => {
                if !drops(role, byte, place) {
                    return after(place, at, moved, point, command);
                }
                place += 1;
                continue;
            }
            Some(v) => {
                let aimed = target(role, point, v);
                let traced = trace(role, row, aimed.outside, aimed.point, point, command);
                at = put_figure(traced.figure, ink, pel, out, at);
                moved = true;
                point = traced.point;
                command = with_due(row, traced.command);
                role = role_due(row, command);
                place += n;
                continue;
            }
        }
    }
    after(place, at, moved, point, command)
}
