// A format effector in a run of commands: it closes the open command, has its record and moves the cursor.
ghost use Rattle.std.specs.Prelude.{◌≡◌, ◌+◌, ◌<◌, ◌≤◌, length};
ghost use Rattle.rules.specs.Numbers.{room_for_step};
ghost use Rattle.rules.specs.declared.Set.{Set};
ghost use Rattle.rules.specs.Drawing.{no_operand};
ghost use Rattle.rules.specs.Text.{formatted};
ghost use Rattle.pens.specs.Tips.{caught_up, pen_of};
ghost use Rattle.drawing_runs.specs.Drew.{DrawsTo};

use crate::opening::mark_next;
use data_bytes::role_due;
use drawing_runs::Ran;
use figures::finishing::finishes_apart;
use figures::tracing::either;
use moves::movers::format;
use opcodes::row_of;
use pens::tips::{Tip, catch_up, tip_of};
use records::head_of;
use rules::{Command, Control, Effector, Look, NO_OPERAND, Operand, Pen, Point, Text};
use tables::controls::control_of;

// What a format effector makes of the text and of the drawing point, which the cursor follows first if it is behind.
fn format_text(text: &mut Text, effector: Effector, behind: bool, point: Point) -> Tip
    ensures { pen_of text.new result
        ≡ formatted effector
        (record { point = point; text = caught_up behind point text.old; operand = no_operand }) }
{
    catch_up(text, behind, point);
    let pen = Pen {
        point,
        text: *text,
        operand: NO_OPERAND,
    };
    let pen = format(effector, pen);
    *text = pen.text;
    tip_of(pen)
}

// The format effector that a byte is, where the open command finishes by a figure or by none; no byte else.
#[tactic(auto, using(drawing_runs::specs::Run::none))]
pub fn run_format(
    text: &mut Text,
    tip: Tip,
    command: Command,
    look: Look,
    bytes: &[u8],
    out: &mut [u8],
    at: usize,
) -> Ran<Tip>
    requires { (tip.operand.count ≡ 0) × (0 < length bytes.now) × (at + room_for_step ≤ length out.old) }
    ensures ran { DrawsTo Set.Pdi bytes.now 0 text.old tip command look at
        out.old result text.new out.new }
    ensures most { result.count ≤ 1 }
{
    let none = Ran {
        count: 0,
        at,
        left: tip,
        command,
    };
    let row = row_of(command.opcode);
    if finishes_apart(role_due(row, command)) {
        return none;
    }
    let byte = bytes[0];
    let control = control_of(byte);
    if let Control::Formats(effector) = control {
        let ink = head_of(look, 0, 0, 0, 0);
        let next = mark_next(byte, row, tip.point, command, ink, look.domain.pel, out, at);
        let behind = either(tip.behind, next.moved);
        let tip = format_text(text, effector, behind, next.point);
        return Ran {
            count: 1,
            at: next.at,
            left: tip,
            command: next.command,
        };
    }
    none
}
