// A CAN where a run ends: it is drawn, and then every running body is left.
ghost use Rattle.std.specs.Prelude.{◌≡◌, true, ◌+◌, ◌≤◌, ◌<◌, length, get_or};
ghost use Rattle.rules.specs.Numbers.{can, room_for_step};
ghost use Rattle.rules.specs.declared.Text.{Text};
ghost use Rattle.progress.specs.Progress.{place_after};
ghost use Rattle.turn_runs.specs.Cancelling.{CancelsTo, cancelled_on};

use crate::drawn::{none_begun, tip_after};
use command_steps::opening::mark_next;
use data_bytes::role_due;
use drawing_runs::Ran;
use figures::finishing::finishes_apart;
use opcodes::row_of;
use pens::tips::Tip;
use progress::{Progress, after_run};
use records::head_of;
use rules::{CAN, Look, ROOM_FOR_STEP};

// Whether a CAN comes at a place, and so many bytes of the output are enough for its step.
fn comes_next(bytes: &[u8], place: usize, free: usize) -> bool
    ensures { result ≡ true
        → (place < length bytes.now) × (get_or bytes.now place 0 ≡ can) × (room_for_step ≤ free) }
{
    place < bytes.len() && bytes[place] == CAN && ROOM_FOR_STEP <= free
}

// Draws the CAN that comes after what was drawn, where no operand is begun and the open command finishes by a figure or by none; the
// ordinary step does the rest.
pub(crate) fn draw_cancel(drew: Ran<Tip>, look: Look, bytes: &[u8], out: &mut [u8]) -> Ran<Tip>
    requires { (drew.count ≤ length bytes.now) × (drew.at ≤ length out.old) }
    ensures cancels { (t : Text) → CancelsTo bytes.now t look drew out.old result out.new }
    ensures most { result.count ≤ length bytes.now }
{
    let at = drew.at;
    if !comes_next(bytes, drew.count, out.len() - at) {
        return drew;
    }
    let command = drew.command;
    let row = row_of(command.opcode);
    if finishes_apart(role_due(row, command)) || !none_begun(drew.left.operand) {
        return drew;
    }
    let ink = head_of(look, 0, 0, 0, 0);
    let next = mark_next(
        CAN,
        row,
        drew.left.point,
        command,
        ink,
        look.domain.pel,
        out,
        at,
    );
    Ran {
        count: drew.count + 1,
        at: next.at,
        left: tip_after(1, next.moved, next.point, drew.left),
        command: next.command,
    }
}

// The progress after a run of so many bytes, their records written up to a place. If they are more than were drawn before a CAN, the last
// is the CAN.
pub(crate) fn after_cancel(progress: Progress, drew: usize, ran: usize, written: usize) -> Progress
    requires { (progress.steps + ran ≤ 4294967295) × (place_after progress.depth ran progress.at ≤ 18446744073709551615) }
    ensures { result ≡ cancelled_on drew ran written progress }
{
    let after = after_run(progress, ran, written);
    if drew < ran {
        return Progress { depth: 0, ..after };
    }
    after
}
