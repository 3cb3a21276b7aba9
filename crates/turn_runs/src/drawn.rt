// Runs of bytes that are drawn, from the cell of the innermost body or from the piece.
ghost use Rattle.std.specs.Prelude.{◌≡◌, true, List, ℕ, ◌+◌, ◌-◌, ◌≤◌, length, get_or};
ghost use Rattle.rules.specs.Ranges.{domain_fits, command_fits};
ghost use Rattle.rules.specs.Bodies.{nowhere};
ghost use Rattle.store.specs.Lent.{Sized};
ghost use Rattle.drawing_runs.specs.Drew.{DrawsTo};
ghost use Rattle.turn_runs.specs.Drew.{tip_after};
ghost use Rattle.coded_turns.specs.Walk.{Walk, Fit, source_of, Lies, Passes, cursors_after, reached_at};

use crate::cancelling::{after_cancel, draw_cancel};
use coded_turns::{awaits_nothing, is_marked, reach, set_in_use};
use command_runs::run_commands;
use command_steps::effectors::run_format;
use drawing_runs::Ran;
use drawing_runs::strokes::draw_strokes;
use pens::tips::{Tip, catch_up, tip_of};
use progress::{Progress, Reached};
use rules::{
    Command, Cursor, Look, NO_OPERAND, Operand, Pen, Point, ROOM_FOR_STEP, Repertoire, Set, Text,
};
use setting_runs::set_text;
use store::cursors::{Stretch, stretch_of};
use text_runs::{closes_at_once, run_text};

fn none_drawn(tip: Tip, command: Command, at: usize) -> Ran<Tip>
    ensures { result ≡ record { count = 0; at = at; left = tip; command = command } }
{
    Ran {
        count: 0,
        at,
        left: tip,
        command,
    }
}

// The tip after so many bytes that looked at no text.
pub(crate) fn tip_after(count: usize, moved: bool, point: Point, tip: Tip) -> Tip
    ensures { result ≡ tip_after count moved point tip }
{
    if count == 0 {
        return tip;
    }
    if moved {
        return Tip {
            point,
            operand: NO_OPERAND,
            behind: true,
        };
    }
    Tip {
        operand: NO_OPERAND,
        ..tip
    }
}

// Whether none of an operand is begun. It keeps eight bytes.
pub(crate) fn none_begun(operand: Operand) -> bool
    ensures none { result ≡ true → operand.count ≡ 0 }
    ensures eight { length operand.bytes ≡ 8 }
{
    operand.count == 0
}

// What no run of points takes: a format effector, or the operands of TEXT.
fn draw_next(
    text: &mut Text,
    tip: Tip,
    command: Command,
    look: Look,
    bytes: &[u8],
    out: &mut [u8],
    at: usize,
) -> Ran<Tip>
    requires { (tip.operand.count ≡ 0) × (domain_fits look.domain ≡ true) × (at ≤ length out.old) }
    ensures ran { DrawsTo Set.Pdi bytes.now 0 text.old tip command look at
        out.old result text.new out.new }
    ensures most { result.count ≤ length bytes.now }
{
    if bytes.is_empty() || out.len() - at < ROOM_FOR_STEP {
        return none_drawn(tip, command, at);
    }
    if bytes[0] < 32 {
        return run_format(text, tip, command, look, bytes, out, at);
    }
    set_text(text, tip, command, look, bytes, at)
}

// PDI bytes, where no operand is begun: many points of one stroke, whose loop is the shortest, else whole commands and what follows
// them.
fn draw_pdi(
    text: &mut Text,
    tip: Tip,
    command: Command,
    look: Look,
    bytes: &[u8],
    out: &mut [u8],
    at: usize,
) -> Ran<Tip>
    requires { (domain_fits look.domain ≡ true) × (command_fits command ≡ true) × (at ≤ length out.old) }
    ensures ran { DrawsTo Set.Pdi bytes.now 0 text.old tip command look at
        out.old result text.new out.new }
    ensures most { result.count ≤ length bytes.now }
{
    if !none_begun(tip.operand) {
        return none_drawn(tip, command, at);
    }
    let lined = draw_strokes(tip, command, look, bytes, out, at);
    if 0 < lined.count {
        return Ran {
            count: lined.count,
            at: lined.at,
            left: tip_after(lined.count, true, lined.point, tip),
            command,
        };
    }
    let passed = run_commands(tip.point, command, look, bytes, out, at);
    let tip = tip_after(passed.count, passed.left.moved, passed.left.point, tip);
    let rest = &bytes[passed.count..];
    let next = draw_next(text, tip, passed.command, look, rest, out, passed.at);
    Ran {
        count: passed.count + next.count,
        ..next
    }
}

// Characters, where the open command closes at once.
fn draw_text(
    repertoire: Repertoire,
    text: &mut Text,
    tip: Tip,
    command: Command,
    look: Look,
    bytes: &[u8],
    out: &mut [u8],
    at: usize,
) -> Ran<Tip>
    requires { at ≤ length out.old }
    ensures ran { DrawsTo (Set.Characters repertoire) bytes.now 0 text.old tip command
        look at out.old result text.new out.new }
    ensures most { result.count ≤ length bytes.now }
{
    if !closes_at_once(command, tip.operand) {
        return none_drawn(tip, command, at);
    }
    catch_up(text, tip.behind, tip.point);
    let pen = Pen {
        point: tip.point,
        text: *text,
        operand: tip.operand,
    };
    let ran = run_text(repertoire, pen, command, look, bytes, out, at);
    *text = ran.left.text;
    Ran {
        count: ran.count,
        at: ran.at,
        left: tip_of(ran.left),
        command: ran.command,
    }
}

// Bytes of the set that are drawn. Macro names draw nothing.
fn draw_set(
    set: Set,
    text: &mut Text,
    tip: Tip,
    command: Command,
    look: Look,
    bytes: &[u8],
    out: &mut [u8],
    at: usize,
) -> Ran<Tip>
    requires { (domain_fits look.domain ≡ true) × (command_fits command ≡ true) × (at ≤ length out.old) }
    ensures ran { DrawsTo set bytes.now 0 text.old tip command look at
        out.old result text.new out.new }
    ensures most { result.count ≤ length bytes.now }
{
    match set {
        Set::Pdi => draw_pdi(text, tip, command, look, bytes, out, at),
        Set::Characters(repertoire) => {
            draw_text(repertoire, text, tip, command, look, bytes, out, at)
        }
        Set::Macro => none_drawn(tip, command, at),
    }
}

// The bytes that the next step reads from.
fn source_of<'a>(depth: u8, piece: &'a [u8], store: &'a [u8]) -> &'a [u8]
    ensures { result.now ≡ source_of depth piece.now store.now }
{
    if depth == 0 {
        return piece;
    }
    store
}

// Where the innermost body is read.
fn innermost(cursors: &[Cursor; 8], depth: u8) -> Cursor
    requires { (1 ≤ depth) × (depth ≤ 8) }
    ensures { result ≡ get_or cursors.now (depth - 1) nowhere }
{
    cursors[(depth - 1) as usize]
}

// Where they lie: in the cell of the innermost body, else in the piece.
fn stretch_next(progress: Progress, cursors: &[Cursor; 8], store: &[u8], piece: &[u8]) -> Stretch
    requires { (Sized store.now) × (progress.depth ≤ 8) × (progress.at ≤ length piece.now) }
    ensures { Lies progress.depth progress.at cursors.now store.now
        piece.now result.from result.to }
{
    if progress.depth == 0 {
        return Stretch {
            from: progress.at,
            to: piece.len(),
        };
    }
    stretch_of(store, innermost(cursors, progress.depth))
}

// The same, as far as the budget lasts.
fn bytes_next(
    progress: Progress,
    budget: u32,
    cursors: &[Cursor; 8],
    store: &[u8],
    piece: &[u8],
) -> Stretch
    requires { (Sized store.now) × (progress.depth ≤ 8) × (progress.at ≤ length piece.now) }
    ensures lies { Lies progress.depth progress.at cursors.now store.now
        piece.now result.from result.to }
    ensures few { (result.to - result.from ≤ budget - progress.steps) × (progress.steps + (result.to - result.from) ≤ 4294967295) }
{
    let stretch = stretch_next(progress, cursors, store, piece);
    Stretch {
        from: stretch.from,
        to: reach(stretch.from, stretch.to, budget, progress.steps),
    }
}

// The innermost body is read on by so many bytes of its cell.
fn read_past(depth: u8, count: usize, cursors: &mut [Cursor; 8])
    requires { (depth ≤ 8) × Passes depth count cursors.old }
    ensures { cursors.new ≡ cursors_after depth count cursors.old }
{
    if depth != 0 {
        let index = (depth - 1) as usize;
        cursors[index].place += count as u8;
    }
}

// A control without a record, or one that waits for another byte, is left to a turn.
fn begins_drawn(bytes: &[u8]) -> bool {
    !bytes.is_empty() && (32 <= bytes[0] || is_marked(bytes[0]))
}

// Bytes that are drawn, of the innermost body, else of the piece.
pub fn run_drawn<'a>(
    reached: Reached,
    budget: u32,
    text: &mut Text,
    cursors: &mut [Cursor; 8],
    store: &'a [u8],
    piece: &'a [u8],
    out: &mut [u8],
) -> Reached
    requires { (Fit reached.progress store.now piece.now out.old)
        × (domain_fits reached.look.domain ≡ true) × (command_fits reached.command ≡ true) }
    ensures walk { (firsts map : List ℕ)
        → Walk piece.now
        (reached_at budget reached text.old cursors.old firsts map store.now
        out.old)
        (reached_at budget result text.new cursors.new firsts map store.now
        out.new) }
    ensures most { result.progress.steps - reached.progress.steps ≤ budget - reached.progress.steps }
    ensures still { result.progress.steps ≤ reached.progress.steps
        → (result.progress.steps ≡ reached.progress.steps) × (result.progress.depth ≡ reached.progress.depth)
        × (cursors.new ≡ cursors.old) }
    ensures cells { (i : ℕ) → (get_or cursors.new i nowhere).cell ≡ (get_or cursors.old i nowhere).cell }
{
    let progress = reached.progress;
    if !awaits_nothing(progress.waiting) {
        return reached;
    }
    let next = bytes_next(progress, budget, cursors, store, piece);
    let source = source_of(progress.depth, piece, store);
    let bytes = &source[next.from..next.to];
    if !begins_drawn(bytes) {
        return reached;
    }
    let drew = draw_set(
        set_in_use(progress),
        text,
        reached.tip,
        reached.command,
        reached.look,
        bytes,
        out,
        progress.written,
    );
    let ran = draw_cancel(drew, reached.look, bytes, out);
    read_past(progress.depth, ran.count, cursors);
    Reached {
        progress: after_cancel(progress, drew.count, ran.count, ran.at),
        tip: ran.left,
        command: ran.command,
        look: reached.look,
    }
}
