// Runs of bytes of the piece that write no record: definitions, escape sequences, controls, calls of empty bodies.
ghost use Rattle.std.specs.Prelude.{◌≡◌, true, List, ℕ, ◌+◌, ◌-◌, ◌≤◌, length};
ghost use Rattle.rules.specs.Numbers.{room_for_step};
ghost use Rattle.rules.specs.declared.Drawing.{Drawing};
ghost use Rattle.rules.specs.Coding.{set_of, in_use};
ghost use Rattle.rules.specs.Ranges.{waiting_fits};
ghost use Rattle.store.specs.Lent.{Sized};
ghost use Rattle.progress.specs.Progress.{coded_on};
ghost use Rattle.steps.specs.View.{NoneSpent};
ghost use Rattle.coded_turns.specs.Walk.{place_at, Walk};

use crate::{awaits_nothing, is_marked, reach, set_in_use};
use bodies::calls::empty_calls;
use bodies::depth_left;
use coding_runs::run_idle;
use progress::Progress;
use rules::{Cursor, Element, NOWHERE, ROOM_FOR_STEP, Set, Waiting};
use tables::sets::in_use;

// The control 0/14, which puts G1 in use.
const SHIFT_OUT: u8 = 14;

// The control 0/15, which puts G0 in use.
const SHIFT_IN: u8 = 15;

// In these runs `to`, as far as the budget lasts, stands beside the piece, which is lent whole: the walk that is promised is along it.

// Calls of empty bodies from the piece. Each is removed before the next step.
fn call_piece(
    progress: Progress,
    to: usize,
    cursors: &mut [Cursor; 8],
    firsts: &[u8; 96],
    piece: &[u8],
) -> Progress
    requires { (progress.depth ≡ 0) × (progress.waiting ≡ Waiting.Nothing)
        × (set_of progress.sets.used progress.sets ≡ Set.Macro) × (progress.at ≤ to) × (to ≤ length piece.now)
        × (progress.steps + (to - progress.at) ≤ 4294967295) }
    ensures walk { (budget : ℕ) (d : Drawing) (st out : List ℕ) → to - progress.at ≤ budget - progress.steps
        → room_for_step ≤ length out - progress.written
        → Walk piece.now
        (place_at budget progress cursors.old firsts.now d st out)
        (place_at budget result cursors.new firsts.now d st out) }
    ensures most { result.steps - progress.steps ≤ to - progress.at }
    ensures still { result.steps ≤ progress.steps → result.depth ≡ 0 }
{
    let count = empty_calls(firsts, &piece[progress.at..to]);
    if count == 0 {
        return progress;
    }
    cursors[0] = NOWHERE;
    Progress {
        at: progress.at + count,
        steps: progress.steps + (count as u32),
        depth: 1,
        ..progress
    }
}

// Bytes of the piece that ask nothing of drawing: controls, and what is waited for.
fn idle_piece(
    progress: Progress,
    to: usize,
    firsts: &mut [u8; 96],
    store: &mut [u8],
    piece: &[u8],
) -> Progress
    requires { (progress.depth ≡ 0) × (Sized store.old) × (waiting_fits progress.waiting ≡ true) × (progress.at ≤ to)
        × (to ≤ length piece.now) × (progress.steps + (to - progress.at) ≤ 4294967295) }
    ensures walk { (budget : ℕ) (cursors : List Cursor) (d : Drawing) (out : List ℕ) → to - progress.at ≤ budget - progress.steps
        → room_for_step ≤ length out - progress.written
        → Walk piece.now
        (place_at budget progress cursors firsts.old d store.old out)
        (place_at budget result cursors firsts.new d store.new out) }
    ensures most { result.steps - progress.steps ≤ to - progress.at }
    ensures still { result.steps ≤ progress.steps → result.depth ≡ 0 }
{
    let bytes = &piece[progress.at..to];
    let idled = run_idle(progress.sets, progress.waiting, firsts, store, bytes);
    Progress {
        at: progress.at + idled.count,
        sets: idled.sets,
        waiting: idled.waiting,
        steps: progress.steps + (idled.count as u32),
        ..progress
    }
}

// Names of the piece that call empty bodies, where Macro is in use.
fn names_piece(
    progress: Progress,
    to: usize,
    cursors: &mut [Cursor; 8],
    firsts: &[u8; 96],
    piece: &[u8],
) -> Progress
    requires { (progress.depth ≡ 0) × (progress.waiting ≡ Waiting.Nothing) × (progress.at ≤ to) × (to ≤ length piece.now)
        × (progress.steps + (to - progress.at) ≤ 4294967295) }
    ensures walk { (budget : ℕ) (d : Drawing) (st out : List ℕ) → to - progress.at ≤ budget - progress.steps
        → room_for_step ≤ length out - progress.written
        → Walk piece.now
        (place_at budget progress cursors.old firsts.now d st out)
        (place_at budget result cursors.new firsts.now d st out) }
    ensures most { result.steps - progress.steps ≤ to - progress.at }
    ensures still { result.steps ≤ progress.steps → result.depth ≡ 0 }
{
    match set_in_use(progress) {
        Set::Macro => call_piece(progress, to, cursors, firsts, piece),
        _ => progress,
    }
}

// A locking shift of the piece.
fn lock(progress: Progress, used: Element) -> Progress
    requires { (progress.steps + 1 ≤ 4294967295) × (progress.at + 1 ≤ 18446744073709551615) }
    ensures { result ≡ coded_on 1 progress.depth (in_use used progress.sets) progress.waiting progress }
{
    Progress {
        at: progress.at + 1,
        steps: progress.steps + 1,
        sets: in_use(used, progress.sets),
        ..progress
    }
}

// Bytes of the piece that write no record, with so many bytes of the output free.
fn code_piece(
    progress: Progress,
    budget: u32,
    free: usize,
    cursors: &mut [Cursor; 8],
    firsts: &mut [u8; 96],
    store: &mut [u8],
    piece: &[u8],
) -> Progress
    requires { (Sized store.old) × (waiting_fits progress.waiting ≡ true) × (progress.at ≤ length piece.now)
        × NoneSpent progress.depth cursors.old store.old }
    ensures walk { (d : Drawing) (out : List ℕ) → free ≡ length out - progress.written
        → Walk piece.now
        (place_at budget progress cursors.old firsts.old d store.old
        out)
        (place_at budget result cursors.new firsts.new d store.new out) }
    ensures most { result.steps - progress.steps ≤ budget - progress.steps }
    ensures spent { result.steps ≤ progress.steps
        → NoneSpent result.depth cursors.new store.new }
{
    if progress.depth != 0 {
        return progress;
    }
    let at = progress.at;
    let to = reach(at, piece.len(), budget, progress.steps);
    if to <= at {
        return progress;
    }
    if free < ROOM_FOR_STEP {
        return progress;
    }
    let waiting = progress.waiting;
    if awaits_nothing(waiting) && 32 <= piece[at] {
        return names_piece(progress, to, cursors, firsts, piece);
    }
    if awaits_nothing(waiting) && piece[at] == SHIFT_OUT {
        return lock(progress, Element::G1);
    }
    if awaits_nothing(waiting) && piece[at] == SHIFT_IN {
        return lock(progress, Element::G0);
    }
    if awaits_nothing(waiting) && is_marked(piece[at]) {
        return progress;
    }
    idle_piece(progress, to, firsts, store, piece)
}

// The same once spent bodies are removed.
pub fn run_coded(
    progress: Progress,
    budget: u32,
    free: usize,
    cursors: &mut [Cursor; 8],
    firsts: &mut [u8; 96],
    store: &mut [u8],
    piece: &[u8],
) -> Progress
    requires { (Sized store.old) × (progress.depth ≤ 8) × (waiting_fits progress.waiting ≡ true)
        × (progress.at ≤ length piece.now) }
    ensures walk { (d : Drawing) (out : List ℕ) → free ≡ length out - progress.written
        → Walk piece.now
        (place_at budget progress cursors.old firsts.old d store.old
        out)
        (place_at budget result cursors.new firsts.new d store.new out) }
    ensures most { result.steps - progress.steps ≤ budget - progress.steps }
    ensures spent { result.steps ≤ progress.steps
        → NoneSpent result.depth cursors.new store.new }
{
    let depth = depth_left(store, cursors, progress.depth);
    let progress = Progress { depth, ..progress };
    code_piece(progress, budget, free, cursors, firsts, store, piece)
}
