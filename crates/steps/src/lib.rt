// One step: a byte that was read is interpreted. All that can refuse it comes before the first change.
#![tactic(auto)]

ghost use Rattle.std.specs.Prelude.{◌≡◌, true, false, List, ℕ, ◌+◌, ◌≤◌, length, is_err, IfOk, OnErr};
ghost use Rattle.rules.specs.Numbers.{room_for_step};
ghost use Rattle.rules.specs.declared.Drawing.{Drawing};
ghost use Rattle.rules.specs.Drawing.{act};
ghost use Rattle.rules.specs.Ranges.{waiting_fits, drawing_fits};
ghost use Rattle.rules.specs.Step.{on_outcome, call, opens_inside};
ghost use Rattle.pens.specs.Tips.{pen_of};
ghost use Rattle.store.specs.Lent.{Sized, IsName};
ghost use Rattle.reactions.specs.View.{sets_after};
ghost use Rattle.figures.specs.Carried.{carry_out, drawing_of};
ghost use Rattle.bodies.specs.Stack.{bodies_of};
ghost use Rattle.progress.specs.Progress.{written_to};
ghost use Rattle.steps.specs.Leaving.{source_at, read_on, step_by, interpreted, leaves};
ghost use Rattle.steps.specs.View.{state_at, coding_after, left_of, DrawDue, Ready, drawn_of, read_on_if};

use bodies::depth_after;
use coding::{react, set_read};
use drawing::act;
use figures::TooManyVertices;
use pens::tips::pen_of;
use progress::{Progress, Reached, after_drawing};
use reactions::{Effect, Reacted, sets_after};
use rules::{Action, Answer, Cursor, Drawing, MOST_DEPTH, Refusal, Sets, Text, Waiting};
use store::names::first_of;
use tables::escapes::after_escape;

// Where reading goes on once a byte is read: in the piece, and in the innermost body.
#[derive(Clone, Copy)]
pub struct Onward {
    pub at: usize,
    pub cursor: Cursor,
}

// A step was accepted, the reading ends, or the step is accepted if its action can be drawn: the innermost body then goes on at the cursor.
// An enum of its own: none of the three is an error, and each is one arm of the reading.
#[derive(Clone, Copy)]
pub enum Course {
    GoesOn,
    Ends(Answer),
    Draws(Action, Cursor),
}

#[derive(Clone, Copy)]
pub struct Turned {
    pub course: Course,
    pub progress: Progress,
}

pub fn ends(progress: Progress, answer: Answer) -> Turned
    ensures { result ≡ record { course = Course.Ends answer; progress = progress } }
{
    Turned {
        course: Course::Ends(answer),
        progress,
    }
}

// Whether a byte from a body is the one that opens a definition.
fn opens_inside(depth: u8, waiting: Waiting, byte: u8) -> bool
    ensures { result ≡ opens_inside (source_at depth) waiting byte }
{
    depth != 0 && after_escape(waiting) && byte == 64
}

// The innermost body goes on at the cursor. Without a body there is none to keep.
fn read_on(cursors: &mut [Cursor; 8], depth: u8, cursor: Cursor)
    requires { depth ≤ 8 }
    ensures { bodies_of depth cursors.new
        ≡ read_on depth cursor (bodies_of depth cursors.old) }
{
    if depth != 0 {
        cursors[(depth - 1) as usize] = cursor;
    }
}

fn call(
    progress: Progress,
    onward: Onward,
    name: u8,
    reacted: Reacted,
    cursors: &mut [Cursor; 8],
    firsts: &[u8; 96],
) -> Turned
    requires { (Ready progress onward.at) × (IsName name) × (reacted.effect ≡ Effect.Calls name) }
    ensures left { (budget : ℕ) (d : Drawing) (st out : List ℕ)
        → left_of budget progress result cursors.new firsts.now d st out
        ≡ leaves
        (step_by progress.depth onward.cursor (call name (coding_after reacted progress firsts.now))
        (state_at budget progress cursors.old firsts.now d st))
        progress.at progress.written out }
    ensures due { DrawDue progress result }
{
    let depth = progress.depth;
    if MOST_DEPTH <= depth {
        return ends(progress, Answer::Refused(Refusal::TooDeep));
    }
    read_on(cursors, depth, onward.cursor);
    let cell = first_of(firsts, name);
    cursors[depth as usize] = Cursor { cell, place: 0 };
    Turned {
        course: Course::GoesOn,
        progress: Progress {
            at: onward.at,
            steps: progress.steps + 1,
            waiting: reacted.waiting,
            depth: depth + 1,
            ..progress
        },
    }
}

// Nothing is asked of drawing. The sets are given, since an idle action leaves them: to put them together in each step is slower.
fn idle(
    progress: Progress,
    onward: Onward,
    sets: Sets,
    reacted: Reacted,
    cursors: &mut [Cursor; 8],
) -> Turned
    requires { (Ready progress onward.at) × (sets ≡ sets_after reacted.effect progress.sets) }
    ensures left { (budget : ℕ) (d : Drawing) (firsts st out : List ℕ)
        → left_of budget progress result cursors.new firsts d st out
        ≡ leaves
        (step_by progress.depth onward.cursor
        (on_outcome (act Action.Idle d) Action.Idle (coding_after reacted progress firsts) st)
        (state_at budget progress cursors.old firsts d st))
        progress.at progress.written out }
    ensures due { DrawDue progress result }
{
    read_on(cursors, progress.depth, onward.cursor);
    Turned {
        course: Course::GoesOn,
        progress: Progress {
            at: onward.at,
            steps: progress.steps + 1,
            sets,
            waiting: reacted.waiting,
            ..progress
        },
    }
}

// The body is read on once the action is drawn.
fn draws(progress: Progress, onward: Onward, action: Action, reacted: Reacted) -> Turned
    requires { Ready progress onward.at }
    ensures left { (budget : ℕ) (cursors : List Cursor) (firsts : List ℕ) (d : Drawing) (st out : List ℕ)
        → left_of budget progress result cursors firsts d st out
        ≡ leaves
        (step_by progress.depth onward.cursor (on_outcome (act action d) action (coding_after reacted progress firsts) st)
        (state_at budget progress cursors firsts d st))
        progress.at progress.written out }
    ensures due { DrawDue progress result }
{
    Turned {
        course: Course::Draws(action, onward.cursor),
        progress: Progress {
            at: onward.at,
            steps: progress.steps + 1,
            sets: sets_after(reacted.effect, progress.sets),
            waiting: reacted.waiting,
            depth: depth_after(action, progress.depth),
            ..progress
        },
    }
}

fn ask(
    progress: Progress,
    onward: Onward,
    action: Action,
    reacted: Reacted,
    cursors: &mut [Cursor; 8],
) -> Turned
    requires { (Ready progress onward.at) × (reacted.effect ≡ Effect.Acts action) }
    ensures left { (budget : ℕ) (d : Drawing) (firsts st out : List ℕ)
        → left_of budget progress result cursors.new firsts d st out
        ≡ leaves
        (step_by progress.depth onward.cursor (on_outcome (act action d) action (coding_after reacted progress firsts) st)
        (state_at budget progress cursors.old firsts d st))
        progress.at progress.written out }
    ensures due { DrawDue progress result }
{
    match action {
        Action::Idle => idle(progress, onward, progress.sets, reacted, cursors),
        _ => draws(progress, onward, action, reacted),
    }
}

// Interprets a byte. Only a definition writes to the store, and it asks nothing of drawing.
pub fn interpret(
    progress: Progress,
    onward: Onward,
    byte: u8,
    cursors: &mut [Cursor; 8],
    firsts: &mut [u8; 96],
    store: &mut [u8],
) -> Turned
    requires { (Ready progress onward.at) × (Sized store.old) × (waiting_fits progress.waiting ≡ true) }
    ensures left { (budget : ℕ) (d : Drawing) (out : List ℕ)
        → left_of budget progress result cursors.new firsts.new d store.new
        out
        ≡ leaves
        (interpreted progress.depth onward.cursor byte
        (state_at budget progress cursors.old firsts.old d store.old))
        progress.at progress.written out }
    ensures due { DrawDue progress result }
{
    if opens_inside(progress.depth, progress.waiting, byte) {
        return ends(progress, Answer::Refused(Refusal::DefinitionInBody));
    }
    let set = set_read(progress.waiting, progress.sets);
    match react(set, progress.waiting, firsts, store, byte) {
        Err(refusal) => ends(progress, Answer::Refused(refusal)),
        Ok(reacted) => match reacted.effect {
            Effect::Calls(name) => call(progress, onward, name, reacted, cursors, firsts),
            Effect::Acts(action) => ask(progress, onward, action, reacted, cursors),
            Effect::Uses(_) | Effect::Designates(_, _) => {
                let sets = sets_after(reacted.effect, progress.sets);
                idle(progress, onward, sets, reacted, cursors)
            }
        },
    }
}

// Draws the action of a turn that leads to the progress `next`, and reads its body on where drawing accepts it.
pub fn draw(
    action: Action,
    next: Progress,
    cursor: Cursor,
    reached: Reached,
    text: &mut Text,
    cursors: &mut [Cursor; 8],
    map: &mut [u8; 48],
    out: &mut [u8],
) -> Result<Reached, TooManyVertices>
    requires { (reached.progress.depth ≤ 8)
        × (drawing_fits (drawing_of (pen_of text.old reached.tip) reached.command reached.look map.old) ≡ true)
        × (reached.progress.written + room_for_step ≤ length out.old) }
    ensures drawn { drawn_of result reached text.new map.new out.new
        ≡ carry_out (act action)
        (drawing_of (pen_of text.old reached.tip) reached.command reached.look map.old)
        reached.progress.written out.old }
    ensures steps { IfOk result (λ r. r.progress ≡ written_to r.progress.written next) }
    ensures text { OnErr result (text.new ≡ text.old) }
    ensures settled { IfOk result (λ r. r.tip.behind ≡ false) }
    ensures bodies { bodies_of reached.progress.depth cursors.new
        ≡ read_on_if (is_err result) reached.progress.depth cursor
        (bodies_of reached.progress.depth cursors.old) }
{
    let mut drawing = Drawing {
        pen: pen_of(*text, reached.tip),
        command: reached.command,
        look: reached.look,
        map: *map,
    };
    let written = act(action, &mut drawing, out, reached.progress.written)?;
    *text = drawing.pen.text;
    *map = drawing.map;
    read_on(cursors, reached.progress.depth, cursor);
    Ok(after_drawing(next, written, &drawing))
}
