// A reading of a piece, turn by turn and run by run, as far as the output has room.
#![tactic(auto)]

ghost use Rattle.std.specs.Prelude.{◌≡◌, ◌-◌, length};
ghost use Rattle.rules.specs.Reading.{Room, reading, Valid};
ghost use Rattle.rules.specs.Calls.{handed};
ghost use Rattle.rules.specs.Step.{state_lent};
ghost use Rattle.rules.specs.Promises.{handed_of};

use figures::TooManyVertices;
use progress::Reached;
use progress::handing::{finish, start};
use rules::{Answer, Fed, Refusal, Session};
use steps::{Course, draw};
use turn_runs::run::run;
use turns::turn;

// The turns of a reading, until one ends it. Before each turn a run takes as many bytes at once as it can. Whatever is half read, an
// operand, a sequence or a body, lies in the session, so that the next call goes on.
pub fn read(session: Session, store: &mut [u8], piece: &[u8], out: &mut [u8]) -> Fed
    requires { Valid (state_lent session store.old) }
    ensures { handed_of result store.new out.new
        ≡ handed
        (reading (Room (length out.old)) (session.budget - session.steps)
        (state_lent session store.old) piece.now)
        out.old }
{
    let budget = session.budget;
    let mut cursors = session.bodies.cursors;
    let mut firsts = session.coding.firsts;
    let mut map = session.drawing.map;
    let mut text = session.drawing.pen.text;
    let mut reached = start(session);
    // It counts nothing: it goes on until a turn ends it.
    let answer = loop {
        let taken = reached.progress.steps;
        reached = run(
            reached,
            budget,
            &mut text,
            &mut cursors,
            &mut firsts,
            store,
            piece,
            out,
        );
        let progress = reached.progress;
        if taken < progress.steps {
            continue;
        }
        let free = out.len() - progress.written;
        let turned = turn(
            progress,
            budget,
            free,
            &mut cursors,
            &mut firsts,
            store,
            piece,
        );
        match turned.course {
            Course::Ends(answer) => break answer,
            Course::GoesOn => {
                reached = Reached {
                    progress: turned.progress,
                    ..reached
                };
            }
            Course::Draws(action, cursor) => {
                let drawn = draw(
                    action,
                    turned.progress,
                    cursor,
                    reached,
                    &mut text,
                    &mut cursors,
                    &mut map,
                    out,
                );
                match drawn {
                    Ok(next) => reached = next,
                    Err(TooManyVertices) => break Answer::Refused(Refusal::TooManyVertices),
                }
            }
        }
    };
    finish(answer, budget, reached, text, cursors, firsts, map)
}
