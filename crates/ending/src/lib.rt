// The end of a page, once the tests of what is lent are passed.
#![tactic(auto)]

ghost use Rattle.std.specs.Prelude.{◌≡◌, List, ℕ, ◌≤◌, length, true};
ghost use Rattle.rules.specs.Numbers.{room_for_step};
ghost use Rattle.rules.specs.Drawing.{act, closed};
ghost use Rattle.rules.specs.Ranges.{drawing_fits};
ghost use Rattle.rules.specs.Calls.{handed, ended, ending};
ghost use Rattle.rules.specs.Step.{state_lent};
ghost use Rattle.rules.specs.Reading.{Valid};
ghost use Rattle.rules.specs.Promises.{ending_of};
ghost use Rattle.ending.specs.Ending.{session_with};

use bodies::bytes_left;
use commands::closing::new_command;
use drawing::act;
use rules::{Action, Answer, Ended, NO_OPERAND, ORIGIN, ROOM_FOR_STEP, Refusal, Session, Status};
use tables::escapes::unfinished;

fn rest(session: Session, answer: Answer) -> Ended
    ensures { result ≡ record { answer = answer; written = 0; session = session } }
{
    Ended {
        answer,
        written: 0,
        session,
    }
}

fn stop(session: Session, refusal: Refusal) -> Ended
    ensures { result
        ≡ record {
          answer = Answer.Refused refusal;
          written = 0;
          session = session_with (Status.Stopped refusal) session.drawing
              session;
        } }
{
    let stopped = Session {
        status: Status::Stopped(refusal),
        ..session
    };
    rest(stopped, Answer::Refused(refusal))
}

// No command is open: nothing is drawn.
fn close_none(mut session: Session) -> Ended
    ensures { result
        ≡ record
        { answer = Answer.Done; written = 0; session = session_with Status.Ended (closed session.drawing) session } }
{
    session.status = Status::Ended;
    session.drawing.pen.operand = NO_OPERAND;
    session.drawing.command = new_command(0, ORIGIN);
    rest(session, Answer::Done)
}

fn close_command(mut session: Session, out: &mut [u8]) -> Ended
    requires { (drawing_fits session.drawing ≡ true) × (room_for_step ≤ length out.old) }
    ensures { (st : List ℕ)
        → ending_of result st out.new
        ≡ handed (ended (act Action.Close session.drawing) (state_lent session st)) out.old }
{
    match act(Action::Close, &mut session.drawing, out, 0) {
        Ok(written) => {
            session.status = Status::Ended;
            Ended {
                answer: Answer::Done,
                written,
                session,
            }
        }
        Err(refused) => stop(session, Refusal::from(refused)),
    }
}

// Ends the page of a session that passes the tests: 11, 10, full, then the open command is closed.
pub fn end_running(session: Session, store: &[u8], out: &mut [u8]) -> Ended
    requires { Valid (state_lent session store.now) }
    ensures { ending_of result store.now out.new
        ≡ handed (ending (length out.old) (state_lent session store.now)) out.old }
{
    if bytes_left(store, &session.bodies.cursors, session.bodies.depth) {
        return rest(session, Answer::Refused(Refusal::BodyBytesLeft));
    }
    if unfinished(session.coding.waiting) {
        return stop(session, Refusal::EndInside);
    }
    if session.drawing.command.opcode == 0 {
        return close_none(session);
    }
    if out.len() < ROOM_FOR_STEP {
        return rest(session, Answer::Full);
    }
    close_command(session, out)
}
