// Where a reading starts from a session, and what it hands over when it ends.
ghost use Rattle.std.specs.Prelude.{◌≡◌};
ghost use Rattle.pens.specs.Tips.{pen_of};
ghost use Rattle.figures.specs.Carried.{drawing_of};
ghost use Rattle.progress.specs.Progress.{start_of};
ghost use Rattle.progress.specs.Handing.{status_after, session_after, fed_of};

use crate::{Progress, Reached};
use pens::tips::{pen_of, tip_of};
use rules::{Answer, Bodies, Coding, Cursor, Drawing, Fed, Session, Status, Text};

// Where a reading starts from a session.
pub fn start(session: Session) -> Reached
    ensures { result ≡ start_of session }
{
    Reached {
        progress: Progress {
            at: 0,
            written: 0,
            sets: session.coding.sets,
            waiting: session.coding.waiting,
            steps: session.steps,
            depth: session.bodies.depth,
        },
        tip: tip_of(session.drawing.pen),
        command: session.drawing.command,
        look: session.drawing.look,
    }
}

fn status_after(answer: Answer) -> Status
    ensures { result ≡ status_after answer }
{
    match answer {
        Answer::Done | Answer::Full => Status::Running,
        Answer::Refused(refusal) => Status::Stopped(refusal),
    }
}

// What a reading that has ended hands over.
pub fn finish(
    answer: Answer,
    budget: u32,
    reached: Reached,
    text: Text,
    cursors: [Cursor; 8],
    firsts: [u8; 96],
    map: [u8; 48],
) -> Fed
    ensures { result
        ≡ fed_of answer reached.progress
        (session_after answer budget reached.progress cursors firsts
        (drawing_of (pen_of text reached.tip) reached.command reached.look map)) }
{
    let progress = reached.progress;
    let session = Session {
        budget,
        steps: progress.steps,
        status: status_after(answer),
        bodies: Bodies {
            depth: progress.depth,
            cursors,
        },
        coding: Coding {
            sets: progress.sets,
            waiting: progress.waiting,
            firsts,
        },
        drawing: Drawing {
            pen: pen_of(text, reached.tip),
            command: reached.command,
            look: reached.look,
            map,
        },
    };
    Fed {
        answer,
        consumed: progress.at,
        written: progress.written,
        session,
    }
}
