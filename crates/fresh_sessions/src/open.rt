ghost use Rattle.std.specs.Prelude.{◌≡◌};
ghost use Rattle.rules.specs.Drawing.{fresh_drawing};
ghost use Rattle.rules.specs.Calls.{with_budget, fresh_session};
ghost use Rattle.rules.specs.Promises.{Opens};

use commands::closing::new_command;
use commands::looks::fresh_look;
use rules::{
    Answer, Bodies, Coding, Drawing, NO_OPERAND, NOWHERE, ORIGIN, Opened, Pen, Refusal, STORE_SIZE,
    Session, Status, Waiting,
};
use settings::fresh_text;
use store::opening::initialise;
use tables::sets::fresh_sets;

fn fresh_drawing() -> Drawing
    ensures { result ≡ fresh_drawing }
{
    Drawing {
        pen: Pen {
            point: ORIGIN,
            text: fresh_text(),
            operand: NO_OPERAND,
        },
        command: new_command(0, ORIGIN),
        look: fresh_look(0, 0),
        map: [0; 48],
    }
}

fn fresh_session(status: Status, budget: u32) -> Session
    ensures { result ≡ fresh_session status (with_budget budget) }
{
    Session {
        budget,
        steps: 0,
        status,
        bodies: Bodies {
            depth: 0,
            cursors: [NOWHERE; 8],
        },
        coding: Coding {
            sets: fresh_sets(),
            waiting: Waiting::Nothing,
            firsts: [0; 96],
        },
        drawing: fresh_drawing(),
    }
}

// Opens a page with a budget of steps. A store of another size is left as it is, and the session is stopped.
pub fn open(store: &mut [u8], budget: u32) -> Opened
    ensures { Opens (with_budget budget) store.old result store.new }
{
    if store.len() != STORE_SIZE {
        let refusal = Refusal::StoreSize;
        let session = fresh_session(Status::Stopped(refusal), budget);
        return Opened {
            answer: Answer::Refused(refusal),
            session,
        };
    }
    initialise(store);
    let session = fresh_session(Status::Running, budget);
    Opened {
        answer: Answer::Done,
        session,
    }
}
