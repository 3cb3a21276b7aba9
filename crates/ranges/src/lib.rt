// The tests that come before a feed or an end: 12, then 14, stopped, 13.
#![tactic(auto)]

pub mod drawing_state;
pub mod stack;
pub mod waiting;

ghost use Rattle.std.specs.Prelude.{◌≡◌, true, eqb};
ghost use Rattle.rules.specs.Numbers.{store_size};
ghost use Rattle.rules.specs.Ranges.{fits};
ghost use Rattle.rules.specs.Reading.{verdict};

use crate::drawing_state::drawing_fits;
use crate::stack::bodies_fit;
use crate::waiting::waiting_fits;
use rules::{Refusal, STORE_SIZE, Session, Status};

fn fits(session: Session) -> bool
    ensures { result ≡ fits session }
{
    bodies_fit(session.bodies)
        && (waiting_fits(session.coding.waiting) && drawing_fits(session.drawing))
}

// 12: the size of the store.
fn of_size(size: usize) -> Result<(), Refusal>
    ensures { result ≡ verdict (eqb size store_size) Status.Running true }
{
    if size != STORE_SIZE {
        return Err(Refusal::StoreSize);
    }
    Ok(())
}

// 14, or what stopped the session.
fn of_status(status: Status) -> Result<(), Refusal>
    ensures { result ≡ verdict true status true }
{
    match status {
        Status::Running => Ok(()),
        Status::Ended => Err(Refusal::AfterEnd),
        Status::Stopped(refusal) => Err(refusal),
    }
}

// 13: the fields of the session.
fn of_ranges(session: Session) -> Result<(), Refusal>
    ensures { result ≡ verdict true Status.Running (fits session) }
{
    if fits(session) {
        return Ok(());
    }
    Err(Refusal::OutOfRange)
}

pub fn verdict(session: Session, size: usize) -> Result<(), Refusal>
    ensures { result ≡ verdict (eqb size store_size) session.status (fits session) }
{
    of_size(size)?;
    of_status(session.status)?;
    of_ranges(session)
}
