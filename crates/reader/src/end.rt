// End: the tests of what is lent, then the end of the page.
ghost use Rattle.rules.specs.Step.{state_lent};
ghost use Rattle.rules.specs.Promises.{Ends};

use ending::end_running;
use ranges::verdict;
use rules::{Answer, Ended, Session};

// Ends a page: closes the open command and hands its last records over.
pub fn end(session: Session, store: &[u8], out: &mut [u8]) -> Ended
    ensures { Ends (state_lent session store.now) out.old result out.new }
{
    match verdict(session, store.len()) {
        Err(refusal) => Ended {
            answer: Answer::Refused(refusal),
            written: 0,
            session,
        },
        Ok(()) => end_running(session, store, out),
    }
}
