// Feed: the tests of what is lent, then a reading of the piece.
ghost use Rattle.rules.specs.Calls.{unread};
ghost use Rattle.rules.specs.Step.{state_lent};
ghost use Rattle.rules.specs.Promises.{Feeds};

use queries::unread::unread_from;
use ranges::verdict;
use reading::read;
use rules::{Answer, Fed, Session};

// Reads a piece as far as the output has room: consumed counts its bytes read, written those of the records. A piece that is not
// read whole is lent again from there on, with the session that is handed back.
pub fn feed(session: Session, store: &mut [u8], piece: &[u8], out: &mut [u8]) -> Fed
    ensures { Feeds (state_lent session store.old) piece.now out.old result
        store.new out.new }
{
    match verdict(session, store.len()) {
        Err(refusal) => Fed {
            answer: Answer::Refused(refusal),
            consumed: 0,
            written: 0,
            session,
        },
        Ok(()) => read(session, store, piece, out),
    }
}

// Feeds a piece from its consumed position on: what the calls before it left unread.
pub fn feed_from(
    session: Session,
    store: &mut [u8],
    piece: &[u8],
    consumed: usize,
    out: &mut [u8],
) -> Fed
    ensures { Feeds (state_lent session store.old) (unread piece.now consumed) out.old result
        store.new out.new }
{
    let from = unread_from(piece, consumed);
    feed(session, store, &piece[from..], out)
}
