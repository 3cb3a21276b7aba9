// A page read in pieces of any lengths, into buffers of any sizes: demand 3 as the contract of functions that make the calls.
#![tactic(auto)]

ghost use Rattle.std.specs.Prelude.{◌≡◌, ◌≤◌, length};
ghost use Rattle.rules.specs.Numbers.{store_size};
ghost use Rattle.rules.specs.declared.Answer.TheVariants.{Done};
ghost use Rattle.rules.specs.Calls.{with_budget};
ghost use Rattle.rules.specs.Expansion.{expansion};
ghost use Rattle.rules.specs.Step.{state_lent};
ghost use Rattle.rules.specs.Promises.{handed_of};
ghost use Rattle.demands.specs.Cuts.{lent_of, fed_more, fed_cuts, Undivided};
ghost use Rattle.demands.specs.Pictures.{end_more, end_done, drawn_cuts, Draws, DrawnAlike};

use reader::end::end;
use reader::feed::feed_from;
use reader::open::open;
use rules::{Answer, Fed, Session};

// What calls on a page came to, and calls on another.
#[derive(Clone, Copy)]
pub struct Both {
    pub page: Fed,
    pub other: Fed,
}

// One call more: lent what is unread of the page's first `lent` bytes, and the output from what is written to `edge`.
fn feed_more(
    before: Fed,
    store: &mut [u8],
    page: &[u8],
    lent: usize,
    out: &mut [u8],
    edge: usize,
) -> Fed
    requires consumed_le_lent { (before.consumed ≤ lent) × (lent ≤ length page.now) }
    requires written_le_edge { (before.written ≤ edge) × (edge ≤ length out.old) }
    ensures { handed_of result store.new out.new
        ≡ fed_more (handed_of before store.old out.old) page.now lent edge }
{
    let fed = feed_from(
        before.session,
        store,
        &page[..lent],
        before.consumed,
        &mut out[before.written..edge],
    );
    Fed {
        answer: fed.answer,
        consumed: before.consumed + fed.consumed,
        written: before.written + fed.written,
        session: fed.session,
    }
}

// Call i is lent what the calls before left unread and lengths[i] further bytes of the page, and the next rooms[i] bytes of
// the output, each as far as there are so many. Without lengths there is one call, which is lent nothing.
pub fn feed_cuts(
    session: Session,
    store: &mut [u8],
    page: &[u8],
    lengths: &[usize],
    rooms: &[usize],
    out: &mut [u8],
) -> Fed
    ensures out_after { handed_of result store.new out.new
        ≡ fed_cuts (state_lent session store.old) page.now lengths.now rooms.now out.old }
    ensures undivided { Undivided (state_lent session store.old) (lent_of page.now lengths.now)
        out.old (handed_of result store.new out.new) }
{
    let mut lent: usize = 0;
    let mut fed = Fed {
        answer: Answer::Done,
        consumed: 0,
        written: 0,
        session,
    };
    for i in 0..lengths.len().max(1) {
        let further = lengths.get(i).copied().unwrap_or(0);
        lent = lent.saturating_add(further).min(page.len());
        let room = rooms.get(i).copied().unwrap_or(0);
        let edge = fed.written.saturating_add(room).min(out.len());
        fed = feed_more(fed, store, page, lent, out, edge);
    }
    fed
}

// An end after the calls, into the rest of the output.
fn end_more(before: Fed, store: &[u8], out: &mut [u8]) -> Fed
    requires { before.written ≤ length out.old }
    ensures { handed_of result store.now out.new
        ≡ end_more (handed_of before store.now out.old) }
{
    let ended = end(before.session, store, &mut out[before.written..]);
    Fed {
        answer: ended.answer,
        written: before.written + ended.written,
        session: ended.session,
        ..before
    }
}

// An end where the calls read all they were lent; else what they came to.
fn end_done(before: Fed, store: &[u8], out: &mut [u8]) -> Fed
    requires { before.written ≤ length out.old }
    ensures { handed_of result store.now out.new
        ≡ end_done (handed_of before store.now out.old) }
{
    match before.answer {
        Answer::Done => end_more(before, store, out),
        Answer::Full => before,
        Answer::Refused(_) => before,
    }
}

// A page opened, read by calls as `feed_cuts` makes them, and ended where they read it all.
pub fn draw_cuts(
    budget: u32,
    store: &mut [u8],
    page: &[u8],
    lengths: &[usize],
    rooms: &[usize],
    out: &mut [u8],
) -> Fed
    ensures out_after { handed_of result store.new out.new
        ≡ drawn_cuts (with_budget budget) store.old page.now lengths.now rooms.now out.old }
    ensures draws { Draws (with_budget budget) store.old (lent_of page.now lengths.now)
        out.old (handed_of result store.new out.new) }
{
    let opened = open(store, budget);
    let fed = feed_cuts(opened.session, store, page, lengths, rooms, out);
    end_done(fed, store, out)
}

// Two pages drawn with the same budget, each with cuts and buffers of its own. Where the other is the expansion of a page whose
// calls all answered done, none of its calls is refused, and both pages are drawn alike.
pub fn draw_both(
    budget: u32,
    store: &mut [u8],
    page: &[u8],
    lengths: &[usize],
    rooms: &[usize],
    out: &mut [u8],
    other_store: &mut [u8],
    other: &[u8],
    other_lengths: &[usize],
    other_rooms: &[usize],
    other_out: &mut [u8],
) -> Both
    ensures out_after { handed_of result.page store.new out.new
        ≡ drawn_cuts (with_budget budget) store.old page.now lengths.now rooms.now out.old }
    ensures other_out_after { handed_of result.other other_store.new other_out.new
        ≡ drawn_cuts (with_budget budget) other_store.old other.now other_lengths.now
        other_rooms.now other_out.old }
    ensures drawn_alike { result.page.answer ≡ Done → length other_store.old ≡ store_size
        → lent_of other.now other_lengths.now ≡ expansion (with_budget budget) (lent_of page.now lengths.now)
        → DrawnAlike (with_budget budget) (lent_of page.now lengths.now)
        (handed_of result.page store.new out.new)
        (handed_of result.other other_store.new other_out.new) }
{
    let page = draw_cuts(budget, store, page, lengths, rooms, out);
    let other = draw_cuts(
        budget,
        other_store,
        other,
        other_lengths,
        other_rooms,
        other_out,
    );
    Both { page, other }
}
