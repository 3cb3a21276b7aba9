// A page read from its bytes, piece by piece. The records of each call are handed on before the next is made, and after a refusal
// nothing more is read.
#![tactic(auto)]

ghost use Rattle.std.specs.Prelude.{◌≡◌, ◌≤◌, ◌<◌, length, take, replicate, IfOk, OnOk, IsOk, Ok};
ghost use Rattle.rules.specs.Numbers.{store_size, room_for_step};
ghost use Rattle.rules.specs.Reading.{steps_left};
ghost use Rattle.rules.specs.Step.{state_lent};
ghost use Rattle.rules.specs.Calls.{with_budget, open_page, end};
ghost use Rattle.reader.specs.PieceRead.{PieceRead};
ghost use Rattle.pages.specs.Pieces.{PiecesRead, AfterPiece};

pub mod error;

use error::PageError;
use reader::end::end;
use reader::feed::feed_from;
use reader::open::open;
use rules::{Answer, STORE_SIZE, Session};
use std::io;
use std::io::Read;

// A piece has at most so many bytes.
pub const PIECE_SIZE: usize = 65536;

// What follows a piece: the next piece, or the end of the page.
#[derive(Clone, Copy, PartialEq, Eq)]
pub enum Next {
    Piece,
    End,
}

// A page on its way: what its calls hand over, the piece that is read, and the output of so many bytes that each call is lent, whose
// records are handed on before the next.
#[derive(Drop)]
pub struct Page<const OUTPUT_SIZE: usize> {
    pub session: Session,
    pub store: [u8; STORE_SIZE],
    pub piece: [u8; PIECE_SIZE],
    pub out: [u8; OUTPUT_SIZE],
}

impl<const OUTPUT_SIZE: usize> Page<OUTPUT_SIZE> {
    // A page opened with the greatest budget.
    pub fn new() -> Page<OUTPUT_SIZE>
        ensures { state_lent result.session result.store ≡ (open_page (with_budget 4294967295) (replicate store_size 0)).state }
    {
        let mut store = [0u8; STORE_SIZE];
        let session = open(&mut store, u32::MAX).session;
        Page {
            session,
            store,
            piece: [0u8; PIECE_SIZE],
            out: [0u8; OUTPUT_SIZE],
        }
    }

    pub fn reopen(&mut self)
        ensures { state_lent self.new.session self.new.store ≡ (open_page (with_budget 4294967295) self.old.store).state }
    {
        self.session = open(&mut self.store, u32::MAX).session;
    }

    // Feeds the first bytes of the piece until they are read or a step is refused. It fails only where `hand_on` does. The output has room
    // for a step, since a call that is full without one would be made again for ever.
    pub fn feed<F: FnMut(&[u8]) -> io::Result<()>>(
        &mut self,
        n: usize,
        hand_on: &mut F,
    ) -> Result<Next, PageError>
        requires bytes { n ≤ length self.old.piece }
        requires room { room_for_step ≤ OUTPUT_SIZE }
        requires callable { (state : F) (records : _) → F.pre state records }
        ensures read { IfOk result (λ next. PieceRead Next.Piece Next.End (state_lent self.old.session self.old.store)
            (take n self.old.piece) next (state_lent self.new.session self.new.store)) }
        ensures told { ((state : F) (records : _) (answer : _) (left : F) → F.step state records answer left → IsOk answer) → IsOk result }
    {
        let mut at = 0;
        // It counts nothing: it goes on until a call answers other than full.
        loop {
            let fed = feed_from(
                self.session,
                &mut self.store,
                &self.piece[..n],
                at,
                &mut self.out,
            );
            self.session = fed.session;
            hand_on(&self.out[..fed.written]).map_err(PageError::Output)?;
            match fed.answer {
                Answer::Done => return Ok(Next::Piece),
                Answer::Refused(_) => return Ok(Next::End),
                Answer::Full => at += fed.consumed,
            }
        }
    }

    // Feeds a piece of the input. One that is read has bytes, so less of the budget is left, and the loop over pieces ends.
    fn read_piece<F: FnMut(&[u8]) -> io::Result<()>>(
        &mut self,
        input: &mut impl Read,
        hand_on: &mut F,
    ) -> Result<Next, PageError>
        requires room { room_for_step ≤ OUTPUT_SIZE }
        requires callable { (state : F) (records : _) → F.pre state records }
        ensures follows { IfOk result (λ next. AfterPiece (state_lent self.old.session self.old.store)
            (state_lent self.new.session self.new.store) next) }
        ensures less { result ≡ Ok Next.Piece →
            steps_left (state_lent self.new.session self.new.store) < steps_left (state_lent self.old.session self.old.store) }
    {
        let n = input.read(&mut self.piece).map_err(PageError::Input)?;
        if n == 0 {
            return Ok(Next::End);
        }
        self.feed(n, hand_on)
    }

    // Reads the input to its end or to a refusal.
    pub fn read<F: FnMut(&[u8]) -> io::Result<()>>(
        &mut self,
        input: &mut impl Read,
        hand_on: &mut F,
    ) -> Result<(), PageError>
        requires room { room_for_step ≤ OUTPUT_SIZE }
        requires callable { (state : F) (records : _) → F.pre state records }
        ensures { OnOk result (PiecesRead (state_lent self.old.session self.old.store)
            (state_lent self.new.session self.new.store)) }
    {
        // It counts nothing: it goes on until the input ends or a call refuses.
        while self.read_piece(input, hand_on)? == Next::Piece {}
        Ok(())
    }

    // Ends the page. Its last records are handed on too.
    pub fn end<F: FnMut(&[u8]) -> io::Result<()>>(
        &mut self,
        hand_on: &mut F,
    ) -> Result<Answer, PageError>
        requires { (state : F) (records : _) → F.pre state records }
        ensures answer { IfOk result (λ answer. answer ≡ (end (state_lent self.old.session self.old.store) self.old.out).answer) }
        ensures state { state_lent self.new.session self.new.store ≡ (end (state_lent self.old.session self.old.store) self.old.out).state }
    {
        let ended = end(self.session, &self.store, &mut self.out);
        self.session = ended.session;
        hand_on(&self.out[..ended.written]).map_err(PageError::Output)?;
        Ok(ended.answer)
    }
}
