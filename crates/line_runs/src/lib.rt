// Characters on one line.
#![tactic(auto)]

ghost use Rattle.std.specs.Prelude.{◌≡◌, ◌-◌, ◌≤◌, Bool, true, false, length};
ghost use Rattle.rules.specs.Text.{spaces};
ghost use Rattle.text_lines.specs.Line.{Straight};
ghost use Rattle.line_runs.specs.Characters.{last_character, IsCharacter, Room, IsCommon, Goes, line_moved, line_text};

use drawing_runs::Taken;
use moves::characters::spaces;
use records::{Head, head_of, put_words, set_number, with_code};
use rules::{Look, ORIGIN, Point, RECORD_SIZE, Repertoire, Text};
use text::cursor::with_cursor;
use text_lines::{line_of, packed, unpacked};

// 7/15 of the primary and supplementary sets does nothing.
fn last_character(set: Repertoire) -> u8
    ensures { result ≡ last_character set }
{
    match set {
        Repertoire::Primary => 126,
        Repertoire::Supplementary => 126,
        Repertoire::Mosaic => 127,
        Repertoire::Drcs => 127,
    }
}

// What the records of a run have in common: the set and the last character of it, the head of every record and that of
// a character, and the pel.
#[derive(Clone, Copy)]
pub struct Common {
    pub set: Repertoire,
    pub last: u8,
    pub ink: Head,
    pub head: Head,
    pub pel: Point,
}

// What the records of a run of characters of a set have in common.
pub fn common_of(set: Repertoire, look: Look) -> Common
    ensures { (result.set ≡ set) × IsCommon result look }
{
    Common {
        set,
        last: last_character(set),
        ink: head_of(look, 0, 0, 0, 0),
        head: head_of(look, 6, 0, set_number(set), 0),
        pel: look.domain.pel,
    }
}

// A text that goes on alone: where the cursor was moved, the drawing point is yet to be aligned with it. The text stands in either case.
#[derive(Clone, Copy)]
pub struct Hand {
    pub moved: bool,
    pub text: Text,
}

// Whether a byte is a character of the set.
pub fn is_character(common: Common, code: u8) -> bool
    ensures { (result ≡ true → IsCharacter common code) × (result ≡ false → IsCharacter common code → ⊥) }
{
    32 <= code && code <= common.last
}

// Whether a byte is a character that advances the cursor.
fn is_spacing(common: Common, code: u8) -> bool
    ensures { result ≡ true → IsCharacter common code × (spaces common.set code ≡ true) }
{
    is_character(common, code) && spaces(common.set, code)
}

// Puts characters that stand on a line: each cursor is the last and a step. The packed cursor after them is left.
fn put_line(
    common: Common,
    text: Text,
    step: u64,
    bytes: &[u8],
    count: usize,
    end: usize,
    out: &mut [u8],
    at: usize,
) -> Taken<u64>
    requires { (count ≤ end) × (end ≤ length bytes.now) × Room at end out.old × Straight text (end - count) step }
    ensures line { (v : Bool) → Goes common bytes.now 0 at count v text out.old
        result.count (line_moved (result.count - count) v) (line_text (result.count - count) result.left text) out.new }
    ensures most { (count ≤ result.count) × (result.count ≤ end) }
{
    let mut cursor = packed(text.cursor);
    for n in count..end {
        let code = bytes[n];
        if !is_spacing(common, code) {
            return Taken {
                count: n,
                left: cursor,
            };
        }
        let place = at + RECORD_SIZE * n;
        put_words(
            out,
            place,
            with_code(common.head, code),
            unpacked(cursor),
            text.field,
            ORIGIN,
            common.pel,
        );
        cursor = cursor.wrapping_add(step);
    }
    Taken {
        count: end,
        left: cursor,
    }
}

// Puts the characters up to the end of the line that the cursor is on.
pub fn put_rest(
    common: Common,
    hand: Hand,
    bytes: &[u8],
    count: usize,
    out: &mut [u8],
    at: usize,
) -> Taken<Hand>
    requires { (count ≤ length bytes.now) × Room at (length bytes.now) out.old }
    ensures goes { Goes common bytes.now 0 at count hand.moved hand.text out.old
        result.count result.left.moved result.left.text out.new }
    ensures most { (count ≤ result.count) × (result.count ≤ length bytes.now) }
{
    let line = line_of(hand.text);
    let on_line = ((bytes.len() - count) as u64).min(line.most) as usize;
    let lined = put_line(
        common,
        hand.text,
        line.step,
        bytes,
        count,
        count + on_line,
        out,
        at,
    );
    if lined.count == count {
        return Taken { count, left: hand };
    }
    let text = with_cursor(hand.text, unpacked(lined.left));
    Taken {
        count: lined.count,
        left: Hand { moved: true, text },
    }
}
