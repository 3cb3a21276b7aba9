// Runs of characters and format effectors.
#![tactic(auto)]

ghost use Rattle.std.specs.Prelude.{◌≡◌, true, ◌+◌, ◌*◌, ◌<◌, ◌≤◌, length, get_or};
ghost use Rattle.rules.specs.Numbers.{room_for_step};
ghost use Rattle.drawing_runs.specs.Run.{RunsTo};
ghost use Rattle.line_runs.specs.Characters.{IsCharacter, Room, AtOnce, ClosesTo, pen_of, Goes, Puts, TypedOn};

use commands::closing::new_command;
use commands::opening::put_mark;
use data_bytes::resting;
use drawing_runs::{Ran, TEXT, Taken, most_steps};
use line_runs::{Common, Hand, common_of, is_character, put_rest};
use moves::characters::spaces;
use moves::movers::{advanced, format};
use records::{put_words, with_code};
use rules::{Command, Control, Look, ORIGIN, Operand, Pen, RECORD_SIZE, Repertoire, Set, Text};
use settings::closed_text;
use tables::controls::control_of;
use text::cursor::aligned;

// What a character leaves of a text.
fn typed_on(set: Repertoire, code: u8, hand: Hand) -> Hand
    ensures { TypedOn set code hand.moved hand.text result.moved result.text }
{
    if spaces(set, code) {
        let text = advanced(hand.text);
        Hand { moved: true, text }
    } else {
        hand
    }
}

// Puts one character, wherever the cursor goes.
fn put_one(
    common: Common,
    hand: Hand,
    bytes: &[u8],
    count: usize,
    out: &mut [u8],
    at: usize,
) -> Taken<Hand>
    requires { (count < length bytes.now) × (at + (40 * count + room_for_step) ≤ length out.old) }
    ensures goes { Goes common bytes.now 0 at count hand.moved hand.text out.old
        result.count result.left.moved result.left.text out.new }
    ensures most { (count ≤ result.count) × (result.count ≤ count + 1)
        × (IsCharacter common (get_or bytes.now count 0) → result.count ≡ count + 1) }
{
    let code = bytes[count];
    if !is_character(common, code) {
        return Taken { count, left: hand };
    }
    let text = hand.text;
    let place = at + RECORD_SIZE * count;
    put_words(
        out,
        place,
        with_code(common.head, code),
        text.cursor,
        text.field,
        ORIGIN,
        common.pel,
    );
    Taken {
        count: count + 1,
        left: typed_on(common.set, code, hand),
    }
}

// Puts the characters up to the end of a line, and one more: at least one.
fn put_some(
    common: Common,
    hand: Hand,
    bytes: &[u8],
    count: usize,
    out: &mut [u8],
    at: usize,
) -> Taken<Hand>
    requires { (count < length bytes.now) × Room at (length bytes.now) out.old
        × IsCharacter common (get_or bytes.now count 0) }
    ensures goes { Goes common bytes.now 0 at count hand.moved hand.text out.old
        result.count result.left.moved result.left.text out.new }
    ensures most { (count < result.count) × (result.count ≤ length bytes.now) }
{
    let rest = put_rest(common, hand, bytes, count, out, at);
    if rest.count == bytes.len() {
        return rest;
    }
    put_one(common, rest.left, bytes, rest.count, out, at)
}

// The pen with such a text.
fn pen_of(hand: Hand, pen: Pen) -> Pen
    ensures { result ≡ pen_of hand.moved hand.text pen }
{
    if hand.moved {
        aligned(hand.text, pen)
    } else {
        pen
    }
}

// Puts characters, a line at a time: their records, and the cursor moved by each.
fn put_characters(
    common: Common,
    hand: Hand,
    bytes: &[u8],
    count: usize,
    out: &mut [u8],
    at: usize,
) -> Taken<Hand>
    requires { (count ≤ length bytes.now) × Room at (length bytes.now) out.old }
    ensures goes { Goes common bytes.now 0 at count hand.moved hand.text out.old
        result.count result.left.moved result.left.text out.new }
    ensures most { (count ≤ result.count) × (result.count ≤ length bytes.now) }
{
    let mut put = Taken { count, left: hand };
    // It doesn't go on by one: a turn puts as many characters as stand on a line.
    while put.count < bytes.len() && is_character(common, bytes[put.count]) {
        put = put_some(common, put.left, bytes, put.count, out, at);
    }
    put
}

// Does what a format effector says, after its record; nothing where the byte is none.
fn put_format(
    common: Common,
    pen: Pen,
    bytes: &[u8],
    count: usize,
    out: &mut [u8],
    at: usize,
) -> Taken<Pen>
    requires { (count < length bytes.now) × (at + (40 * count + room_for_step) ≤ length out.old) }
    ensures puts { Puts common bytes.now 0 at count pen out.old result.count result.left out.new }
    ensures most { (count ≤ result.count) × (result.count ≤ count + 1) }
{
    let code = bytes[count];
    let control = control_of(code);
    if let Control::Formats(effector) = control {
        let place = at + RECORD_SIZE * count;
        put_mark(common.ink, 7, code, pen.point, common.pel, out, place);
        return Taken {
            count: count + 1,
            left: format(effector, pen),
        };
    }
    Taken { count, left: pen }
}

// Puts characters and format effectors, from a pen whose text went on alone. An operand that was begun before is still with it. Each
// turn takes as many characters as come, so no iterator counts ahead.
fn put_text(
    common: Common,
    mut hand: Hand,
    mut pen: Pen,
    bytes: &[u8],
    out: &mut [u8],
    at: usize,
) -> Taken<Pen>
    requires { Room at (length bytes.now) out.old × ((pen_of hand.moved hand.text pen).text ≡ hand.text) }
    ensures puts { Puts common bytes.now 0 at 0 (pen_of hand.moved hand.text pen) out.old
        result.count result.left out.new }
    ensures most { result.count ≤ length bytes.now }
{
    let mut count: usize = 0;
    loop {
        let put = put_characters(common, hand, bytes, count, out, at);
        pen = pen_of(put.left, pen);
        if put.count == bytes.len() {
            return Taken {
                count: put.count,
                left: pen,
            };
        }
        let formatted = put_format(common, pen, bytes, put.count, out, at);
        if formatted.count == put.count {
            return formatted;
        }
        count = formatted.count;
        pen = formatted.left;
        hand = Hand {
            moved: false,
            text: pen.text,
        };
    }
}

// Whether a command closes with no record: none is open, or TEXT is, with no operand begun.
pub fn closes_at_once(command: Command, operand: Operand) -> bool
    ensures { result ≡ true → AtOnce command operand }
{
    command.opcode == 0 || command.opcode == TEXT && operand.count == 0
}

// What closing leaves of a text: TEXT holds the cursor on the screen.
fn closed_by(command: Command, text: Text) -> Hand
    ensures { (p : Pen) → p.text ≡ text → AtOnce command p.operand
        → ((pen_of result.moved result.text p).text ≡ result.text) × ClosesTo p command (pen_of result.moved result.text p) }
{
    if command.opcode == TEXT {
        let text = closed_text(command.due, text);
        Hand { moved: true, text }
    } else {
        Hand { moved: false, text }
    }
}

// Characters and format effectors one after the other, where the open command closes at once.
pub fn run_text(
    set: Repertoire,
    pen: Pen,
    command: Command,
    look: Look,
    bytes: &[u8],
    out: &mut [u8],
    at: usize,
) -> Ran<Pen>
    requires { (AtOnce command pen.operand) × (at ≤ length out.old) }
    ensures ran { RunsTo (Set.Characters set) bytes.now 0 pen command look at
        out.old result out.new }
    ensures most { result.count ≤ length bytes.now }
{
    let most = most_steps(bytes.len(), out.len() - at);
    let common = common_of(set, look);
    let hand = closed_by(command, pen.text);
    let put = put_text(common, hand, pen, &bytes[..most], out, at);
    let count = put.count;
    if count == 0 {
        return Ran {
            count,
            at,
            left: pen,
            command,
        };
    }
    Ran {
        count,
        at: at + RECORD_SIZE * count,
        left: resting(put.left),
        command: new_command(0, ORIGIN),
    }
}
