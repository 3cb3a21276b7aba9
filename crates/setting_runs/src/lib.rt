// Runs of TEXT's operands, put straight into the text that is lent.
#![tactic(auto)]

ghost use Rattle.std.specs.Prelude.{◌≡◌, true, List, ℕ, Some, None, ◌+◌, ◌≤◌, ◌<◌, length};
ghost use Rattle.rules.specs.Numbers.{room_for_step};
ghost use Rattle.rules.specs.Ranges.{domain_fits};
ghost use Rattle.rules.specs.declared.Set.{Set};
ghost use Rattle.drawing_runs.specs.Drew.{DrawsTo};
ghost use Rattle.setting_runs.specs.Settings.{operand_after, command_after, SetsTo};

use data_bytes::with_due;
use drawing_runs::{Ran, TEXT, Taken};
use operands::whole::whole_point;
use pens::tips::{Tip, catch_up};
use rules::{Command, Domain, Due, Look, NO_OPERAND, Operand, Pattern, Row, Text};
use settings::{byte_one, byte_two};

const TEXT_ROW: Row = Row {
    pattern: Pattern::Text,
    kind: 9,
    filled: false,
};

// Puts the size of the character field, if it comes whole: how many bytes it has. Else the text stays.
#[tactic(auto, using(rules::proofs::DrawingRanges::multi_range))]
fn put_size(text: &mut Text, domain: Domain, bytes: &[u8]) -> Option<usize>
    requires { domain_fits domain ≡ true }
    ensures set { (n : ℕ) → result ≡ Some n → (c : Command) (l : Look) → c.opcode ≡ 34 → c.due ≡ Due.Third → l.domain ≡ domain
        → SetsTo bytes.now 0 c l text.old n (command_after n c) text.new }
    ensures kept { result ≡ None → text.new ≡ text.old }
    ensures most { (n : ℕ) → result ≡ Some n → (1 ≤ n) × (n ≤ length bytes.now) }
{
    let n = domain.multi as usize;
    if bytes.len() < n {
        return None;
    }
    text.field = whole_point(&bytes[..n], domain.three)?;
    Some(n)
}

// Puts the operand that is due, if it comes whole: how many bytes it has. Else the text stays.
#[tactic(auto, using(crate::proofs::SettingLaws::first_set, crate::proofs::SettingLaws::second_set))]
fn put_operand(text: &mut Text, due: Due, domain: Domain, bytes: &[u8]) -> Option<usize>
    requires { domain_fits domain ≡ true }
    ensures set { (n : ℕ) → result ≡ Some n → (c : Command) (l : Look) → c.opcode ≡ 34 → c.due ≡ due → l.domain ≡ domain
        → SetsTo bytes.now 0 c l text.old n (command_after n c) text.new }
    ensures kept { result ≡ None → text.new ≡ text.old }
    ensures most { (n : ℕ) → result ≡ Some n → (1 ≤ n) × (n ≤ length bytes.now) }
{
    let byte = *bytes.first()?;
    if byte / 64 != 1 {
        return None;
    }
    match due {
        Due::First => {
            text.settings = byte_one(byte, text.settings);
            Some(1)
        }
        Due::Second => {
            text.settings = byte_two(byte, text.settings);
            Some(1)
        }
        Due::Third => put_size(text, domain, bytes),
        Due::Past => None,
    }
}

// As many operands as come whole. The command after them is left. How long an operand is, is known once it is put, so the loop
// takes what was put.
fn put_operands(text: &mut Text, mut command: Command, look: Look, bytes: &[u8]) -> Taken<Command>
    requires { (command.opcode ≡ 34) × (domain_fits look.domain ≡ true) }
    ensures set { SetsTo bytes.now 0 command look text.old result.count result.left text.new }
    ensures most { result.count ≤ length bytes.now }
{
    let mut count: usize = 0;
    while let Some(taken) = put_operand(text, command.due, look.domain, &bytes[count..]) {
        count += taken;
        command = with_due(TEXT_ROW, command);
    }
    Taken {
        count,
        left: command,
    }
}

// The operand that is begun after so many bytes, none of it if one has come. An operand keeps eight bytes.
fn operand_after(count: usize, operand: Operand) -> Operand
    ensures left { result ≡ operand_after count operand }
    ensures eight { length operand.bytes ≡ 8 }
{
    if count == 0 { operand } else { NO_OPERAND }
}

// TEXT's operands, where TEXT is open with none begun.
#[tactic(auto, using(drawing_runs::specs::Run::none))]
pub fn set_text(
    text: &mut Text,
    tip: Tip,
    command: Command,
    look: Look,
    bytes: &[u8],
    at: usize,
) -> Ran<Tip>
    requires { (tip.operand.count ≡ 0) × (domain_fits look.domain ≡ true) }
    ensures ran { (out : List ℕ) → at + room_for_step ≤ length out
        → DrawsTo Set.Pdi bytes.now 0 text.old tip command look at out result
        text.new out }
    ensures most { result.count ≤ length bytes.now }
{
    if command.opcode != TEXT {
        return Ran {
            count: 0,
            at,
            left: tip,
            command,
        };
    }
    catch_up(text, tip.behind, tip.point);
    let taken = put_operands(text, command, look, bytes);
    Ran {
        count: taken.count,
        at,
        left: Tip {
            point: tip.point,
            operand: operand_after(taken.count, tip.operand),
            behind: false,
        },
        command: taken.left,
    }
}
