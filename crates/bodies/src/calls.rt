// Calls of empty bodies.
ghost use Rattle.std.specs.Prelude.{◌≤◌, ◌↔◌, length, IsTrue};
ghost use Rattle.bodies.specs.Calls.{NamesEmpty, CallsEmpty};

use store::names::first_of;

fn names_empty(firsts: &[u8; 96], byte: u8) -> bool
    ensures { IsTrue result ↔ NamesEmpty firsts.now byte }
{
    32 <= byte && byte <= 127 && first_of(firsts, byte) == 0
}

// How many bytes name an empty body, one after the other.
pub fn empty_calls(firsts: &[u8; 96], bytes: &[u8]) -> usize
    ensures calls { CallsEmpty firsts.now bytes.now 0 result }
    ensures most { result ≤ length bytes.now }
{
    let other = bytes.iter().position(|byte| !names_empty(firsts, *byte));
    other.unwrap_or(bytes.len())
}
