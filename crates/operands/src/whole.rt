// Operands whose bytes have all come. Those of the default domain, three bytes in two dimensions, are read as one number.
ghost use Rattle.std.specs.Prelude.{◌≡◌, ◌↔◌, ℕ, ◌+◌, ◌*◌, ◌/◌, ◌%◌, ◌≤◌, false, not, ◌&&◌, [], ◌∷◌, length, ◌==◌, slice_index, IsTrue, EachIndex};
ghost use Rattle.rules.specs.Operands.{point, all_data};
ghost use Rattle.operands.specs.Data.{whole_of, three_of, three_at};

use crate::read_point;
use rules::Point;

// Three bytes as a number, the first the lowest.
pub fn three_bytes(bytes: &[u8], at: usize) -> u64
    requires { at + 3 ≤ length bytes.now }
    ensures { result ≡ three_at bytes.now at }
{
    u64::from_le_bytes([bytes[at], bytes[at + 1], bytes[at + 2], 0, 0, 0, 0, 0])
}

// Whether each of three bytes has b8 b7 = 0 1.
pub fn are_data(w: u64) -> bool
    ensures { (b0 b1 b2 : ℕ) → b0 ≤ 255 → b1 ≤ 255 → b2 ≤ 255 → w ≡ three_of b0 b1 b2 → result ≡ all_data (b0 ∷ b1 ∷ b2 ∷ []) }
{
    w / 64 % 4 == 1 && (w / 16384 % 4 == 1 && w / 4194304 % 4 == 1)
}

// The lowest three bits of each of three bytes, at the top of a coordinate. The product has them side by side from bit 23 on.
fn gather(w: u64) -> u32
    ensures { result ≡ (w % 8 * 64 + w / 256 % 8 * 8 + w / 65536 % 8) * 8388608 }
{
    let bits = w % 8 + w / 256 % 8 * 256 + w / 65536 % 8 * 65536;
    (bits * 0x2004_0080 / 0x80_0000 % 512 * 0x80_0000) as u32
}

pub fn point_of_three(w: u64) -> Point
    ensures { (b0 b1 b2 : ℕ) → b0 ≤ 255 → b1 ≤ 255 → b2 ≤ 255 → w ≡ three_of b0 b1 b2 → result ≡ point false (b0 ∷ b1 ∷ b2 ∷ []) }
{
    Point {
        x: gather(w / 8),
        y: gather(w),
    }
}

fn whole_three(bytes: &[u8]) -> Option<Point>
    requires { length bytes.now ≡ 3 }
    ensures { result ≡ whole_of false bytes.now }
{
    let w = three_bytes(bytes, 0);
    if are_data(w) {
        Some(point_of_three(w))
    } else {
        None
    }
}

fn are_all_data(bytes: &[u8]) -> bool
    ensures { IsTrue result ↔ EachIndex bytes.now (λ k. slice_index bytes.now k / 64 ≡ 1) }
{
    bytes.iter().all(|byte| *byte / 64 == 1)
}

fn whole_long(bytes: &[u8], three: bool) -> Option<Point>
    requires { length bytes.now ≤ 8 }
    ensures { result ≡ whole_of three bytes.now }
{
    if are_all_data(bytes) {
        Some(read_point(bytes, three))
    } else {
        None
    }
}

// Whether points have three bytes in two dimensions.
pub fn has_three(n: usize, three: bool) -> bool
    ensures { result ≡ (n == 3 && not three) }
{
    n == 3 && !three
}

// The point of an operand, or none where not all its bytes are data.
pub fn whole_point(bytes: &[u8], three: bool) -> Option<Point>
    requires { length bytes.now ≤ 8 }
    ensures { result ≡ whole_of three bytes.now }
{
    if has_three(bytes.len(), three) {
        whole_three(bytes)
    } else {
        whole_long(bytes, three)
    }
}
