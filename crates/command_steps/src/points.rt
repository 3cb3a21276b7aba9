// Points that come whole.
ghost use Rattle.std.specs.Prelude.{◌≡◌, true, ◌≤◌, length, take, Some};
ghost use Rattle.operands.specs.Data.{whole_of};
ghost use Rattle.figures.specs.Tracing.{is_point};

use figures::tracing::is_point;
use operands::whole::whole_point;
use rules::{Point, Role};

// The point that the next bytes are, where it can be traced and its bytes have come.
pub fn point_due(role: Role, vertices: u16, n: usize, three: bool, bytes: &[u8]) -> Option<Point>
    requires { n ≤ 8 }
    ensures { (v : Point) → result ≡ Some v
        → (is_point role vertices ≡ true) × (n ≤ length bytes.now)
        × (whole_of three (take n bytes.now) ≡ Some v) }
{
    if n <= bytes.len() && is_point(role, vertices) {
        whole_point(&bytes[..n], three)
    } else {
        None
    }
}
