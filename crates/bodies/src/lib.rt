// The stack of running macro bodies, outermost first: the cursors are lent beside the depth, which a reading counts by itself.
#![tactic(auto)]

pub mod calls;

ghost use Rattle.std.specs.Prelude.{◌≡◌, ◌-◌, ◌≤◌};
ghost use Rattle.rules.specs.Bodies.{body_at, depth_left, bytes_left, read_body};
ghost use Rattle.store.specs.Lent.{Sized};
ghost use Rattle.bodies.specs.Stack.{bodies_of, DepthAfter};

use rules::{Action, Cursor};
use store::cursors::{has_left, read_body};

// The depth after the bodies that have no bytes left are removed from the innermost on.
pub fn depth_left(store: &[u8], cursors: &[Cursor; 8], depth: u8) -> u8
    requires { (Sized store.now) × (depth ≤ 8) }
    ensures rule { result ≡ depth_left store.now (bodies_of depth cursors.now) depth }
    ensures most { result ≤ depth }
{
    for index in (0..depth).rev() {
        if has_left(store, cursors[index as usize]) {
            return index + 1;
        }
    }
    0
}

pub fn bytes_left(store: &[u8], cursors: &[Cursor; 8], depth: u8) -> bool
    requires { (Sized store.now) × (depth ≤ 8) }
    ensures { result ≡ bytes_left store.now (bodies_of depth cursors.now) }
{
    depth_left(store, cursors, depth) != 0
}

// The next byte of the innermost body, which has bytes left, and where the body is read next; none where a cell has a bad count.
pub fn innermost(store: &[u8], cursors: &[Cursor; 8], depth: u8) -> Option<(u8, Cursor)>
    requires { (Sized store.now) × (1 ≤ depth) × (depth ≤ 8) }
    ensures { result ≡ read_body store.now (body_at (bodies_of depth cursors.now) (depth - 1)) }
{
    read_body(store, cursors[(depth - 1) as usize])
}

// The depth after an action, which keeps the bodies or leaves them all.
pub fn depth_after(action: Action, depth: u8) -> u8
    ensures { DepthAfter action depth result }
{
    match action {
        Action::Cancel(_) => 0,
        _ => depth,
    }
}
