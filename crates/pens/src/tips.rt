// A pen apart from its text. Following is absolute, so that it can wait until the text is looked at.
ghost use Rattle.std.specs.Prelude.{◌≡◌};
ghost use Rattle.pens.specs.Tips.{caught_up, pen_of, tip_of};

use rules::{Operand, Pen, Point, Text};
use text::cursor::{cursor_follows, follow};

// The drawing point and the operand that is begun; behind says that the cursor has yet to follow the point.
#[derive(Clone, Copy)]
pub struct Tip {
    pub point: Point,
    pub operand: Operand,
    pub behind: bool,
}

// The tip of a pen whose cursor is not behind.
pub fn tip_of(pen: Pen) -> Tip
    ensures { result ≡ tip_of pen }
{
    Tip {
        point: pen.point,
        operand: pen.operand,
        behind: false,
    }
}

// The pen of a text, its cursor no longer behind.
pub fn pen_of(text: Text, tip: Tip) -> Pen
    ensures { result ≡ pen_of text tip }
{
    let pen = Pen {
        point: tip.point,
        text,
        operand: tip.operand,
    };
    if tip.behind {
        follow(pen, tip.point)
    } else {
        pen
    }
}

// The cursor follows the point, where it is behind.
pub fn catch_up(text: &mut Text, behind: bool, point: Point)
    ensures { text.new ≡ caught_up behind point text.old }
{
    if behind {
        cursor_follows(text, point);
    }
}
