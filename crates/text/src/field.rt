// The character field: its box by the rotation, and the spacing in quarters of it.
ghost use Rattle.std.specs.Prelude.{◌≡◌};
ghost use Rattle.rules.specs.Text.{turned_box, box_of, spacing_quarters, interrow_quarters};

use crate::axis::magnitude;
use rules::{FieldBox, Interrow, Point, Reach, Rotation, Spacing, Text};

// How far a field of a width and a height reaches, turned about its origin.
#[tactic(auto, unfolding(rules::specs::Text::turned_box))]
fn turned_box(rotation: Rotation, width: u32, height: u32) -> FieldBox
    ensures { result ≡ turned_box rotation width height }
{
    match rotation {
        Rotation::Degrees0 => FieldBox {
            x: Reach {
                before: 0,
                after: width,
            },
            y: Reach {
                before: 0,
                after: height,
            },
        },
        Rotation::Degrees90 => FieldBox {
            x: Reach {
                before: height,
                after: 0,
            },
            y: Reach {
                before: 0,
                after: width,
            },
        },
        Rotation::Degrees180 => FieldBox {
            x: Reach {
                before: width,
                after: 0,
            },
            y: Reach {
                before: height,
                after: 0,
            },
        },
        Rotation::Degrees270 => FieldBox {
            x: Reach {
                before: 0,
                after: height,
            },
            y: Reach {
                before: width,
                after: 0,
            },
        },
    }
}

#[tactic(auto, unfolding(rules::specs::Text::box_of))]
fn box_of(rotation: Rotation, field: Point) -> FieldBox
    ensures { result ≡ box_of rotation field }
{
    turned_box(rotation, magnitude(field.x), magnitude(field.y))
}

// Two tables of their own: spacing and rows have other names and other quarters.
// The intercharacter spacing in quarters of the field; proportional counts as 1.
#[tactic(auto, unfolding(rules::specs::Text::spacing_quarters))]
pub fn spacing_quarters(s: Spacing) -> u8
    ensures { result ≡ spacing_quarters s }
{
    match s {
        Spacing::One | Spacing::Proportional => 4,
        Spacing::FiveFourths => 5,
        Spacing::ThreeHalves => 6,
    }
}

// The interrow spacing in quarters of the field.
#[tactic(auto, unfolding(rules::specs::Text::interrow_quarters))]
pub fn interrow_quarters(s: Interrow) -> u8
    ensures { result ≡ interrow_quarters s }
{
    match s {
        Interrow::OneRow => 4,
        Interrow::FiveFourthsRow => 5,
        Interrow::ThreeHalvesRow => 6,
        Interrow::TwoRows => 8,
    }
}

pub fn field_box(text: Text) -> FieldBox
    ensures { result ≡ box_of text.settings.rotation text.field }
{
    box_of(text.settings.rotation, text.field)
}
