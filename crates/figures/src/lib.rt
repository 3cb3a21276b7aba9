// The figures that operands and the end of a command draw, and how a record is put.
#![tactic(auto)]

pub mod answers;
pub mod finishing;
pub mod tracing;

use rules::Refusal;

// The one refusal of the drawing layer: a vertex past the most that a polygon has. It leaves the drawing state and the output.
#[derive(Clone, Copy, PartialEq, Eq, Debug)]
pub struct TooManyVertices;

impl From<TooManyVertices> for Refusal {
    ghost use Rattle.rules.specs.declared.Refusal.TheVariants.{TooManyVertices};
    ghost use Rattle.std.specs.Prelude.{◌≡◌};

    ghost from_gives = { λ _ refusal. refusal ≡ TooManyVertices };

    fn from(_refused: TooManyVertices) -> Refusal {
        Refusal::TooManyVertices
    }
}
