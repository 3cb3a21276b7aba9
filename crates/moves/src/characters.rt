// Characters: which of them advance the cursor.
ghost use Rattle.std.specs.Prelude.{◌≡◌};
ghost use Rattle.rules.specs.Text.{spaces, typed};

use crate::movers::advance;
use rules::{Pen, Repertoire};

// Whether a character advances: the accents of the supplementary set do not.
#[tactic(auto, unfolding(rules::specs::Text::spaces))]
pub fn spaces(repertoire: Repertoire, code: u8) -> bool
    ensures { result ≡ spaces repertoire code }
{
    !matches!(repertoire, Repertoire::Supplementary) || code / 16 != 4
}

// The pen after a character.
#[tactic(auto, unfolding(rules::specs::Text::typed))]
pub fn typed(repertoire: Repertoire, code: u8, pen: Pen) -> Pen
    ensures { result ≡ typed repertoire code pen }
{
    if spaces(repertoire, code) {
        advance(pen)
    } else {
        pen
    }
}
