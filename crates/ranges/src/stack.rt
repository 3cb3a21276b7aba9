// Which stacks of running bodies are in range.
ghost use Rattle.std.specs.Prelude.{◌≡◌};
ghost use Rattle.rules.specs.Ranges.{places_fit, bodies_fit};

use rules::{Bodies, Cursor, MOST_BYTES, MOST_DEPTH};

fn places_fit(cursors: &[Cursor]) -> bool
    ensures { result ≡ places_fit cursors.now }
{
    cursors.iter().all(|cursor| cursor.place <= MOST_BYTES)
}

// Cells are bytes, so each names a cell of the store.
pub(crate) fn bodies_fit(bodies: Bodies) -> bool
    ensures { result ≡ bodies_fit bodies }
{
    bodies.depth <= MOST_DEPTH && places_fit(&bodies.cursors)
}
