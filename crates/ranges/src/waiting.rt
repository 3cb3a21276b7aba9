// Which states of what is waited for are in range.
ghost use Rattle.std.specs.Prelude.{◌≡◌};
ghost use Rattle.rules.specs.Ranges.{name_fits, row_fits, waiting_fits};

use rules::{Definition, Waiting};

fn name_fits(d: Definition) -> bool
    ensures { result ≡ name_fits d }
{
    32 <= d.name && d.name <= 127
}

// A row byte that was accepted.
fn row_fits(row: u8) -> bool
    ensures { result ≡ row_fits row }
{
    64 <= row && row <= 127
}

pub(crate) fn waiting_fits(w: Waiting) -> bool
    ensures { result ≡ waiting_fits w }
{
    match w {
        Waiting::Body(d) | Waiting::BodyEscape(d) => name_fits(d),
        Waiting::Column(_, row) => row_fits(row),
        _ => true,
    }
}
