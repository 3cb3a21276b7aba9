// The colour map.
ghost use Rattle.rules.specs.Promises.{Shades};

use rules::{Refusal, Session};

// G, R and B of a map address.
pub fn colour(session: Session, address: u8) -> Result<[u8; 3], Refusal>
    ensures { Shades session address result }
{
    if 15 < address {
        return Err(Refusal::AddressOver15);
    }
    let map = session.drawing.map;
    let i = 3 * (address as usize);
    Ok([map[i], map[i + 1], map[i + 2]])
}
