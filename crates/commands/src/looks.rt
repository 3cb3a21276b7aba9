// The look that a fresh session has, and NSR sets.
ghost use Rattle.std.specs.Prelude.{◌≡◌};
ghost use Rattle.rules.specs.Drawing.{colour_of, fresh_domain};

use rules::{Colour, Domain, Look, Mode, ORIGIN};

// The fresh domain, mode 0 and white, with these addresses of the map.
pub fn fresh_look(foreground: u8, background: u8) -> Look
    ensures { result ≡ record { domain = fresh_domain; colour = colour_of Mode.Direct 255 255 255 foreground background } }
{
    Look {
        domain: Domain {
            single: 1,
            multi: 3,
            three: false,
            pel: ORIGIN,
        },
        colour: Colour {
            mode: Mode::Direct,
            green: 255,
            red: 255,
            blue: 255,
            foreground,
            background,
        },
    }
}
