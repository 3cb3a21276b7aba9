// SELECT COLOUR and SET COLOUR.
ghost use Rattle.std.specs.Prelude.{◌≡◌, ◌+◌, ◌≤◌, length, Ok};
ghost use Rattle.rules.specs.Numbers.{record_size};
ghost use Rattle.rules.specs.Drawing.{with_foreground, with_background, map_at, shade_map, shade_to};
ghost use Rattle.figures.specs.Carried.{carry_out, carried_of};

use figures::answers::put_one;
use operands::Hue;
use records::figure;
use rules::{Colour, Drawing, Mode, ORIGIN, Point};

// Each of these two sets an address and a mode of its own.
pub(crate) fn set_foreground(colour: &mut Colour, address: u8)
    ensures { colour.new ≡ with_foreground address colour.old }
{
    colour.mode = Mode::Mapped;
    colour.foreground = address;
}

pub(crate) fn set_background(colour: &mut Colour, address: u8)
    ensures { colour.new ≡ with_background address colour.old }
{
    colour.mode = Mode::TwoColour;
    colour.background = address;
}

fn put_hue(map: &mut [u8; 48], address: u8, hue: Hue)
    requires { address ≤ 15 }
    ensures { map.new ≡ map_at address hue.green hue.red hue.blue map.old }
{
    let i = 3 * (address as usize);
    map[i] = hue.green;
    map[i + 1] = hue.red;
    map[i + 2] = hue.blue;
}

// Modes 1 and 2: the map at the foreground, and its record.
fn shade_map(hue: Hue, drawing: &mut Drawing, out: &mut [u8], at: usize) -> usize
    requires { (drawing.old.look.colour.foreground ≤ 15) × (at + record_size ≤ length out.old) }
    ensures { carried_of (Ok result) at drawing.new out.new
        ≡ carry_out (shade_map hue.green hue.red hue.blue) drawing.old at out.old }
{
    put_hue(&mut drawing.map, drawing.look.colour.foreground, hue);
    let p0 = Point {
        x: hue.green as u32,
        y: hue.red as u32,
    };
    let p1 = Point {
        x: hue.blue as u32,
        y: 0,
    };
    put_one(figure(drawing.look, 8, 0, p0, p1, ORIGIN), out, at)
}

// SET COLOUR: mode 0 sets the colour itself, modes 1 and 2 write the map.
#[tactic(auto, unfolding(rules::specs::Drawing::shade_to))]
pub(crate) fn set_shade(hue: Hue, drawing: &mut Drawing, out: &mut [u8], at: usize) -> usize
    requires { (drawing.old.look.colour.foreground ≤ 15) × (at + record_size ≤ length out.old) }
    ensures { carried_of (Ok result) at drawing.new out.new
        ≡ carry_out (shade_to drawing.old.look.colour.mode hue.green hue.red hue.blue) drawing.old at
        out.old }
{
    match drawing.look.colour.mode {
        Mode::Direct => {
            drawing.look.colour.green = hue.green;
            drawing.look.colour.red = hue.red;
            drawing.look.colour.blue = hue.blue;
            at
        }
        Mode::Mapped | Mode::TwoColour => shade_map(hue, drawing, out, at),
    }
}
