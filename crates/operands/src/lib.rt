// Coordinates of 32 bits: sums that wrap, and what the bytes of an operand stand for.
#![tactic(auto)]

pub mod whole;

ghost use Rattle.std.specs.Prelude.{◌≡◌, ◌+◌, ◌*◌, ◌%◌, ◌^◌, ◌<◌, ◌≤◌, length, slice_index};
ghost use Rattle.rules.specs.Operands.{green_bits, red_bits, blue_bits, bits_of, from_top, point, address, begun, wrapped_sum, leaves_range, displaced, displaced_out};
ghost use Rattle.rules.specs.Increments.{negated};
ghost use Rattle.rules.specs.Drawing.{domain_of};
ghost use Rattle.operands.specs.Steps.{joined, with_tuple, with_tuples};

use rules::{Domain, ORIGIN, Operand, Point};

// A point displaced, and whether one of its sums left the range. No Option: the wrapped point is drawn too.
#[derive(Clone, Copy)]
pub struct Displaced {
    pub point: Point,
    pub outside: bool,
}

// The intensities of the three colours.
#[derive(Clone, Copy)]
pub struct Hue {
    pub green: u8,
    pub red: u8,
    pub blue: u8,
}

// A sum wrapped at 32 bits, and whether the sum of the signed numbers left the range.
fn add(a: u32, b: u32) -> (u32, bool)
    ensures { (result.0 ≡ wrapped_sum a b) × (result.1 ≡ leaves_range a b) }
{
    let (sum, outside) = a.cast_signed().overflowing_add(b.cast_signed());
    (sum.cast_unsigned(), outside)
}

// A number with the other sign.
pub fn negate(n: u32) -> u32
    ensures { result ≡ negated n }
{
    n.wrapping_neg()
}

pub fn displace(p: Point, d: Point) -> Displaced
    ensures { (result.point ≡ displaced p d) × (result.outside ≡ displaced_out p d) }
{
    let (x, x_outside) = add(p.x, d.x);
    let (y, y_outside) = add(p.y, d.y);
    Displaced {
        point: Point { x, y },
        outside: x_outside || y_outside,
    }
}

// Bits joined to the top of a coordinate, shifted to their place.
fn put_bits(top: u32, bits: u32, shift: usize) -> u32
    requires { shift < 32 }
    ensures { result ≡ (top + bits * 2 ^ shift) % 2 ^ 32 }
{
    top.wrapping_add(bits << shift)
}

// The point of an operand with one more byte, after i bytes.
fn gather_byte(p: Point, three: bool, i: usize, byte: u8) -> Point
    requires { i < 8 }
    ensures { result ≡ joined three i byte p }
{
    let b = byte as u32;
    if three {
        let shift = 30 - 2 * i;
        let x = put_bits(p.x, b / 16 % 4, shift);
        let y = put_bits(p.y, b / 4 % 4, shift);
        Point { x, y }
    } else {
        let shift = 29 - 3 * i;
        let x = put_bits(p.x, b / 8 % 8, shift);
        let y = put_bits(p.y, b % 8, shift);
        Point { x, y }
    }
}

fn read_point(bytes: &[u8], three: bool) -> Point
    requires { length bytes.now ≤ 8 }
    ensures { result ≡ point three bytes.now }
{
    let mut p = ORIGIN;
    for (i, byte) in bytes.iter().enumerate() {
        p = gather_byte(p, three, i, *byte);
    }
    p
}

pub fn point_of(o: Operand, three: bool) -> Point
    requires { o.count ≤ 8 }
    ensures { result ≡ point three (begun o) }
{
    read_point(&o.bytes[..o.count as usize], three)
}

// A byte of an operand, 0 where it has not come.
pub fn byte_of(o: Operand, i: usize) -> u8
    requires { i < 8 }
    ensures { result ≡ slice_index (begun o) i }
{
    if i < o.count as usize { o.bytes[i] } else { 0 }
}

pub fn address_of(o: Operand) -> u8
    ensures { result ≡ address (begun o) }
{
    byte_of(o, 0) / 4 % 16
}

// SET COLOUR, sentence by sentence as in Annex D, D.5.3.1.1.

// "Each byte contains two three-tuples.": b6 b5 b4, then b3 b2 b1.
fn gather_tuples(hue: Hue, byte: u8) -> Hue
    requires { (hue.green ≤ 63) × (hue.red ≤ 63) × (hue.blue ≤ 63) }
    ensures { result ≡ with_tuples byte hue }
{
    let hue = gather_tuple(hue, byte / 8 % 8);
    gather_tuple(hue, byte % 8)
}

// "Each three-tuple contains one bit for each of the three primary colours. These are specified in the order green, red, blue, which is
// the order of decreasing luminance.": each bit stands below those of its colour gathered before.
fn gather_tuple(hue: Hue, tuple: u8) -> Hue
    requires { (hue.green ≤ 127) × (hue.red ≤ 127) × (hue.blue ≤ 127) }
    ensures { result ≡ with_tuple tuple hue }
{
    Hue {
        green: hue.green * 2 + tuple / 4 % 2,
        red: hue.red * 2 + tuple / 2 % 2,
        blue: hue.blue * 2 + tuple % 2,
    }
}

// "A complete colour value for each primary consists of the concatenated bits, taken one from each three-tuple, starting with the
// indicated MSB and proceeding, left to right, to the indicated LSB. The colour value thereby obtained represents a binary fraction in
// which the MSB acts as the digit just to the right of the decimal point.": eight bits of it are kept, those of four bytes, and a byte
// that has not come fills with zero.
pub fn hue_of(o: Operand) -> Hue
    ensures { (result.green ≡ from_top 8 (bits_of green_bits (begun o))) × (result.red ≡ from_top 8 (bits_of red_bits (begun o)))
        × (result.blue ≡ from_top 8 (bits_of blue_bits (begun o))) }
{
    let mut hue = Hue {
        green: 0,
        red: 0,
        blue: 0,
    };
    for i in 0..4 {
        hue = gather_tuples(hue, byte_of(o, i));
    }
    hue
}

pub fn domain_of(b: u8, pel: Point) -> Domain
    ensures { result ≡ domain_of b pel }
{
    Domain {
        single: b % 4 + 1,
        multi: b / 4 % 8 + 1,
        three: b / 32 % 2 == 1,
        pel,
    }
}
