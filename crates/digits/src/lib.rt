// Numbers as text: what puts them at a place answers the place after it. The digits are put by hand: each step has an edit in
// must-fail/ that has to be refused, and std's formatting has no such steps.
#![tactic(auto)]

ghost use Rattle.std.specs.Prelude.{◌≡◌, [], ◌∷◌, ◌+◌, ◌≤◌, ◌<◌, length};
ghost use Rattle.digits.specs.Decimal.{decimal, two_digits, four_digits, signed_decimal, Put};

pub fn put_byte(text: &mut [u8], at: usize, byte: u8) -> usize
    requires { at < length text.old }
    ensures { Put at (byte ∷ []) text.old text.new result }
{
    text[at] = byte;
    at + 1
}

fn digit(n: u32) -> u8
    requires { n < 10 }
    ensures { result ≡ 48 + n }
{
    b'0' + n as u8
}

// A number below 100 in two digits.
fn put_two(text: &mut [u8], at: usize, n: u32) -> usize
    requires { (n < 100) × (at + 2 ≤ length text.old) }
    ensures { Put at (two_digits n) text.old text.new result }
{
    let to = put_byte(text, at, digit(n / 10));
    put_byte(text, to, digit(n % 10))
}

// A number below 10,000 in four digits.
fn put_four(text: &mut [u8], at: usize, n: u32) -> usize
    requires { (n < 10000) × (at + 4 ≤ length text.old) }
    ensures { Put at (four_digits n) text.old text.new result }
{
    let to = put_two(text, at, n / 100);
    put_two(text, to, n % 100)
}

// A number of at most four digits.
pub fn put_short(text: &mut [u8], at: usize, n: u32) -> usize
    requires { (n < 10000) × (at + 4 ≤ length text.old) }
    ensures { Put at (decimal n) text.old text.new result }
{
    if n < 10 {
        return put_byte(text, at, digit(n));
    }
    if n < 100 {
        return put_two(text, at, n);
    }
    if n < 1000 {
        let to = put_byte(text, at, digit(n / 100));
        return put_two(text, to, n % 100);
    }
    put_four(text, at, n)
}

// A number of at most six digits.
fn put_middle(text: &mut [u8], at: usize, n: u32) -> usize
    requires { (n < 1000000) × (at + 6 ≤ length text.old) }
    ensures { Put at (decimal n) text.old text.new result }
{
    if n < 10000 {
        return put_short(text, at, n);
    }
    let to = put_short(text, at, n / 10000);
    put_four(text, to, n % 10000)
}

pub fn put_number(text: &mut [u8], at: usize, n: u32) -> usize
    requires { at + 10 ≤ length text.old }
    ensures put { Put at (decimal n) text.old text.new result }
    ensures upper_bound { result ≤ at + 10 }
{
    if n < 10000 {
        return put_short(text, at, n);
    }
    let to = put_middle(text, at, n / 10000);
    put_four(text, to, n % 10000)
}

// A pattern in two's complement. Most are below 10, and are put at once.
pub fn put_signed(text: &mut [u8], at: usize, pattern: u32) -> usize
    requires { at + 11 ≤ length text.old }
    ensures put { Put at (signed_decimal pattern) text.old text.new result }
    ensures upper_bound { result ≤ at + 11 }
{
    if pattern < 10 {
        return put_byte(text, at, digit(pattern));
    }
    if pattern < 0x8000_0000 {
        return put_number(text, at, pattern);
    }
    let to = put_byte(text, at, b'-');
    put_number(text, to, pattern.wrapping_neg())
}
