// The opcodes: what each one draws, and what its operands are for.
#![tactic(auto)]

ghost use Rattle.std.specs.Prelude.{◌≡◌, ◌-◌};
ghost use Rattle.rules.specs.Drawing.{rows, row_of, nth, role_of, due_after, length_of};

use rules::{Domain, Due, Pattern, Role, Row};

// The row of an opcode that is skipped.
const OTHER: Row = Row {
    pattern: Pattern::Skipped,
    kind: 9,
    filled: false,
};

// The rows are literal, since a constant calls no function.
const ROWS: [Row; 32] = [
    // 2/0 RESET
    OTHER,
    // 2/1 DOMAIN
    Row {
        pattern: Pattern::Domain,
        kind: 0,
        filled: false,
    },
    // 2/2 TEXT
    Row {
        pattern: Pattern::Text,
        kind: 9,
        filled: false,
    },
    // 2/3 TEXTURE
    OTHER,
    // 2/4 POINT SET, absolute
    Row {
        pattern: Pattern::A,
        kind: 0,
        filled: false,
    },
    // 2/5 POINT SET, relative
    Row {
        pattern: Pattern::D,
        kind: 0,
        filled: false,
    },
    // 2/6 POINT, absolute
    Row {
        pattern: Pattern::A,
        kind: 1,
        filled: false,
    },
    // 2/7 POINT, relative
    Row {
        pattern: Pattern::D,
        kind: 1,
        filled: false,
    },
    // 2/8 LINE, absolute
    Row {
        pattern: Pattern::A,
        kind: 2,
        filled: false,
    },
    // 2/9 LINE, relative
    Row {
        pattern: Pattern::D,
        kind: 2,
        filled: false,
    },
    // 2/10 SET AND LINE, absolute
    Row {
        pattern: Pattern::AA,
        kind: 2,
        filled: false,
    },
    // 2/11 SET AND LINE, relative
    Row {
        pattern: Pattern::AD,
        kind: 2,
        filled: false,
    },
    // 2/12 ARC, outlined
    Row {
        pattern: Pattern::ArcDD,
        kind: 3,
        filled: false,
    },
    // 2/13 ARC, filled
    Row {
        pattern: Pattern::ArcDD,
        kind: 3,
        filled: true,
    },
    // 2/14 SET AND ARC, outlined
    Row {
        pattern: Pattern::ArcADD,
        kind: 3,
        filled: false,
    },
    // 2/15 SET AND ARC, filled
    Row {
        pattern: Pattern::ArcADD,
        kind: 3,
        filled: true,
    },
    // 3/0 RECTANGLE, outlined
    Row {
        pattern: Pattern::D,
        kind: 4,
        filled: false,
    },
    // 3/1 RECTANGLE, filled
    Row {
        pattern: Pattern::D,
        kind: 4,
        filled: true,
    },
    // 3/2 SET AND RECTANGLE, outlined
    Row {
        pattern: Pattern::AD,
        kind: 4,
        filled: false,
    },
    // 3/3 SET AND RECTANGLE, filled
    Row {
        pattern: Pattern::AD,
        kind: 4,
        filled: true,
    },
    // 3/4 POLYGON, outlined
    Row {
        pattern: Pattern::PolygonD,
        kind: 5,
        filled: false,
    },
    // 3/5 POLYGON, filled
    Row {
        pattern: Pattern::PolygonD,
        kind: 5,
        filled: true,
    },
    // 3/6 SET AND POLYGON, outlined
    Row {
        pattern: Pattern::PolygonAD,
        kind: 5,
        filled: false,
    },
    // 3/7 SET AND POLYGON, filled
    Row {
        pattern: Pattern::PolygonAD,
        kind: 5,
        filled: true,
    },
    // 3/8 FIELD
    OTHER,
    // 3/9 INCREMENTAL POINT
    OTHER,
    // 3/10 INCREMENTAL LINE
    OTHER,
    // 3/11 INCREMENTAL POLYGON, filled
    OTHER,
    // 3/12 SET COLOUR
    Row {
        pattern: Pattern::SetColour,
        kind: 8,
        filled: false,
    },
    // 3/13 WAIT
    OTHER,
    // 3/14 SELECT COLOUR
    Row {
        pattern: Pattern::SelectColour,
        kind: 0,
        filled: false,
    },
    // 3/15 BLINK
    OTHER,
];

// Row for row, the table is that of the rules.
#[tactic(auto, unfolding(rules::specs::Drawing::rows))]
pub fn rows() -> [Row; 32]
    ensures { result ≡ rows }
{
    ROWS
}

// Where the row of an opcode stands in the table. A control opens none: data after it is dropped as after 2/0, whose row is the first.
pub fn row_place(opcode: u8) -> usize
    ensures { result ≡ opcode - 32 }
{
    usize::from(opcode.saturating_sub(32))
}

// The row of the open command. Opcode 0, none open, has the row of a skipped one.
#[tactic(auto, unfolding(rules::specs::Drawing::row_of, rules::specs::Drawing::rows))]
pub fn row_of(opcode: u8) -> Row
    ensures { result ≡ row_of opcode }
{
    match opcode {
        32..=63 => rows()[(opcode - 32) as usize],
        _ => OTHER,
    }
}

// The one of four things that stands for the operand that is due.
fn nth<T: Copy>(n: Due, first: T, second: T, third: T, past: T) -> T
    ensures { result ≡ nth n first second third past }
{
    match n {
        Due::First => first,
        Due::Second => second,
        Due::Third => third,
        Due::Past => past,
    }
}

// What the operands of a pattern are for, in their order; the last role is that of all past the third.
#[tactic(auto, unfolding(rules::specs::Drawing::role_of))]
fn roles_of(p: Pattern) -> (Role, Role, Role, Role)
    ensures { result ≡ (role_of p Due.First, role_of p Due.Second, role_of p Due.Third, role_of p Due.Past) }
{
    match p {
        Pattern::A => then_all(Role::DrawTo, Role::DrawTo),
        Pattern::D => then_all(Role::DrawBy, Role::DrawBy),
        Pattern::AA => then_all(Role::MoveTo, Role::DrawTo),
        Pattern::AD => then_all(Role::MoveTo, Role::DrawBy),
        Pattern::ArcDD => (Role::Middle, Role::ArcEnd, Role::Dropped, Role::Dropped),
        Pattern::ArcADD => (Role::MoveTo, Role::Middle, Role::ArcEnd, Role::Dropped),
        Pattern::PolygonD => then_all(Role::Edge, Role::Edge),
        Pattern::PolygonAD => then_all(Role::Start, Role::Edge),
        Pattern::IncrementalLine => (
            Role::StepSize,
            Role::LineCodes,
            Role::LineCodes,
            Role::Dropped,
        ),
        Pattern::IncrementalPolygon => (
            Role::StepSize,
            Role::PolygonCodes,
            Role::PolygonCodes,
            Role::Dropped,
        ),
        Pattern::Domain => (Role::Lengths, Role::Pel, Role::Dropped, Role::Dropped),
        Pattern::Text => (
            Role::TextFirst,
            Role::TextSecond,
            Role::TextField,
            Role::TextMore,
        ),
        Pattern::SelectColour => (
            Role::Foreground,
            Role::Background,
            Role::Dropped,
            Role::Dropped,
        ),
        Pattern::SetColour => then_all(Role::Shade, Role::Dropped),
        Pattern::Skipped => then_all(Role::Dropped, Role::Dropped),
    }
}

// The first operand, and all others alike.
fn then_all(first: Role, later: Role) -> (Role, Role, Role, Role)
    ensures { result ≡ (first, later, later, later) }
{
    (first, later, later, later)
}

// The role of the operand that is due. All four are looked up at once, which makes of both matches one lookup each.
pub fn role_of(p: Pattern, n: Due) -> Role
    ensures { result ≡ role_of p n }
{
    let (first, second, third, past) = roles_of(p);
    nth(n, first, second, third, past)
}

// The operand that is due next. Patterns of points repeat.
#[tactic(auto, unfolding(rules::specs::Drawing::due_after))]
pub fn due_after(p: Pattern, n: Due) -> Due
    ensures { result ≡ due_after p n }
{
    match p {
        Pattern::A | Pattern::D => Due::First,
        Pattern::AA | Pattern::AD => nth(n, Due::Second, Due::First, Due::First, Due::First),
        _ => nth(n, Due::Second, Due::Third, Due::Past, Due::Past),
    }
}

// The bytes of an operand; 0 where data makes none, being codes or dropped.
#[tactic(auto, unfolding(rules::specs::Drawing::length_of))]
pub fn length_of(r: Role, d: Domain) -> u8
    ensures { result ≡ length_of r d }
{
    match r {
        Role::LineCodes | Role::PolygonCodes | Role::TextMore | Role::Dropped => 0,
        Role::Lengths | Role::TextFirst | Role::TextSecond => 1,
        Role::Foreground | Role::Background => d.single,
        _ => d.multi,
    }
}
