// The bytes of escape sequences.
ghost use Rattle.std.specs.Prelude.{◌≡◌};
ghost use Rattle.rules.specs.Coding.{designator_of, designated_by, final_of, inner_of, after_escape, unfinished};

use rules::{Element, Final, Inner, Repertoire, Set, Waiting};

// What is waited for after ESC and a byte of column 2: 2/8 to 2/11 name the elements in order, 2/13 to 2/15 all but the first.
#[tactic(auto, unfolding(rules::specs::Coding::designator_of, rules::specs::Coding::designators))]
pub fn designator_of(b: u8) -> Waiting
    ensures { result ≡ designator_of b }
{
    match b {
        40 => Waiting::Designator(Element::G0),
        41 | 45 => Waiting::Designator(Element::G1),
        42 | 46 => Waiting::Designator(Element::G2),
        43 | 47 => Waiting::Designator(Element::G3),
        _ => Waiting::Longer,
    }
}

// What the final byte of a designating sequence names.
#[tactic(auto, unfolding(rules::specs::Coding::designated_by))]
pub fn designated_by(b: u8) -> Option<Set>
    ensures { result ≡ designated_by b }
{
    match b {
        66 => Some(Set::Characters(Repertoire::Primary)),
        124 => Some(Set::Characters(Repertoire::Supplementary)),
        87 => Some(Set::Pdi),
        125 => Some(Set::Characters(Repertoire::Mosaic)),
        122 => Some(Set::Macro),
        123 => Some(Set::Characters(Repertoire::Drcs)),
        _ => None,
    }
}

// What the final byte of a two-byte sequence does.
#[tactic(auto, unfolding(rules::specs::Coding::final_of))]
pub fn final_of(b: u8) -> Final
    ensures { result ≡ final_of b }
{
    match b {
        64 => Final::Opens,
        65..=68 => Final::Refuses,
        69..=95 => Final::Closes,
        110 => Final::UsesG2,
        111 => Final::UsesG3,
        _ => Final::NoMeaning,
    }
}

// What a byte after ESC does in a definition.
#[tactic(auto, unfolding(rules::specs::Coding::inner_of))]
pub fn inner_of(b: u8) -> Inner
    ensures { result ≡ inner_of b }
{
    match b {
        64 => Inner::OpensNext,
        65..=68 => Inner::Bars,
        69 => Inner::EndsBody,
        27 => Inner::StartsAfresh,
        _ => Inner::StoresBoth,
    }
}

// Whether the byte before was ESC, in a definition or outside one.
#[tactic(auto, unfolding(rules::specs::Coding::after_escape))]
pub fn after_escape(w: Waiting) -> bool
    ensures { result ≡ after_escape w }
{
    matches!(w, Waiting::Escape | Waiting::BodyEscape(_))
}

// Whether the page is inside an escape sequence or a definition, or has a row or column byte due.
#[tactic(auto, unfolding(rules::specs::Coding::unfinished))]
pub fn unfinished(w: Waiting) -> bool
    ensures { result ≡ unfinished w }
{
    !matches!(w, Waiting::Nothing | Waiting::Shifted(_))
}
