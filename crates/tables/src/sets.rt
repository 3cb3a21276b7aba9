// The code elements and the sets that they name.
ghost use Rattle.std.specs.Prelude.{◌≡◌};
ghost use Rattle.rules.specs.Coding.{fresh_sets, set_of, in_use, designate, shifted_to, character};

use rules::{Action, Element, Repertoire, Set, Sets, SingleShift};

// The sets of a fresh session, and after NSR.
pub fn fresh_sets() -> Sets
    ensures { result ≡ fresh_sets }
{
    Sets {
        g0: Set::Characters(Repertoire::Primary),
        g1: Set::Pdi,
        g2: Set::Characters(Repertoire::Supplementary),
        g3: Set::Characters(Repertoire::Mosaic),
        used: Element::G0,
    }
}

pub fn set_of(e: Element, s: Sets) -> Set
    ensures { result ≡ set_of e s }
{
    match e {
        Element::G0 => s.g0,
        Element::G1 => s.g1,
        Element::G2 => s.g2,
        Element::G3 => s.g3,
    }
}

pub fn in_use(e: Element, s: Sets) -> Sets
    ensures { result ≡ in_use e s }
{
    Sets { used: e, ..s }
}

pub fn designate(e: Element, x: Set, s: Sets) -> Sets
    ensures { result ≡ designate e x s }
{
    match e {
        Element::G0 => Sets { g0: x, ..s },
        Element::G1 => Sets { g1: x, ..s },
        Element::G2 => Sets { g2: x, ..s },
        Element::G3 => Sets { g3: x, ..s },
    }
}

pub fn shifted_to(s: SingleShift) -> Element
    ensures { result ≡ shifted_to s }
{
    match s {
        SingleShift::Ss2 => Element::G2,
        SingleShift::Ss3 => Element::G3,
    }
}

// 7/15 does nothing in the primary and supplementary sets.
#[tactic(auto, unfolding(rules::specs::Coding::character))]
pub fn character(x: Repertoire, b: u8) -> Action
    ensures { result ≡ character x b }
{
    match x {
        Repertoire::Primary | Repertoire::Supplementary if b == 127 => Action::Idle,
        _ => Action::Character(x, b),
    }
}
