// The classes of bytes, and the controls among them.
ghost use Rattle.std.specs.Prelude.{◌≡◌, true, ◌<◌, get_or};
ghost use Rattle.rules.specs.Coding.{controls, class_of};

use rules::{Class, Control, Effector, Element, Positioning, SingleShift};

#[tactic(auto, unfolding(rules::specs::Coding::class_of, rules::specs::Coding::controls))]
pub fn class_of(b: u8) -> Class
    ensures { result ≡ class_of b }
{
    match b {
        // 0/0 to 0/6
        0..=6 => Class::Below(Control::Ignored),
        7 => Class::Below(Control::Recorded),
        // 0/8 to 0/13
        8 => Class::Below(Control::Formats(Effector::Apb)),
        9 => Class::Below(Control::Formats(Effector::Apf)),
        10 => Class::Below(Control::Formats(Effector::Apd)),
        11 => Class::Below(Control::Formats(Effector::Apu)),
        12 => Class::Below(Control::Formats(Effector::Cs)),
        13 => Class::Below(Control::Formats(Effector::Apr)),
        // 0/14 SO, 0/15 SI
        14 => Class::Below(Control::Locks(Element::G1)),
        15 => Class::Below(Control::Locks(Element::G0)),
        // 1/0 to 1/7
        16..=23 => Class::Below(Control::Recorded),
        // 1/8 CAN
        24 => Class::Below(Control::Cancels),
        // 1/9 SS2
        25 => Class::Below(Control::Shifts(SingleShift::Ss2)),
        26 => Class::Below(Control::Recorded),
        // 1/11 ESC
        27 => Class::Below(Control::Escapes),
        // 1/12 APS
        28 => Class::Below(Control::Positions(Positioning::Aps)),
        // 1/13 SS3
        29 => Class::Below(Control::Shifts(SingleShift::Ss3)),
        // 1/14 APH, 1/15 NSR
        30 => Class::Below(Control::Formats(Effector::Aph)),
        31 => Class::Below(Control::Positions(Positioning::Nsr)),
        32..=47 => Class::Column2,
        _ => Class::Above,
    }
}

// The control that a byte is; one from 2/0 on does nothing as such.
pub fn control_of(b: u8) -> Control
    ensures { (f : Effector) → result ≡ Control.Formats f → (b < 32) × (get_or controls b Control.Ignored ≡ Control.Formats f) }
{
    match class_of(b) {
        Class::Below(control) => control,
        Class::Column2 | Class::Above => Control::Ignored,
    }
}

// Whether a control is recorded.
pub fn is_recorded(b: u8) -> bool
    ensures { result ≡ true → (b < 32) × (get_or controls b Control.Ignored ≡ Control.Recorded) }
{
    matches!(class_of(b), Class::Below(Control::Recorded))
}
