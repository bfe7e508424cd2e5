ghost use Rattle.std.specs.Prelude.{◌≡◌, ◌+◌, ◌^◌, ◌<◌, ◌↔◌, IsSome, IsNone, IfSome, IsSomeAnd, IsOk, OnOk, OnErr};
ghost use Rattle.xbar_switch.specs.Shape.{places};
ghost use Rattle.xbar_switch.specs.Switch.{field_at, Closes, Opens};

use crate::fault::SwitchFault;
use crate::shape::Shape;
use crate::word::{close_bits, field, open_mask};
use std::marker::Model;

/// A crossbar switch: its word, and the place that its select magnets prepare, if any.
#[derive(Clone, Copy, Debug, PartialEq, Eq)]
pub struct Switch {
    shape: Shape,
    word: u64,
    selected: Option<u8>,
}

impl Model for Switch {
    ghost use Rattle.std.specs.Prelude.{◌<◌};
    ghost use Rattle.std.specs.Option.{ForSome};
    ghost use Rattle.xbar_switch.specs.Shape.{places};
    ghost use Rattle.xbar_switch.specs.Switch.{SwitchState};

    ghost Value = { SwitchState };

    ghost view = { λ s. record { shape = s.shape; word = s.word; selection = s.selected } };

    ghost invariant = { λ s. ForSome s.selected (λ h. h < places s.shape) };

    ghost inverse = { λ s. record { shape = s.shape; word = s.word; selected = s.selection } };
}

impl Switch {
    /// A switch with this word, and nothing selected. Any word is allowed.
    pub fn of_word(shape: Shape, word: u64) -> Self
        ensures { result ≡ record { shape = shape; word = word; selection = None } }
    {
        Switch {
            shape,
            word,
            selected: None,
        }
    }

    /// The switch's current word.
    pub fn word(&self) -> u64
        ensures value { result ≡ self.now.word }
        ensures range { self.now.word < 2 ^ 64 }
    {
        self.word
    }

    /// Operates the select magnet of place `h`. The selection replaces any earlier one.
    pub fn select(&mut self, h: u8)
        requires { h < places self.old.shape }
        ensures { self.new ≡ record self.old { selection = Some h } }
    {
        self.selected = Some(h);
    }

    /// Operates the hold magnet of field `v`, which closes the field at the selected place.
    pub fn hold(&mut self, v: u8) -> Result<(), SwitchFault>
        requires { v < 10 }
        ensures ok { OnOk result (IsSomeAnd self.old.selection (Closes self.old self.new v)) }
        ensures succeeds { IsOk result ↔ (IsSome self.old.selection × (field_at self.old v ≡ 0)) }

        // `NothingSelected` takes precedence: it is reported even if the field is closed.
        ensures nothing_selected { (result ≡ Err SwitchFault.NothingSelected) ↔
            IsNone self.old.selection }
        ensures already_held { (result ≡ Err SwitchFault.AlreadyHeld)
            ↔ (IsSome self.old.selection × (0 < field_at self.old v)) }
        ensures err { OnErr result (self.new ≡ self.old) }
    {
        let Some(h) = self.selected else {
            return Err(SwitchFault::NothingSelected);
        };
        if field(self.shape, self.word, v) != 0 {
            return Err(SwitchFault::AlreadyHeld);
        }
        self.word |= close_bits(self.shape, v, h);
        Ok(())
    }

    /// Releases the select magnet. Closed fields stay closed.
    pub fn drop_select(&mut self)
        ensures { self.new ≡ record self.old { selection = None } }
    {
        self.selected = None;
    }

    /// Releases the hold magnet of field `v`, which opens the field.
    pub fn release(&mut self, v: u8) -> Result<(), SwitchFault>
        requires { v < 10 }
        ensures ok { OnOk result (Opens self.old self.new v) }
        ensures succeeds { IsOk result ↔ (0 < field_at self.old v) }
        ensures not_held { (result ≡ Err SwitchFault.NotHeld) ↔ (field_at self.old v ≡ 0) }
        ensures err { OnErr result (self.new ≡ self.old) }
    {
        if field(self.shape, self.word, v) == 0 {
            return Err(SwitchFault::NotHeld);
        }
        self.word &= open_mask(self.shape, v);
        Ok(())
    }

    /// The place that field `v` is closed at, or `None` if it is open. In a word from outside, the
    /// place may be past the shape's last one.
    pub fn closed(&self, v: u8) -> Option<u8>
        requires { v < 10 }
        ensures open { IsNone result ↔ (field_at self.now v ≡ 0) }
        ensures place { IfSome result (λ place. field_at self.now v ≡ 1 + place) }
    {
        field(self.shape, self.word, v).checked_sub(1)
    }
}
