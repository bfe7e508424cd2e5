//! The rule of a queue, and what each call reports of it.
ghost use Rattle.std.specs.Prelude.{◌≡◌, ◌+◌, ◌-◌, [], ◌∷◌, ◌++◌};
ghost use Rattle.fair_queue.specs.Rule.{hand, Balanced, Knows};
ghost use Rattle.fair_queue.specs.Parts.{all_parts};

use crate::item::Item;
use crossbeam_channel::protocol::{Join, Lesson, Outcome, Protocol, Split};
use std::collections::LinkedList;

/// What was put and taken with a pass, and its parts of the right to know the whole. It is ghost
/// state: no value of this type is ever made.
pub struct Hand<X> {
    pub parts: u128,
    pub put: LinkedList<X>,
    pub taken: LinkedList<X>,
}

/// The rule: what was put is what was taken and what the queue holds, and all parts are there.
pub struct Fair;

impl<X: Item> Protocol<X, Hand<X>> for Fair {
    ghost holds = { Balanced X.sound };

    ghost first = { hand all_parts [] [] };
}

/// Cuts a pass of one part off, or joins two passes.
pub struct Cut;

impl<X> Split<Hand<X>> for Cut {
    ghost left = { λ v. hand (v.parts - 1) v.put v.taken };

    ghost right = { λ v. hand 1 [] [] };
}

impl<X> Join<Hand<X>> for Cut {
    ghost both = { λ v w. hand (v.parts + w.parts) (v.put ++ w.put) (v.taken ++ w.taken) };

    ghost spent = { hand 0 [] [] };
}

/// A put. If the queue is full instead, a pass with every part knows what it holds.
pub struct Puts;

impl<X> Outcome<X, Hand<X>> for Puts {
    ghost then = { λ v x w. w ≡ hand v.parts (v.put ++ x ∷ []) v.taken };
}

impl<X: Item> Lesson<X, Hand<X>> for Puts {
    ghost fact = { Knows X.sound };
}

/// A take. If the queue is empty instead, a pass with every part knows that nothing is left.
pub struct Takes;

impl<X: Item> Outcome<X, Hand<X>> for Takes {
    ghost then = { λ v x w. (w ≡ hand v.parts v.put (v.taken ++ x ∷ [])) × X.sound x };
}

impl<X: Item> Lesson<X, Hand<X>> for Takes {
    ghost fact = { Knows X.sound };
}

/// A look at the queue: a pass with every part knows what the queue holds.
pub struct Looks;

impl<X: Item> Lesson<X, Hand<X>> for Looks {
    ghost fact = { Knows X.sound };
}
