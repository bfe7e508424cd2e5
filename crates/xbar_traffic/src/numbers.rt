ghost use Rattle.std.specs.Prelude.{◌≡◌, ◌<◌, ◌==◌, ◌||◌, ℕ, IfOk, false, not, ◌≤◌, ◌↔◌, IsTrue, IfSome, Some, decimal};
ghost use Rattle.xbar_traffic.specs.Numbers.{contains};
ghost use Rattle.std.specs.Str.Parse.{AllDigits, digits_value};
ghost use Rattle.xbar_traffic.specs.Number.{BeginsPlainly};

use std::alloc::{AllocError, Global};
use std::marker::Model;

/// Job and call numbers are below this.
const COUNT: usize = 10_000;

/// The numbers of jobs or calls, from 0 to 9999, that earlier rows have.
#[derive(Drop)]
pub struct Numbers {
    seen: Vec<bool>,
}

impl Model for Numbers {
    ghost use Rattle.std.specs.Prelude.{◌≡◌, Bool, List, length};

    ghost Value = { List Bool };

    ghost view = { λ a. a.seen.items };

    ghost invariant = { λ a. length a.seen.items ≡ 10000 };
}

impl Numbers {
    /// The empty set.
    pub fn new(alloc: Global) -> Result<Self, AllocError>
        ensures { IfOk result (λ numbers. (number : ℕ) → contains numbers number ≡ false) }
    {
        Ok(Numbers {
            seen: vec![in alloc; false; COUNT]?,
        })
    }

    /// Adds a number. Returns whether it is new.
    #[tactic(auto, using(crate::proofs::StoodNumbers::one_more_stands))]
    pub fn insert(&mut self, number: u32) -> bool
        requires { number < 10000 }
        ensures first { result ≡ not (contains self.old number) }
        ensures contains { (other : ℕ) →
            contains self.new other ≡ (contains self.old other || number == other) }
    {
        let place = number as usize;
        let seen = self.seen[place];
        self.seen[place] = true;
        !seen
    }
}

/// Reads a number from 0 to `limit` in decimal digits without leading zeros.
pub fn read_number(text: &[u8], limit: u32) -> Option<u32>
    ensures reads { (number : ℕ) → number ≤ limit → text.now ≡ decimal number →
        result ≡ Some number }
    ensures only { IfSome result (λ number. (number ≤ limit) × (text.now ≡ decimal number)) }
{
    if !begins_plainly(text) {
        return None;
    }
    value(text, limit)
}

/// Whether a text isn't empty and has no leading zero.
fn begins_plainly(text: &[u8]) -> bool
    ensures { IsTrue result ↔ BeginsPlainly text.now }
{
    match text {
        [] => false,
        [b'0', rest @ ..] => rest.is_empty(),
        _ => true,
    }
}

/// The value of decimal digits. None if a byte is no digit or the value is above `limit`.
fn value(digits: &[u8], limit: u32) -> Option<u32>
    ensures reads { AllDigits 10 digits.now → digits_value 10 digits.now ≤ limit →
        result ≡ Some (digits_value 10 digits.now) }
    ensures only { IfSome result (λ number. (number ≤ limit) × AllDigits 10 digits.now ×
        (number ≡ digits_value 10 digits.now)) }
{
    let mut number: u64 = 0;
    for byte in digits {
        if !byte.is_ascii_digit() {
            return None;
        }
        number = 10 * number + u64::from(*byte - b'0');
        if number > u64::from(limit) {
            return None;
        }
    }
    Some(number as u32)
}
