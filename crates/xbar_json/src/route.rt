ghost use Rattle.std.specs.Prelude.{◌≡◌, ◌%◌, ◌+◌, Some};
ghost use Rattle.xbar_equip.specs.Digits.{digits};

use crate::array::add_array;
use crate::json::Json;
use std::alloc::AllocError;
use std::fmt;
use xbar_plan::Route;

/// The last three digits of a code.
#[derive(Clone, Copy)]
struct CodeDigits(u16);

impl fmt::Display for CodeDigits {
    ghost output = { λ code. Some (digits 3 code.0) };

    fn fmt<W: fmt::Write>(&self, f: &mut fmt::Formatter<W>) -> fmt::Result {
        let code = self.0;
        let first = last_digit(code / 100);
        let second = last_digit(code / 10);
        let third = last_digit(code);
        write!(f, "{first}{second}{third}")
    }
}

/// The last decimal digit of a number.
fn last_digit(number: u16) -> char
    ensures { result ≡ 48 + number % 10 }
{
    char::from(b'0' + (number % 10) as u8)
}

impl Json for Route {
    ghost use Rattle.xbar_json.specs.Plan.{route_object};

    ghost json = { route_object };

    #[tactic(auto, unfolding(crate::specs::Plan::route_object))]
    fn add_json(&self, text: &mut String) -> Result<(), AllocError> {
        let code = CodeDigits(self.code());
        write!(text, r#"{{"code":"{code}","groups":"#)?;
        add_array(text, self.groups())?;
        text.push_str("}")?;
        Ok(())
    }
}
