ghost use Rattle.std.specs.Prelude.{◌≡◌, ◌<◌, ◌≤◌, ◌^◌, MatchResult, IsTrue, not, length};
ghost use Rattle.std.specs.Char.{is_ascii_digit};
ghost use Rattle.xbar_equip.specs.Digits.{digit, digits, are_digits};

use crate::fault::EquipFault;

/// The value of an ASCII digit, 0 to 9.
pub fn digit_value(byte: u8) -> Result<u8, EquipFault>
    ensures value { MatchResult result (λ value. (value < 10) × (byte ≡ digit value))
        (λ fault. fault ≡ EquipFault.NotDigit) }
    ensures fault { MatchResult result (λ _. IsTrue (is_ascii_digit byte))
        (λ _. IsTrue (not (is_ascii_digit byte))) }
{
    if byte.is_ascii_digit() {
        Ok(byte - b'0')
    } else {
        Err(EquipFault::NotDigit)
    }
}

/// The number that decimal digits represent, the highest digit first. Empty text is 0.
pub fn number(text: &[u8]) -> Result<u32, EquipFault>
    requires { length text.now ≤ 9 }
    ensures value { MatchResult result (λ number. (number < 10 ^ length text.now) ×
        (text.now ≡ digits (length text.now) number)) (λ fault. fault ≡ EquipFault.NotDigit) }
    ensures fault { MatchResult result (λ _. IsTrue (are_digits text.now))
        (λ _. IsTrue (not (are_digits text.now))) }
{
    let mut number = 0;
    for byte in text {
        number = 10 * number + u32::from(digit_value(*byte)?);
    }
    Ok(number)
}
