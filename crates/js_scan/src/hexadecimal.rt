//! Hexadecimal digits.

ghost use Rattle.std.specs.Prelude.{◌≡◌, ◌≤◌, Some, None, if◌then◌else◌};
ghost use Rattle.std.specs.Char.{is_digit, digit_value};
ghost use Rattle.js_scan.specs.Hexadecimal.{hexadecimal_value};

/// The number that so many hexadecimal digits at the front write.
#[tactic(auto, unfolding(crate::specs::Hexadecimal::hexadecimal_value))]
pub(crate) fn hexadecimal_value(count: usize, units: &[u16]) -> Option<u16>
    requires { count ≤ 4 }
    ensures { result ≡ hexadecimal_value count units.now }
{
    let digits = units.get(..count)?;
    let mut value = 0;
    for digit in digits {
        value = value * 16 + hexadecimal_digit(*digit)?;
    }
    Some(value)
}

// The value of a hexadecimal digit.
fn hexadecimal_digit(unit: u16) -> Option<u16>
    ensures { result ≡ (if is_digit unit 16 then Some (digit_value unit) else None) }
{
    match unit {
        0x30..=0x39 => Some(unit - 0x30),
        0x41..=0x46 => Some(unit - 0x37),
        0x61..=0x66 => Some(unit - 0x57),
        _ => None,
    }
}
