//! Punctuators.

ghost use Rattle.std.specs.Prelude.{◌≡◌, [], ◌∷◌};
ghost use Rattle.js_scan.specs.Found.{FindsPunctuator};
ghost use Rattle.js_scan.specs.Punctuators.{is_punctuator};

/// How many units the longest punctuator at the front has, and 0 where there is none.
pub(crate) fn punctuator_length(units: &[u16]) -> usize
    ensures { FindsPunctuator units.now result }
{
    match units {
        [a, b, c, d, ..] if is_four(*a, *b, *c, *d) => 4,
        [a, b, c, ..] if is_three(*a, *b, *c) => 3,
        [a, b, ..] if is_two(*a, *b) => 2,
        [a, ..] if is_one(*a) => 1,
        _ => 0,
    }
}

// ! % & ( ) * + , - . / : ; < = > ? [ ] ^ { | } ~
#[tactic(auto, unfolding(crate::specs::Punctuators::is_punctuator))]
fn is_one(unit: u16) -> bool
    ensures { result ≡ is_punctuator (unit ∷ []) }
{
    matches!(
        unit,
        0x21 | 0x25..=0x26 | 0x28..=0x2F | 0x3A..=0x3F | 0x5B | 0x5D..=0x5E | 0x7B..=0x7E
    )
}

// != %= &= *= += -= /= <= == >= ^= |= && ++ -- << >> ||
#[tactic(auto, unfolding(crate::specs::Punctuators::is_punctuator))]
fn is_two(first: u16, second: u16) -> bool
    ensures { result ≡ is_punctuator (first ∷ second ∷ []) }
{
    match second {
        0x3D => matches!(
            first,
            0x21 | 0x25 | 0x26 | 0x2A | 0x2B | 0x2D | 0x2F | 0x3C | 0x3D | 0x3E | 0x5E | 0x7C
        ),
        0x26 | 0x2B | 0x2D | 0x3C | 0x3E | 0x7C => first == second,
        _ => false,
    }
}

// !== === <<= >>= >>>
#[tactic(auto, unfolding(crate::specs::Punctuators::is_punctuator))]
fn is_three(first: u16, second: u16, third: u16) -> bool
    ensures { result ≡ is_punctuator (first ∷ second ∷ third ∷ []) }
{
    matches!(
        (first, second, third),
        (0x3D | 0x21, 0x3D, 0x3D) | (0x3E, 0x3E, 0x3E | 0x3D) | (0x3C, 0x3C, 0x3D)
    )
}

// >>>=
#[tactic(auto, unfolding(crate::specs::Punctuators::is_punctuator))]
fn is_four(first: u16, second: u16, third: u16, fourth: u16) -> bool
    ensures { result ≡ is_punctuator (first ∷ second ∷ third ∷ fourth ∷ []) }
{
    matches!((first, second, third, fourth), (0x3E, 0x3E, 0x3E, 0x3D))
}
