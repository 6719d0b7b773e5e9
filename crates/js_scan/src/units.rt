//! Classes of units.

ghost use Rattle.std.specs.Prelude.{◌≡◌};
ghost use Rattle.unicode.specs.GeneralCategory.{general_category};
ghost use Rattle.js_scan.specs.Units.{is_letter, is_mark, is_white_space, is_line_terminator, is_identifier_start, is_identifier_part};

use unicode::properties::GeneralCategory;

/// WhiteSpace.
#[tactic(auto, unfolding(crate::specs::Units::is_white_space))]
pub(crate) fn is_white_space(unit: u16) -> bool
    ensures { result ≡ is_white_space unit }
{
    matches!(unit, 0x09 | 0x0B | 0x0C | 0x20 | 0xA0 | 0xFEFF)
        || matches!(category(unit), GeneralCategory::SpaceSeparator)
}

/// LineTerminator.
#[tactic(auto, unfolding(crate::specs::Units::is_line_terminator))]
pub(crate) fn is_line_terminator(unit: u16) -> bool
    ensures { result ≡ is_line_terminator unit }
{
    matches!(unit, 0x0A | 0x0D | 0x2028 | 0x2029)
}

/// Whether an identifier may start with the unit, written as itself or by an escape.
#[tactic(auto, using(crate::proofs::UnitLaws::small_letter_starts), unfolding(crate::specs::Units::is_identifier_start))]
pub(crate) fn is_identifier_start(unit: u16) -> bool
    ensures { result ≡ is_identifier_start unit }
{
    match unit {
        // Most units of names, without a look at their category.
        0x61..=0x7A => true,
        _ => is_letter(category(unit)) || matches!(unit, 0x24 | 0x5F),
    }
}

/// Whether an identifier may have the unit behind its first.
#[tactic(auto, unfolding(crate::specs::Units::is_identifier_part))]
pub(crate) fn is_identifier_part(unit: u16) -> bool
    ensures { result ≡ is_identifier_part unit }
{
    is_identifier_start(unit) || is_mark(category(unit)) || matches!(unit, 0x200C | 0x200D)
}

fn is_letter(category: GeneralCategory) -> bool
    ensures { result ≡ is_letter category }
{
    matches!(
        category,
        GeneralCategory::UppercaseLetter
            | GeneralCategory::LowercaseLetter
            | GeneralCategory::TitlecaseLetter
            | GeneralCategory::ModifierLetter
            | GeneralCategory::OtherLetter
            | GeneralCategory::LetterNumber
    )
}

fn is_mark(category: GeneralCategory) -> bool
    ensures { result ≡ is_mark category }
{
    matches!(
        category,
        GeneralCategory::NonspacingMark
            | GeneralCategory::SpacingMark
            | GeneralCategory::DecimalNumber
            | GeneralCategory::ConnectorPunctuation
    )
}

// A surrogate is no char, and has a category of its own.
fn category(unit: u16) -> GeneralCategory
    ensures { result ≡ general_category unit }
{
    match char::from_u32(u32::from(unit)) {
        Some(c) => GeneralCategory::for_char(c),
        None => GeneralCategory::Surrogate,
    }
}
