//! Names.

ghost use Rattle.std.specs.Prelude.{◌≡◌};
ghost use Rattle.std.specs.List.{list_all};
ghost use Rattle.flow_lists.specs.Names.{is_name, is_name_unit};

const MAX_NAME: usize = 32;

fn is_name_unit(unit: u16) -> bool
    ensures { result ≡ is_name_unit unit }
{
    matches!(unit, 0x41..=0x5A | 0x61..=0x7A | 0x30..=0x39 | 0x5F)
}

fn are_name_units(word: &[u16]) -> bool
    ensures { result ≡ list_all is_name_unit word.now }
{
    word.iter().all(|unit| is_name_unit(*unit))
}

/// Whether the units are a name.
#[tactic(auto, unfolding(crate::specs::Names::is_name))]
pub fn is_name(word: &[u16]) -> bool
    ensures { result ≡ is_name word.now }
{
    !word.is_empty() && word.len() <= MAX_NAME && are_name_units(word)
}
