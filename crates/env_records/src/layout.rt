//! The names that a record begins with: a list, and an index of them where there are many.

ghost use Rattle.std.specs.Prelude.{◌≡◌, ◌<◌, ◌++◌, ◌∷◌, [], List, ℕ, IfOk, OnOk, OnErr, length, slice_get};
ghost use Rattle.std.specs.Option.{option_map};
ghost use Rattle.origin_labels.specs.Names.{same_name};
ghost use Rattle.env_records.specs.Layouts.{first_place, texts_of, indexed};

use flow_text::{OutOfMemory, Text};
use indexmap::IndexSet;
use std::alloc::Global;
use std::marker::Model;

// So many names are searched one by one.
const MOST_WITHOUT_INDEX: usize = 8;

/// A name, and whether it can be assigned to.
#[derive(Drop)]
struct LaidName {
    name: Text,
    mutable: bool,
}

impl Model for LaidName {
    ghost use Rattle.env_records.specs.Layouts.{LaidName};

    ghost Value = { LaidName };

    ghost view = { λ n. record { name = n.name; mutable = n.mutable } };
}

impl LaidName {
    fn new(name: Text, mutable: bool) -> LaidName
        ensures { result ≡ record { name = name; mutable = mutable } }
    {
        LaidName { name, mutable }
    }

    #[inline(always)]
    fn is_named(&self, name: &Text) -> bool
        ensures { result ≡ same_name self.now.name name.now }
    {
        self.name == *name
    }

    fn name(&self) -> &Text
        ensures { result.now ≡ self.now.name }
    {
        &self.name
    }

    fn is_mutable(&self) -> bool
        ensures { result ≡ self.now.mutable }
    {
        self.mutable
    }
}

/// The names that a record begins with, in their order, and whether each can be assigned to.
#[derive(Drop)]
pub struct Layout {
    alloc: Global,
    names: Vec<LaidName>,
    // The texts of the names, in their order.
    index: Option<Box<IndexSet<Text>>>,
}

impl Model for Layout {
    ghost use Rattle.std.specs.Prelude.{◌≡◌, List};
    ghost use Rattle.env_records.specs.Layouts.{LaidName, texts_of, indexed};

    ghost Value = { List LaidName };

    ghost view = { λ l. l.names.items };

    ghost invariant = { λ l. indexed l.index (texts_of l.names.items) ≡ texts_of l.names.items };
}

impl Layout {
    /// No names. It takes no memory.
    pub fn new(alloc: Global) -> Layout
        ensures { result ≡ [] }
    {
        Layout {
            alloc,
            names: Vec::new(alloc),
            index: None,
        }
    }

    /// How many names there are.
    pub fn len(&self) -> usize
        ensures { result ≡ length self.now }
    {
        self.names.len()
    }

    /// The first place that has the name.
    #[inline(always)]
    pub fn place(&self, name: &Text) -> Option<usize>
        ensures { result ≡ first_place name.now self.now }
    {
        match &self.index {
            Some(index) => index.get_index_of(name),
            None => self.listed(name),
        }
    }

    // The same without the index.
    #[inline(always)]
    fn listed(&self, name: &Text) -> Option<usize>
        ensures { result ≡ first_place name.now self.now }
    {
        for (i, laid) in self.names.iter().enumerate() {
            if laid.is_named(name) {
                return Some(i);
            }
        }
        None
    }

    /// Whether the name at a place can be assigned to.
    pub(crate) fn is_mutable(&self, place: usize) -> bool
        requires { place < length self.now }
        ensures { option_map (λ n. n.mutable) (slice_get self.now place) ≡ Some result }
    {
        self.names[place].is_mutable()
    }

    /// Appends a name.
    pub fn push(&mut self, name: Text, mutable: bool) -> Result<(), OutOfMemory>
        ensures ok { OnOk result (self.new ≡ self.old ++ record { name = name; mutable = mutable } ∷ []) }
        ensures unchanged { OnErr result (self.new ≡ self.old) }
    {
        self.make_index()?;
        self.names.reserve(1)?;
        insert_text(self.alloc, &mut self.index, &name)?;
        self.names.push_reserved(LaidName::new(name, mutable));
        Ok(())
    }

    // Begins the index where it is time for one.
    fn make_index(&mut self) -> Result<(), OutOfMemory>
        ensures { self.new ≡ self.old }
    {
        if self.names.len() != MOST_WITHOUT_INDEX {
            return Ok(());
        }
        self.index = index_of(self.alloc, &self.names)?;
        Ok(())
    }

    /// The same names. Their texts are not copied.
    pub(crate) fn copy(&self, alloc: Global) -> Result<Layout, OutOfMemory>
        ensures { IfOk result (λ l. l ≡ self.now) }
    {
        let mut copied = Layout::new(alloc);
        for laid in &self.names {
            copied.push(laid.name().copy(alloc)?, laid.is_mutable())?;
        }
        Ok(copied)
    }
}

// An index of the names. There is none where a name comes twice.
fn index_of(alloc: Global, names: &[LaidName]) -> Result<Option<Box<IndexSet<Text>>>, OutOfMemory>
    ensures { IfOk result (λ index. indexed index (texts_of names.now) ≡ texts_of names.now) }
{
    let mut index = Some(Box::new(alloc, IndexSet::new(alloc))?);
    for laid in names {
        insert_text(alloc, &mut index, laid.name())?;
    }
    Ok(index)
}

// Adds a text to an index. None is left where the text is in it.
fn insert_text(
    alloc: Global,
    index: &mut Option<Box<IndexSet<Text>>>,
    text: &Text,
) -> Result<(), OutOfMemory>
    ensures ok { OnOk result ((texts : List (List ℕ)) → indexed index.old texts ≡ texts → indexed index.new (texts ++ text.now ∷ []) ≡ texts ++ text.now ∷ []) }
    ensures unchanged { OnErr result ((texts : List (List ℕ)) → indexed index.old texts ≡ texts → indexed index.new texts ≡ texts) }
{
    let Some(texts) = index else {
        return Ok(());
    };
    if texts.insert(text.copy(alloc)?)? {
        return Ok(());
    }
    *index = None;
    Ok(())
}
