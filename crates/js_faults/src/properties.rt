//! Early errors of the properties of an object.

ghost use Rattle.std.specs.Prelude.{◌≡◌, ℕ, length};
ghost use Rattle.std.specs.List.{filter, list_any};
ghost use Rattle.std.specs.Str.{bytes_eq};
ghost use Rattle.std.specs.Fmt.{signed_decimal};
ghost use Rattle.js_ast.specs.Nodes.{nodes_of};
ghost use Rattle.js_ast.specs.Views.{view_key, view_property, view_properties};
ghost use Rattle.js_ast.specs.Keys.{key_text};
ghost use Rattle.js_faults.specs.Early.{same_key, is_pair, clashes, property_list, of_properties};
ghost use Rattle.js_faults.specs.Faults.{first_of};
ghost use Rattle.js_faults.specs.Ordered.{property_entry};

use crate::fault::{EarlyError, EarlyErrorKind, earlier, fault_if};
use crate::ordered::{Keyed, is_order, of_ordered};
use flow_text::Text;
use itoa::Buffer;
use js_ast::{Key, Property, PropertyKind, PropertyList};
use js_number::Int;
use js_scan::spells;
use std::cmp::Ordering;

/// Whether the number is written so.
fn writes(n: Int, text: &Text) -> bool
    ensures { result ≡ bytes_eq text.now (signed_decimal n) }
{
    let mut buffer = Buffer::new();
    spells(buffer.format(n.get()).as_bytes(), text.units())
}

/// Whether two keys name one property.
fn same_name(a: &Key, b: &Key) -> bool
    ensures { result ≡ bytes_eq (key_text (view_key a.now)) (key_text (view_key b.now)) }
{
    match (a, b) {
        (Key::Number(m), Key::Number(n)) => m.get() == n.get(),
        (Key::Number(n), Key::Name(text) | Key::String { value: text, .. })
        | (Key::Name(text) | Key::String { value: text, .. }, Key::Number(n)) => writes(*n, text),
        (
            Key::Name(a) | Key::String { value: a, .. },
            Key::Name(b) | Key::String { value: b, .. },
        ) => a == b,
    }
}

/// Whether the two are a getter and a setter.
fn is_pair(a: &Property, b: &Property) -> bool
    ensures { result ≡ is_pair (view_property a.now) (view_property b.now) }
{
    matches!(
        (&a.kind, &b.kind),
        (PropertyKind::Getter(_), PropertyKind::Setter(_))
            | (PropertyKind::Setter(_), PropertyKind::Getter(_))
    )
}

/// How many properties have the key of this one.
fn count(property: &Property, all: &[Property]) -> usize
    ensures { result ≡ length (filter (same_key (view_property property.now)) (property_list (view_properties all.now))) }
{
    all.iter()
        .filter(|other| same_name(&property.key, &other.key))
        .count()
}

/// Whether an object can't have both. A getter and a setter it can, if no further property has their key.
fn clashes(all: &[Property], property: &Property, other: &Property) -> bool
    ensures { result ≡ clashes (property_list (view_properties all.now)) (view_property property.now) (view_property other.now) }
{
    same_name(&property.key, &other.key) && (!is_pair(property, other) || count(property, all) != 2)
}

/// A property behind others.
fn is_repeated(all: &[Property], others: &[Property], property: &Property) -> bool
    ensures { result ≡ list_any (λ other. clashes (property_list (view_properties all.now)) (view_property property.now) (view_property other)) others.now }
{
    others.iter().any(|other| clashes(all, property, other))
}

// Properties, each against all earlier ones.
fn by_pairs(all: &[Property]) -> Option<EarlyError>
    ensures { result ≡ first_of (of_properties (property_list (view_properties all.now))) }
{
    let mut first = None;
    'properties: for (i, property) in all.iter().enumerate() {
        let repeated = is_repeated(all, &all[..i], property);
        first = earlier(
            first,
            fault_if(repeated, property.at, EarlyErrorKind::RepeatedProperty),
        );
    }
    first
}

/// The properties of an object. Their order serves where it is one.
#[tactic(auto, using(crate::proofs::Entries::properties_are))]
pub(crate) fn of_properties(properties: &PropertyList) -> Option<EarlyError>
    ensures { result ≡ first_of (of_properties (property_list (view_properties (nodes_of properties.now)))) }
{
    let all = properties.items();
    let order = properties.order();
    if is_order(all, order) {
        of_ordered(all, order, EarlyErrorKind::RepeatedProperty)
    } else {
        by_pairs(all)
    }
}

impl Keyed for Property {
    ghost entry = { λ p. property_entry (view_property p) };

    #[tactic(auto, using(crate::proofs::Repeated::key_seen))]
    fn compared(&self, other: &Property) -> Ordering {
        self.key.compared(&other.key)
    }

    fn is_pair(&self, other: &Property) -> bool {
        is_pair(self, other)
    }

    #[tactic(auto, using(crate::proofs::Repeated::place_seen))]
    fn place(&self) -> usize {
        self.at
    }
}
