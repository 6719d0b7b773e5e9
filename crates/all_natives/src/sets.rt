//! The sets, and the order of their built-ins: that in which the start objects get their properties.

/// One of the sets.
#[derive(Clone, Copy)]
pub enum Set {
    Channels,
    Objects,
    Arrays,
    Functions,
    Texts,
}

/// Built-ins of a set whose numbers follow each other: the set, the first number, and how many there are.
#[derive(Clone, Copy)]
pub struct Range(pub Set, pub u32, pub u32);

/// First the constructors of the global object, then `Math`, the functions of channels, what the global object doesn't offer, and all others
/// holder by holder.
pub const RANGES: [Range; 17] = [
    Range(Set::Texts, 0, 1),
    Range(Set::Objects, 0, 1),
    Range(Set::Functions, 0, 1),
    Range(Set::Arrays, 0, 1),
    Range(Set::Texts, 1, 1),
    Range(Set::Objects, 1, 2),
    Range(Set::Functions, 1, 7),
    Range(Set::Objects, 46, 26),
    Range(Set::Channels, 0, 5),
    Range(Set::Objects, 3, 2),
    Range(Set::Texts, 2, 1),
    Range(Set::Objects, 5, 36),
    Range(Set::Texts, 23, 1),
    Range(Set::Objects, 41, 5),
    Range(Set::Arrays, 1, 22),
    Range(Set::Functions, 8, 5),
    Range(Set::Texts, 3, 20),
];
