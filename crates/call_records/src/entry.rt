//! The values that a call begins with, each in the place of its name.

ghost use Rattle.std.specs.Prelude.{◌≡◌, ◌≤◌, ◌<◌, [], ◌∷◌, ℕ, List, IfOk, IfSome, OnOk, length, set, slice_get, take};
ghost use Rattle.std.specs.List.{All};
ghost use Rattle.std.specs.Vec.Iter.{into_iter_items, into_iter_len};
ghost use Rattle.origin_labels.specs.Stores.{IsKept};
ghost use Rattle.js_values.specs.declared.value.Labelled.{Labelled};
ghost use Rattle.js_values.specs.Readings.{HasValue};
ghost use Rattle.call_records.specs.Joined.{Joins, IsNext, ForJoined};
ghost use Rattle.call_records.specs.Placed.{placed, placed_if, first_values};

use crate::placing::Places;
use flow_text::OutOfMemory;
use js_values::Labelled;
use origin_labels::Labels;
use std::alloc::Global;
use std::vec::IntoIter;

/// What a call begins with besides its arguments.
#[derive(Drop)]
pub struct Entry<T> {
    pub this: Labelled<T>,
    /// The number of its function.
    pub function: Labelled<T>,
    /// What parameters without an argument have, and variables.
    pub missing: Labelled<T>,
    /// The functions that it declares, in their order.
    pub functions: Vec<Labelled<T>>,
    /// Its `arguments` object, which is bound where its code names it.
    pub arguments: Labelled<T>,
}

/// So many values: these two, and `missing` for all others.
#[inline(always)]
pub(crate) fn first_values<T: Copy>(
    alloc: Global,
    count: usize,
    this: Labelled<T>,
    function: Labelled<T>,
    missing: &Labelled<T>,
) -> Result<Vec<Labelled<T>>, OutOfMemory>
    requires { 2 ≤ count }
    ensures { IfOk result (λ vs. vs.items ≡ first_values count this function missing.now) }
{
    let mut values = Vec::with_capacity(alloc, count)?;
    values.push_reserved(this);
    values.push_reserved(function);
    for _ in 2..count {
        values.push_reserved(missing.copy(alloc)?);
    }
    Ok(values)
}

// The next value, or `missing` where there are no more.
#[inline(always)]
fn next_or<T: Copy>(
    alloc: Global,
    values: &mut IntoIter<Labelled<T>>,
    missing: &Labelled<T>,
) -> Result<Labelled<T>, OutOfMemory>
    requires { into_iter_len values.old ≡ length (into_iter_items values.old) }
    ensures next { IfOk result (λ v. (p : ℕ) (ps : List ℕ) (all : List (Labelled T)) → placed missing.now (p ∷ ps) (into_iter_items values.old) all ≡ placed missing.now ps (into_iter_items values.new) (set all p v)) }
    ensures size { into_iter_len values.new ≡ length (into_iter_items values.new) }
{
    match values.next() {
        Some(value) => Ok(value),
        None => {
            let value = missing.copy(alloc)?;
            Ok(value)
        }
    }
}

// Puts values in places in turn, and `missing` where there are no more.
#[inline(always)]
fn put<T: Copy>(
    alloc: Global,
    places: &[usize],
    values: Vec<Labelled<T>>,
    missing: &Labelled<T>,
    all: &mut [Labelled<T>],
) -> Result<(), OutOfMemory>
    requires { All (λ p. p < length all.old) places.now }
    ensures placed { OnOk result (all.new ≡ placed missing.now places.now values.items all.old) }
    ensures length { length all.new ≡ length all.old }
{
    let mut rest = values.into_iter();
    'places: for place in places {
        all[*place] = next_or(alloc, &mut rest, missing)?;
    }
    Ok(())
}

// A value that depends on the context besides.
#[inline(always)]
fn join_argument<T: Copy, L: Labels<Label = T>>(
    alloc: Global,
    labels: &mut L,
    value: &Labelled<T>,
    context: T,
) -> Result<Labelled<T>, OutOfMemory>
    requires value { L.made labels.old value.now.label }
    requires context { L.made labels.old context }
    ensures joins { IfOk result (λ v. Joins L.made L.meaning labels.new context (value.now ∷ []) (v ∷ [])) }
    ensures made { IfOk result (HasValue (L.made labels.new)) }
    ensures kept { IsKept L.made L.meaning L.room L.firm labels.old labels.new }
{
    let label = labels.join(value.label, context)?;
    let value = value.value.copy(alloc)?;
    Ok(Labelled { value, label })
}

// The argument with this number, which depends on the context besides, or `missing` where there is none.
#[inline(always)]
fn next_argument<T: Copy, L: Labels<Label = T>>(
    alloc: Global,
    labels: &mut L,
    args: &[Labelled<T>],
    number: usize,
    context: T,
    missing: &Labelled<T>,
) -> Result<Labelled<T>, OutOfMemory>
    requires args { All (HasValue (L.made labels.old)) args.now }
    requires context { L.made labels.old context }
    ensures next { IfOk result (IsNext L.made L.meaning labels.new context missing.now (slice_get args.now number)) }
    ensures kept { IsKept L.made L.meaning L.room L.firm labels.old labels.new }
{
    match args.get(number) {
        Some(value) => join_argument(alloc, labels, value, context),
        None => missing.copy(alloc),
    }
}

// Puts arguments in places in turn, and `missing` where there are no more. They are joined where they go: no list of them is made before.
#[inline(always)]
fn put_arguments<T: Copy, L: Labels<Label = T>>(
    alloc: Global,
    labels: &mut L,
    places: &[usize],
    args: &[Labelled<T>],
    context: T,
    missing: &Labelled<T>,
    all: &mut [Labelled<T>],
) -> Result<(), OutOfMemory>
    requires places { All (λ p. p < length all.old) places.now }
    requires args { All (HasValue (L.made labels.old)) args.now }
    requires context { L.made labels.old context }
    ensures placed { OnOk result (ForJoined L.made L.meaning labels.new context (take (length places.now) args.now) (λ vs. all.new ≡ placed missing.now places.now vs all.old)) }
    ensures length { length all.new ≡ length all.old }
    ensures kept { IsKept L.made L.meaning L.room L.firm labels.old labels.new }
{
    'places: for number in 0..places.len() {
        all[places[number]] = next_argument(alloc, labels, args, number, context, missing)?;
    }
    Ok(())
}

// Puts a value in a place, if there is one.
#[inline(always)]
fn put_if<T: Copy>(place: Option<usize>, value: Labelled<T>, all: &mut [Labelled<T>])
    requires { IfSome place (λ p. p < length all.old) }
    ensures placed { all.new ≡ placed_if place value all.old }
    ensures length { length all.new ≡ length all.old }
{
    if let Some(p) = place {
        all[p] = value;
    }
}

/// Puts the values of a call in their places, each later one over an earlier one with its place.
#[inline(always)]
pub(crate) fn fill<T: Copy, L: Labels<Label = T>>(
    alloc: Global,
    labels: &mut L,
    places: &Places,
    args: &[Labelled<T>],
    context: T,
    functions: Vec<Labelled<T>>,
    arguments: Labelled<T>,
    missing: &Labelled<T>,
    all: &mut [Labelled<T>],
) -> Result<(), OutOfMemory>
    requires parameters { All (λ p. p < length all.old) places.now.parameters.items }
    requires functions { All (λ p. p < length all.old) places.now.functions.items }
    requires arguments { IfSome places.now.arguments (λ p. p < length all.old) }
    requires args { All (HasValue (L.made labels.old)) args.now }
    requires context { L.made labels.old context }
    ensures placed { OnOk result (ForJoined L.made L.meaning labels.new context (take (length places.now.parameters.items) args.now) (λ vs. all.new ≡ placed missing.now places.now.functions.items functions.items (placed missing.now places.now.parameters.items vs (placed_if places.now.arguments arguments all.old)))) }
    ensures length { length all.new ≡ length all.old }
    ensures kept { IsKept L.made L.meaning L.room L.firm labels.old labels.new }
{
    put_if(places.arguments, arguments, all);
    put_arguments(
        alloc,
        labels,
        &places.parameters,
        args,
        context,
        missing,
        all,
    )?;
    put(alloc, &places.functions, functions, missing, all)
}
