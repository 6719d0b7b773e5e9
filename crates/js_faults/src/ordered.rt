//! Nodes with keys, of which an order by key is known: those that repeat the key of an earlier one.

ghost use Rattle.std.specs.Prelude.{◌≡◌, ◌<◌, ◌-◌, ◌&&◌, [], map, length, nat_lt, slice_index, true};
ghost use Rattle.std.specs.Ordering.{nat_cmp, is_lt};
ghost use Rattle.std.specs.Cmp.Lexicographic.{slice_cmp};
ghost use Rattle.js_ast.specs.Orders.{rank, IsOrder};
ghost use Rattle.js_faults.specs.Faults.{first_of};
ghost use Rattle.js_faults.specs.Ordered.{Entry, nth, keys_of, are_parts, of_repeats, rises_at, same_at, has_third, clashes_at, told_in_order};

use crate::fault::{EarlyError, EarlyErrorKind, earlier, fault_if};
use std::cmp::Ordering;

/// A node with a key.
pub(crate) trait Keyed {
    ghost entry: { Self → Entry };

    /// How its key stands to another's.
    fn compared(&self, other: &Self) -> Ordering
        ensures { result ≡ slice_cmp nat_cmp (entry self.now).key (entry other.now).key };

    /// Whether the two are a getter and a setter.
    fn is_pair(&self, other: &Self) -> bool
        ensures { result ≡ are_parts (entry self.now) (entry other.now) };

    /// Where it stands in the source.
    fn place(&self) -> usize
        ensures { result ≡ (entry self.now).at };
}

fn node<T: Keyed>(nodes: &[T], i: usize) -> &T
    requires { i < length nodes.now }
    ensures { T.entry result.now ≡ nth (map T.entry nodes.now) i }
{
    &nodes[i]
}

/// Whether a node goes before another: by its key, or by its place in the list where they have one key.
#[tactic(auto, using(crate::proofs::Runs::key_at))]
fn ranks_before<T: Keyed>(nodes: &[T], i: usize, j: usize) -> bool
    requires first { i < length nodes.now }
    requires second { j < length nodes.now }
    ensures { result ≡ is_lt (rank (keys_of (map T.entry nodes.now)) i j) }
{
    let keys = node(nodes, i).compared(node(nodes, j));
    keys.then(i.cmp(&j)).is_lt()
}

// Whether a node stands at a place of the order, behind the one in front of it, which stands there.
fn stands_at<T: Keyed>(nodes: &[T], order: &[usize], p: usize) -> bool
    requires place { p < length order.now }
    requires before { 0 < p → slice_index order.now (p - 1) < length nodes.now }
    ensures { result ≡ (nat_lt (slice_index order.now p) (length nodes.now) && rises_at (keys_of (map T.entry nodes.now)) order.now p) }
{
    order[p] < nodes.len() && (p == 0 || ranks_before(nodes, order[p - 1], order[p]))
}

/// Whether each node has one place in the order, by key.
pub(crate) fn is_order<T: Keyed>(nodes: &[T], order: &[usize]) -> bool
    ensures yes { result ≡ true → IsOrder (keys_of (map T.entry nodes.now)) order.now }
    ensures no { IsOrder (keys_of (map T.entry nodes.now)) order.now → result ≡ true }
{
    if order.len() != nodes.len() {
        return false;
    }
    'places: for p in 0..order.len() {
        if !stands_at(nodes, order, p) {
            return false;
        }
    }
    true
}

fn node_at<'a, T: Keyed>(nodes: &'a [T], order: &[usize], p: usize) -> &'a T
    requires order { IsOrder (keys_of (map T.entry nodes.now)) order.now }
    requires place { p < length order.now }
    ensures { T.entry result.now ≡ nth (map T.entry nodes.now) (slice_index order.now p) }
{
    node(nodes, order[p])
}

fn same_at<T: Keyed>(nodes: &[T], order: &[usize], p: usize, q: usize) -> bool
    requires order { IsOrder (keys_of (map T.entry nodes.now)) order.now }
    requires first { p < length order.now }
    requires second { q < length order.now }
    ensures { result ≡ same_at (map T.entry nodes.now) order.now p q }
{
    node_at(nodes, order, p)
        .compared(node_at(nodes, order, q))
        .is_eq()
}

// Whether a neighbour but the one in front has the key.
fn has_third<T: Keyed>(nodes: &[T], order: &[usize], p: usize) -> bool
    requires order { IsOrder (keys_of (map T.entry nodes.now)) order.now }
    requires place { p < length order.now }
    ensures { result ≡ has_third (map T.entry nodes.now) order.now p }
{
    p > 1 && same_at(nodes, order, p, p - 2)
        || p + 1 < order.len() && same_at(nodes, order, p, p + 1)
}

// Whether the node may not stand behind an earlier one.
fn clashes_at<T: Keyed>(nodes: &[T], order: &[usize], p: usize) -> bool
    requires order { IsOrder (keys_of (map T.entry nodes.now)) order.now }
    requires place { p < length order.now }
    ensures { result ≡ clashes_at (map T.entry nodes.now) order.now p }
{
    p > 0
        && same_at(nodes, order, p, p - 1)
        && (!node_at(nodes, order, p).is_pair(node_at(nodes, order, p - 1))
            || has_third(nodes, order, p))
}

fn told_at<T: Keyed>(
    nodes: &[T],
    order: &[usize],
    p: usize,
    kind: EarlyErrorKind,
) -> Option<EarlyError>
    requires order { IsOrder (keys_of (map T.entry nodes.now)) order.now }
    requires place { p < length order.now }
    ensures { result ≡ first_of (told_in_order kind (map T.entry nodes.now) order.now p) }
{
    let repeated = clashes_at(nodes, order, p);
    fault_if(repeated, node_at(nodes, order, p).place(), kind)
}

/// What is told of the nodes that repeat an earlier one, by their neighbours in the order.
pub(crate) fn of_ordered<T: Keyed>(
    nodes: &[T],
    order: &[usize],
    kind: EarlyErrorKind,
) -> Option<EarlyError>
    requires { IsOrder (keys_of (map T.entry nodes.now)) order.now }
    ensures { result ≡ first_of (of_repeats kind (map T.entry nodes.now) [] (map T.entry nodes.now)) }
{
    let mut first = None;
    'places: for p in 0..order.len() {
        first = earlier(first, told_at(nodes, order, p, kind));
    }
    first
}
