//! Laws of heaps and of stores of labels.

ghost use Rattle.std.specs.Prelude.{◌≡◌, ℕ, List, Option, length, slice_get};
ghost use Rattle.std.specs.Option.{option_map};
ghost use Rattle.origin_labels.specs.Label.{Label};
ghost use Rattle.origin_labels.specs.Stores.{IsKept};
ghost use Rattle.js_values.specs.declared.ids.ObjId.{ObjId};
ghost use Rattle.js_values.specs.declared.inner.Class.{Class};
ghost use Rattle.js_values.specs.declared.inner.Inner.{Inner};
ghost use Rattle.js_values.specs.Objects.{Object};
ghost use Rattle.js_values.specs.Readings.{HasInner, HasHeap, read_slot, read_inner, read_heap};
ghost use Rattle.object_heap.specs.Acts.{new_object};
ghost use Rattle.object_heap.specs.Formed.{own_in, row_in};

use origin_labels::Labels;

/// Heaps that belong to a store belong to each later one, and with a further object.
pub fn objects_belong<L: Labels>()
    ensures later { (old new : L) (heap : List (Object L.Label)) → IsKept L.made L.meaning L.room L.firm old new → HasHeap (L.made old) heap → HasHeap (L.made new) heap }
    ensures object_more { (store : L) (class : Class) (proto : Option ObjId) (link structure : L.Label) (inner : Inner L.Label) (heap : List (Object L.Label)) → L.made store link → L.made store structure → HasInner (L.made store) inner → HasHeap (L.made store) heap → HasHeap (L.made store) (new_object class proto link structure inner heap) }
{}

/// With what their labels mean, heaps are looked at and grow as without it.
pub fn objects_read<L: Labels>()
    ensures length { (reading : L.Label → Label) (heap : List (Object L.Label)) → length (read_heap reading heap) ≡ length heap }
    ensures own { (reading : L.Label → Label) (key : List ℕ) (heap : List (Object L.Label)) (o : ℕ) → own_in key (slice_get (read_heap reading heap) o) ≡ option_map (read_slot reading) (own_in key (slice_get heap o)) }
    ensures row { (reading : L.Label → Label) (n : ℕ) (heap : List (Object L.Label)) (o : ℕ) → row_in n (slice_get (read_heap reading heap) o) ≡ option_map (λ r. (r.0, read_slot reading r.1)) (row_in n (slice_get heap o)) }
    ensures object_more { (reading : L.Label → Label) (class : Class) (proto : Option ObjId) (link structure : L.Label) (inner : Inner L.Label) (heap : List (Object L.Label)) → new_object class proto (reading link) (reading structure) (read_inner reading inner) (read_heap reading heap) ≡ read_heap reading (new_object class proto link structure inner heap) }
{}
