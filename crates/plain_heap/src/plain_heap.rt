//! The objects of a run before it begins.

ghost use Rattle.std.specs.Prelude.{◌≡◌, ◌<◌, ◌+◌, [], ◌∷◌, None, IfSome, IfOk, OnOk, leb, length, slice_get};
ghost use Rattle.std.specs.Option.{option_map};
ghost use Rattle.js_values.specs.Objects.{fresh_plain};
ghost use Rattle.object_heap.specs.Formed.{target_of};
ghost use Rattle.es_meaning.specs.Holders.{with_first_of, with_property_of};
ghost use Rattle.es_meaning.specs.Functions.{is_function};
ghost use Rattle.es_meaning.specs.Objects.{own_in};
ghost use Rattle.js_values.specs.Arrays.{length_key};
ghost use Rattle.es_meaning.specs.Requested.{is_function_in};
ghost use Rattle.es_meaning.specs.Start.{caller_accessor, arguments_accessor, count_property, fixed_accessor, length_property};
ghost use Rattle.plain_heap.specs.PlainObjects.{changed, with_more, seen_inner, seen_slot, objects_with};
ghost use Rattle.plain_heap.specs.Functions.{with_length, with_function_rows};

use crate::names::key_of;
use crate::numbers::{ARGUMENTS_ACCESSOR, ARRAY_LENGTH, CALLER_ACCESSOR, FIXED};
use flow_text::OutOfMemory;
use js_number::{Int, Num, Primitive};
use js_values::{Body, Class, Inner, Key, Marks, ObjId, Slot, Value};
use object_heap::Heap;
use std::alloc::Global;
use std::marker::Model;

/// Objects all of whose labels are one.
#[derive(Drop)]
pub struct PlainHeap<T> {
    heap: Heap<T>,
    label: T,
}

impl<T> Model for PlainHeap<T> {
    ghost use Rattle.std.specs.Prelude.{◌≡◌};
    ghost use Rattle.plain_heap.specs.PlainObjects.{PlainObjects, seen_objects, objects_with};

    ghost Value = { PlainObjects T };

    ghost view = { λ h. record { label = h.label; objects = seen_objects h.heap } };

    ghost invariant = { λ h. h.heap ≡ objects_with h.label (seen_objects h.heap) };
}

impl<T: Copy> PlainHeap<T> {
    /// No objects. It takes no memory.
    pub fn new(alloc: Global, label: T) -> PlainHeap<T>
        ensures { result ≡ record { label = label; objects = [] } }
    {
        PlainHeap {
            heap: Heap::new(alloc),
            label,
        }
    }

    /// How many objects there are.
    pub fn len(&self) -> u64
        ensures { result ≡ length self.now.objects }
    {
        self.heap.len()
    }

    /// Makes an extensible object without properties, which is no bound function.
    pub fn new_object(
        &mut self,
        class: Class,
        proto: Option<ObjId>,
        inner: Inner<T>,
    ) -> Result<ObjId, OutOfMemory>
        requires proto { IfSome proto (λ o. o.0 < length self.old.objects) }
        requires unbound { target_of inner ≡ None }
        ensures ok { OnOk result (self.new ≡ with_more (fresh_plain class (seen_inner inner) proto ∷ []) self.old) }
        ensures number { IfOk result (λ o. o.0 ≡ length self.old.objects) }
        ensures length { OnOk result (length self.new.objects ≡ length self.old.objects + 1) }
    {
        let o = self
            .heap
            .new_object(class, proto, self.label, self.label, inner)?;
        Ok(o)
    }

    /// The property of an object with a key, where there is one.
    pub fn own(&self, o: ObjId, key: &Key) -> Option<&Slot<T>>
        ensures { option_map (λ s. seen_slot s.now) result ≡ own_in key.now (slice_get self.now.objects o.0) }
    {
        if self.is_past(o) {
            return None;
        }
        self.heap.own(o, key)
    }

    // Whether there is no object with this number.
    fn is_past(&self, o: ObjId) -> bool
        ensures { result ≡ leb (length self.now.objects) o.0 }
    {
        self.len() <= o.0
    }

    /// Gives an object, where there is one, a property, in the place of one that it has with the key.
    pub fn give(&mut self, o: ObjId, key: Key, body: Body, marks: Marks) -> Result<(), OutOfMemory>
        ensures { OnOk result (self.new ≡ changed (with_property_of o.0 key (record { body = body; marks = marks })) self.old) }
    {
        if self.is_past(o) {
            return Ok(());
        }
        let slot = Slot {
            body,
            label: self.label,
            existence: self.label,
            marks,
        };
        self.heap.give(o, key, slot)?;
        Ok(())
    }

    /// The same under a name.
    pub fn give_named(
        &mut self,
        alloc: Global,
        o: ObjId,
        name: &str,
        body: Body,
        marks: Marks,
    ) -> Result<(), OutOfMemory>
        ensures { OnOk result (self.new ≡ changed (with_property_of o.0 name.now (record { body = body; marks = marks })) self.old) }
    {
        let key = key_of(alloc, name)?;
        self.give(o, key, body, marks)
    }

    /// The same, but a property that the object doesn't have stands in front of all others but a `length`.
    pub fn give_first(
        &mut self,
        alloc: Global,
        o: ObjId,
        name: &str,
        body: Body,
        marks: Marks,
    ) -> Result<(), OutOfMemory>
        ensures { OnOk result (self.new ≡ changed (with_first_of o.0 name.now (record { body = body; marks = marks })) self.old) }
    {
        let key = key_of(alloc, name)?;
        self.give_key_first(o, key, body, marks)
    }

    // The same under a key.
    fn give_key_first(
        &mut self,
        o: ObjId,
        key: Key,
        body: Body,
        marks: Marks,
    ) -> Result<(), OutOfMemory>
        ensures { OnOk result (self.new ≡ changed (with_first_of o.0 key (record { body = body; marks = marks })) self.old) }
    {
        if self.is_past(o) {
            return Ok(());
        }
        let slot = Slot {
            body,
            label: self.label,
            existence: self.label,
            marks,
        };
        self.heap.give_first(o, key, slot)?;
        Ok(())
    }

    /// Whether an object is a function.
    pub fn is_function(&self, o: ObjId) -> bool
        ensures { result ≡ is_function_in (slice_get self.now.objects o.0) }
    {
        if self.is_past(o) {
            return false;
        }
        is_function(self.heap.shape(o).class)
    }

    /// Gives an array its `length` (ECMA-262 15.4.5.2).
    pub fn give_array_length(&mut self, alloc: Global, o: ObjId, n: u32) -> Result<(), OutOfMemory>
        ensures { OnOk result (self.new ≡ changed (with_property_of o.0 length_key (length_property n)) self.old) }
    {
        self.give_named(alloc, o, "length", count_body(n), ARRAY_LENGTH)
    }

    /// Gives a function its `length` (ECMA-262 13.2, 15).
    pub fn give_length(&mut self, alloc: Global, o: ObjId, n: u32) -> Result<(), OutOfMemory>
        ensures { OnOk result (self.new ≡ changed (with_length o.0 n) self.old) }
    {
        self.give_named(alloc, o, "length", count_body(n), FIXED)
    }

    /// Gives a function the properties that each function has behind its own (ECMA-262 13.2).
    pub fn give_function_rows(&mut self, alloc: Global, o: ObjId) -> Result<(), OutOfMemory>
        ensures { OnOk result (self.new ≡ changed (with_function_rows o.0) self.old) }
    {
        self.give_accessor(alloc, o, "caller", CALLER_ACCESSOR)?;
        self.give_accessor(alloc, o, "arguments", ARGUMENTS_ACCESSOR)
    }

    // Gives an object an accessor that is its own getter and setter.
    fn give_accessor(
        &mut self,
        alloc: Global,
        o: ObjId,
        name: &str,
        accessor: ObjId,
    ) -> Result<(), OutOfMemory>
        ensures { OnOk result (self.new ≡ changed (with_property_of o.0 name.now (fixed_accessor accessor)) self.old) }
    {
        let body = Body::Accessor {
            get: Some(accessor),
            set: Some(accessor),
        };
        self.give_named(alloc, o, name, body, FIXED)
    }

    /// The objects, with their label.
    pub fn into_heap(self) -> Heap<T>
        ensures { result ≡ objects_with self.label self.objects }
    {
        self.heap
    }
}

// Whether objects of a class are functions.
fn is_function(class: Class) -> bool
    ensures { result ≡ is_function class }
{
    matches!(class, Class::Function)
}

// A property that holds a number.
fn count_body(n: u32) -> Body
    ensures { result ≡ (count_property n).body }
{
    let count = Int::new(i64::from(n)).unwrap();
    Body::Data(Value::Primitive(Primitive::Num(Num::Int(count))))
}
