//! Laws of records and of stores of labels.

ghost use Rattle.std.specs.Prelude.{◌≡◌, ℕ, List, Option, slice_get};
ghost use Rattle.std.specs.Option.{option_map};
ghost use Rattle.origin_labels.specs.Label.{Label};
ghost use Rattle.origin_labels.specs.Stores.{IsKept};
ghost use Rattle.js_values.specs.declared.ids.EnvId.{EnvId};
ghost use Rattle.js_values.specs.declared.value.Labelled.{Labelled};
ghost use Rattle.js_values.specs.Records.{Binding, Record, lookup, bound_in};
ghost use Rattle.js_values.specs.Readings.{HasRecords, read_binding, read_records};
ghost use Rattle.env_records.specs.Acts.{new_record, bind};

use origin_labels::Labels;

/// Records that belong to a store belong to each later one, and with a further record or binding.
pub fn records_belong<L: Labels>()
    ensures later { (old new : L) (records : List (Record (Labelled L.Label))) → IsKept L.made L.meaning L.room L.firm old new → HasRecords (L.made old) records → HasRecords (L.made new) records }
    ensures record_more { (store : L) (outer : Option EnvId) (records : List (Record (Labelled L.Label))) → HasRecords (L.made store) records → HasRecords (L.made store) (new_record outer records) }
    ensures binding_more { (store : L) (i : ℕ) (b : Binding (Labelled L.Label)) (records : List (Record (Labelled L.Label))) → L.made store b.value.label → HasRecords (L.made store) records → HasRecords (L.made store) (bind i b records) }
{}

/// With what their labels mean, records are looked at and grow as without it.
pub fn records_read<L: Labels>()
    ensures bound { (reading : L.Label → Label) (name : List ℕ) (records : List (Record (Labelled L.Label))) (i : ℕ) → bound_in name (slice_get (read_records reading records) i) ≡ option_map (read_binding reading) (bound_in name (slice_get records i)) }
    ensures looked_up { (reading : L.Label → Label) (name : List ℕ) (records : List (Record (Labelled L.Label))) (i : ℕ) → lookup name (read_records reading records) i ≡ lookup name records i }
    ensures record_more { (reading : L.Label → Label) (outer : Option EnvId) (records : List (Record (Labelled L.Label))) → new_record outer (read_records reading records) ≡ read_records reading (new_record outer records) }
    ensures binding_more { (reading : L.Label → Label) (i : ℕ) (b : Binding (Labelled L.Label)) (records : List (Record (Labelled L.Label))) → bind i (read_binding reading b) (read_records reading records) ≡ read_records reading (bind i b records) }
{}
