use crate::told::holds;
use flow_text::{OutOfMemory, Text};
use js_number::{Int, Num, Primitive};
use js_values::*;
use std::alloc::Global;
use std::test::*;

// `node`: where `a[k] = 1` on an empty array gives it a length, the index is that less 1.
const INDICES: &[(&str, Option<u32>)] = &[
    ("", None),
    ("0", Some(0)),
    ("9", Some(9)),
    ("00", None),
    ("01", None),
    ("10", Some(10)),
    ("4294967294", Some(4294967294)),
    ("4294967295", None),
    ("42949672940", None),
    ("-1", None),
    ("1.0", None),
    (" 1", None),
    ("1e3", None),
    ("1a", None),
    ("/", None),
    (":", None),
];

fn key(alloc: Global, spelling: &str) -> Result<Key, OutOfMemory> {
    Ok(Key::new(Text::spelled(alloc, spelling)?))
}

fn has_index(alloc: Global, spelling: &str, index: Option<u32>) -> Result<bool, OutOfMemory> {
    Ok(key(alloc, spelling)?.index() == index)
}

#[test]
fn array_indices(rt: HostRuntime) {
    for (spelling, index) in INDICES {
        assert!(rt;
            holds(has_index(rt.alloc(), *spelling, *index)),
            "{spelling}"
        );
    }
}

// A value is the same as its copy, and with a label too, which then stands in a list.
fn is_listed(alloc: Global, value: &Value) -> Result<bool, OutOfMemory> {
    let copied = value.copy(alloc)?;
    let labelled = Labelled {
        value: copied,
        label: 5,
    };
    let again = labelled.copy(alloc)?;
    let mut list = ArgList::new(alloc);
    list.push(again)?;
    let listed = matches!(list.items(), [item] if item.value == *value && item.label == 5);
    Ok(listed && labelled.value == *value)
}

fn is_key_listed(alloc: Global, name: &Key) -> Result<bool, OutOfMemory> {
    let mut row = KeyRow::new(alloc);
    row.push(name.copy(alloc)?)?;
    Ok(matches!(row.items(), [item] if *item == *name))
}

fn copies_in_lists(alloc: Global) -> Result<bool, OutOfMemory> {
    let name = key(alloc, "x")?;
    let text = Value::Primitive(Primitive::Str(Text::spelled(alloc, "x")?));
    Ok(is_key_listed(alloc, &name)? && is_listed(alloc, &text)?)
}

fn is_number_listed(alloc: Global, n: i64) -> Result<bool, OutOfMemory> {
    match Int::new(n) {
        Some(n) => is_listed(alloc, &Value::Primitive(Primitive::Num(Num::Int(n)))),
        None => Ok(false),
    }
}

#[test]
fn values_in_lists(rt: HostRuntime) {
    let alloc = rt.alloc();
    assert!(rt; holds(copies_in_lists(alloc)));
    assert!(rt; holds(is_number_listed(alloc, 3)));
    assert!(rt; holds(is_listed(alloc, &Value::Object(ObjId(7)))));
}
