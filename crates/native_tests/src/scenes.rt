ghost use Rattle.std.specs.Prelude.{◌<◌, IfSome, length};

use flow_text::{OutOfMemory, Text};
use js_number::{Int, Num, Primitive, to_text};
use js_values::{Class, Key};
use native_protocol::{Answer, ErrorKind, Natives, Request, Seen};
use std::alloc::Global;

/// What a built-in is told behind its beginning.
#[derive(Clone, Copy)]
pub(crate) enum Told {
    Done,
    Undefined,
    Null,
    True,
    Number(i64),
    Text(&'static str),
    Object(Class),
}

/// A built-in by its holder and name, how many arguments it has, whether it constructs, what it is told, and what it asks for then.
pub(crate) type Scene = (
    &'static str,
    &'static str,
    u64,
    bool,
    &'static [Told],
    &'static str,
);

/// Whether it asks for that.
pub(crate) fn plays<N: Natives>(
    alloc: Global,
    natives: &N,
    scene: &Scene,
) -> Result<bool, OutOfMemory> {
    let (holder, name, argc, construct, told, expected) = *scene;
    match number_of(natives, holder, name) {
        Some(which) => {
            let mut state = natives.start(alloc, which, argc, construct)?;
            let asked = asked_behind(alloc, natives, &mut state, told)?;
            is_spelled(alloc, asked, expected)
        }
        None => Ok(false),
    }
}

// What is asked for behind the beginning and these answers.
fn asked_behind<N: Natives>(
    alloc: Global,
    natives: &N,
    state: &mut N::State,
    told: &[Told],
) -> Result<Text, OutOfMemory> {
    let mut asked = asked_next(alloc, natives, state, Answer::Begin)?;
    for one in told {
        asked = asked_next(alloc, natives, state, answer_of(alloc, *one)?)?;
    }
    Ok(asked)
}

fn asked_next<N: Natives>(
    alloc: Global,
    natives: &N,
    state: &mut N::State,
    answer: Answer,
) -> Result<Text, OutOfMemory> {
    let request = natives.next(state, answer)?;
    shown(alloc, &request)
}

fn is_spelled(alloc: Global, text: Text, expected: &str) -> Result<bool, OutOfMemory> {
    Ok(text == Text::spelled(alloc, expected)?)
}

fn number_of<N: Natives>(natives: &N, holder: &str, name: &str) -> Option<u32>
    ensures { IfSome result (λ which. which < length (N.entries natives.now)) }
{
    for which in 0..natives.count() {
        let entry = natives.entry(which);
        if entry.holder == holder && entry.name == name {
            return Some(which);
        }
    }
    None
}

fn answer_of(alloc: Global, told: Told) -> Result<Answer, OutOfMemory> {
    let value = match told {
        Told::Done => return Ok(Answer::Done),
        Told::Object(class) => return Ok(Answer::Seen(Seen::Object(class))),
        Told::Undefined => Primitive::Undefined,
        Told::Null => Primitive::Null,
        Told::True => Primitive::Bool(true),
        Told::Number(n) => match Int::new(n) {
            Some(n) => Primitive::Num(Num::Int(n)),
            None => Primitive::Undefined,
        },
        Told::Text(text) => Primitive::Str(Text::spelled(alloc, text)?),
    };
    Ok(Answer::Seen(Seen::Prim(value)))
}

// A request in a word, with what tells it from others.
fn shown(alloc: Global, request: &Request) -> Result<Text, OutOfMemory> {
    match request {
        Request::Look { reg } => numbered(alloc, "look ", reg.0),
        Request::Make { value, .. } => named(alloc, "make ", &to_text(alloc, value)?),
        Request::Same { .. } => Text::spelled(alloc, "same"),
        Request::Get { key, .. } => keyed(alloc, "get ", key),
        Request::Has { key, .. } => keyed(alloc, "has ", key),
        Request::Own { key, .. } => keyed(alloc, "own ", key),
        Request::Define { key, .. } => keyed(alloc, "define ", key),
        Request::Keys { all: true, .. } => Text::spelled(alloc, "all keys"),
        Request::Keys { .. } => Text::spelled(alloc, "keys"),
        Request::Proto { .. } => Text::spelled(alloc, "proto"),
        Request::Extensible { .. } => Text::spelled(alloc, "extensible"),
        Request::Prevent { .. } => Text::spelled(alloc, "prevent"),
        Request::New { .. } => Text::spelled(alloc, "new"),
        Request::ReadLine { .. } => Text::spelled(alloc, "line"),
        Request::PrintLine { .. } => Text::spelled(alloc, "print"),
        Request::Label { origins, .. } => {
            numbered(alloc, "label ", origins.items().len() as u64)
        }
        Request::Return { from } => numbered(alloc, "return ", from.0),
        Request::ThrowNew { kind } => thrown(alloc, *kind),
        Request::Leave { name } => named(alloc, "leave ", name),
        _ => Text::spelled(alloc, "other"),
    }
}

fn named(alloc: Global, word: &str, name: &Text) -> Result<Text, OutOfMemory> {
    Text::spelled(alloc, word)?.concat(alloc, name)
}

fn keyed(alloc: Global, word: &str, key: &Key) -> Result<Text, OutOfMemory> {
    named(alloc, word, key.text())
}

fn numbered(alloc: Global, word: &str, n: u64) -> Result<Text, OutOfMemory> {
    let mut text = Text::spelled(alloc, word)?;
    text.push_decimal((n % 1000) as i64)?;
    Ok(text)
}

fn thrown(alloc: Global, kind: ErrorKind) -> Result<Text, OutOfMemory> {
    match kind {
        ErrorKind::TypeError => Text::spelled(alloc, "throw TypeError"),
        ErrorKind::RangeError => Text::spelled(alloc, "throw RangeError"),
        _ => Text::spelled(alloc, "throw"),
    }
}
