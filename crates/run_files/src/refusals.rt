//! Why the files of a run are refused, and how that is reported.

ghost use Rattle.std.specs.Prelude.{◌≡◌, ◌++◌, Some, IfOk, codes};
ghost use Rattle.std.specs.Fmt.{decimal};
ghost use Rattle.run_files.specs.Sources.{bad_source};
ghost use Rattle.run_files.specs.Tasks.{source_kind_name, source_report, policy_kind_name, input_kind_name, input_front, at_line};
ghost use Rattle.run_files.specs.Seen.{refusal_report};

use flow_policy::{InputKind, PolicyKind};
use flow_text::{OutOfMemory, Place};
use itoa::Buffer;
use std::alloc::Global;

/// Why a source is no program, or none that can be run.
#[derive(Clone, Copy, Debug, PartialEq, Eq)]
pub enum SourceKind {
    BadToken,
    Unterminated,
    RegExpLiteral,
    NumberLiteral,
    Syntax,
    With,
    Nesting,
    Directive,
    EvalArguments,
    RepeatedParameter,
    RepeatedProperty,
    DeleteName,
    Jump,
    RepeatedLabel,
    StrictWord,
}

/// Which input of a request.
#[derive(Clone, Copy, Debug, PartialEq, Eq)]
pub enum WhichInput {
    First,
    Second,
}

/// Why the files of a run are no task, or a script that is checked is no program.
#[derive(Clone, Copy)]
pub enum Refusal<'a> {
    LongSource,
    /// The source isn't UTF-8: so many bytes are before the first bad one.
    SourceUtf8 {
        at: usize,
    },
    /// The source is refused: why, and where.
    BadSource {
        kind: SourceKind,
        place: Place,
    },
    LongPolicy,
    /// The first bad line of the policy.
    BadPolicy {
        line: usize,
        kind: PolicyKind,
    },
    /// The first name of the observer's list that is no declared origin.
    UnknownObserver {
        name: &'a str,
    },
    LongInput {
        input: WhichInput,
    },
    /// The first bad line of an input.
    BadInput {
        input: WhichInput,
        line: usize,
        kind: InputKind,
    },
    ReadFault,
    OutOfMemory,
}

impl<'a> Refusal<'a> {
    /// Its report.
    pub fn report(self, alloc: Global) -> Result<Vec<u8>, OutOfMemory>
        ensures { IfOk result (λ bytes. refusal_report self.entry ≡ Some bytes.items) }
    {
        match self {
            Refusal::LongSource => Ok(Vec::from_slice(alloc, b"! source TooLong\n")?),
            Refusal::SourceUtf8 { at } => bad_byte(alloc, at),
            Refusal::BadSource { kind, place } => bad_source(alloc, kind, place),
            Refusal::LongPolicy => Ok(Vec::from_slice(alloc, b"! policy TooLong\n")?),
            Refusal::BadPolicy { line, kind } => bad_line(
                alloc,
                b"! policy ",
                policy_kind_name(kind),
                line,
            ),
            Refusal::UnknownObserver { name } => unknown_observer(alloc, name),
            Refusal::LongInput { input } => long_input(alloc, input),
            Refusal::BadInput { input, line, kind } => bad_line(
                alloc,
                input_front(input),
                input_kind_name(kind),
                line,
            ),
            Refusal::ReadFault => Ok(Vec::from_slice(alloc, b"! read fault\n")?),
            Refusal::OutOfMemory => Err(OutOfMemory),
        }
    }
}

/// The report of a source that isn't UTF-8.
fn bad_byte(alloc: Global, at: usize) -> Result<Vec<u8>, OutOfMemory>
    ensures { IfOk result (λ bytes. bytes.items ≡ codes "! source Utf8 at byte " ++ (decimal at ++ codes "\n")) }
{
    let mut bytes = Vec::from_slice(alloc, b"! source Utf8 at byte ")?;
    bytes.extend_from_slice(Buffer::new().format(at).as_bytes())?;
    bytes.push(b'\n')?;
    Ok(bytes)
}

/// The report of a source that is refused at a place.
fn bad_source(alloc: Global, kind: SourceKind, place: Place) -> Result<Vec<u8>, OutOfMemory>
    ensures { IfOk result (λ bytes. bytes.items ≡ source_report (bad_source kind place)) }
{
    let mut bytes = Vec::from_slice(alloc, b"! source ")?;
    bytes.extend_from_slice(source_kind_name(kind))?;
    bytes.extend_from_slice(b" at ")?;
    bytes.extend_from_slice(Buffer::new().format(place.line).as_bytes())?;
    bytes.push(b':')?;
    bytes.extend_from_slice(Buffer::new().format(place.column).as_bytes())?;
    bytes.push(b'\n')?;
    Ok(bytes)
}

/// The report of a list with a name that is no declared origin.
fn unknown_observer(alloc: Global, name: &str) -> Result<Vec<u8>, OutOfMemory>
    ensures { IfOk result (λ bytes. bytes.items ≡ codes "! observer Unknown " ++ (name.now ++ codes "\n")) }
{
    let mut bytes = Vec::from_slice(alloc, b"! observer Unknown ")?;
    bytes.extend_from_slice(name.as_bytes())?;
    bytes.push(b'\n')?;
    Ok(bytes)
}

/// The report of an input that is too long.
fn long_input(alloc: Global, input: WhichInput) -> Result<Vec<u8>, OutOfMemory>
    ensures { IfOk result (λ bytes. bytes.items ≡ input_front input ++ codes "TooLong\n") }
{
    let mut bytes = Vec::from_slice(alloc, input_front(input))?;
    bytes.extend_from_slice(b"TooLong\n")?;
    Ok(bytes)
}

/// The report of a bad line.
fn bad_line(alloc: Global, front: &[u8], kind: &[u8], line: usize) -> Result<Vec<u8>, OutOfMemory>
    ensures { IfOk result (λ bytes. bytes.items ≡ front.now ++ at_line kind.now line) }
{
    let mut bytes = Vec::from_slice(alloc, front)?;
    bytes.extend_from_slice(kind)?;
    bytes.extend_from_slice(b" at line ")?;
    bytes.extend_from_slice(Buffer::new().format(line).as_bytes())?;
    bytes.push(b'\n')?;
    Ok(bytes)
}

fn source_kind_name(kind: SourceKind) -> &'static [u8]
    ensures { result.now ≡ source_kind_name kind }
{
    match kind {
        SourceKind::BadToken => b"BadToken",
        SourceKind::Unterminated => b"Unterminated",
        SourceKind::RegExpLiteral => b"RegExpLiteral",
        SourceKind::NumberLiteral => b"NumberLiteral",
        SourceKind::Syntax => b"Syntax",
        SourceKind::With => b"With",
        SourceKind::Nesting => b"Nesting",
        SourceKind::Directive => b"Directive",
        SourceKind::EvalArguments => b"EvalArguments",
        SourceKind::RepeatedParameter => b"RepeatedParameter",
        SourceKind::RepeatedProperty => b"RepeatedProperty",
        SourceKind::DeleteName => b"DeleteName",
        SourceKind::Jump => b"Jump",
        SourceKind::RepeatedLabel => b"RepeatedLabel",
        SourceKind::StrictWord => b"StrictWord",
    }
}

fn policy_kind_name(kind: PolicyKind) -> &'static [u8]
    ensures { result.now ≡ policy_kind_name kind }
{
    match kind {
        PolicyKind::Keyword => b"Keyword",
        PolicyKind::Words => b"Words",
        PolicyKind::Name => b"Name",
        PolicyKind::Unknown => b"Unknown",
        PolicyKind::Repeat => b"Repeat",
        PolicyKind::Many => b"Many",
    }
}

/// How the report of an input begins.
fn input_front(input: WhichInput) -> &'static [u8]
    ensures { result.now ≡ input_front input }
{
    match input {
        WhichInput::First => b"! input ",
        WhichInput::Second => b"! input2 ",
    }
}

fn input_kind_name(kind: InputKind) -> &'static [u8]
    ensures { result.now ≡ input_kind_name kind }
{
    match kind {
        InputKind::Utf8 => b"Utf8",
        InputKind::Channel => b"Channel",
    }
}
