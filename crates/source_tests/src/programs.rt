ghost use Rattle.std.specs.Prelude.{IfOk};
ghost use Rattle.js_ast.specs.IsMarked.{IsMarked};

use flow_text::Text;
use js_ast::{Function, Program};
use js_parse::{ParseFault, parse};
use js_scan::scan;
use std::alloc::Global;
use std::test::*;

/// Why a source has no program.
#[derive(Drop)]
pub(crate) enum Refused {
    NoTokens,
    NoProgram(ParseFault),
}

pub(crate) fn parsed(alloc: Global, source: &str) -> Result<Program, Refused>
    ensures { IfOk result IsMarked }
{
    let text = Text::spelled(alloc, source).map_err(|_| Refused::NoTokens)?;
    let tokens = scan(alloc, &text).map_err(|_| Refused::NoTokens)?;
    parse(alloc, &tokens, text.len()).map_err(|fault| Refused::NoProgram(fault))
}

// How many statements a source has.
const COUNTS: &[(&str, usize)] = &[
    ("", 0),
    (";", 1),
    ("a = b\nc = d", 2),
    ("a = b\n(c)", 1),
    ("a++\n(b)", 2),
    ("a\n++b", 2),
    ("if (a) b; else c; d", 2),
    ("function f(a, b) { return a + b; } f(1, 2);", 2),
    (
        "for (var a in b) { continue; } switch (a) { case 1: break; default: }",
        2,
    ),
    ("try { throw a; } catch (e) { } finally { } debugger", 2),
    ("l: while (a) { break l }", 1),
    (
        "var o = { get a() { return [1, , 2,]; }, set a(v) { }, 'b': this, 3: null };",
        1,
    ),
];

fn has_count(alloc: Global, source: &str, count: usize) -> bool {
    match parsed(alloc, source) {
        Ok(program) => program.body.items().len() == count,
        Err(_) => false,
    }
}

#[test]
fn programs(rt: HostRuntime) {
    for (source, count) in COUNTS {
        assert!(rt; has_count(rt.alloc(), *source, *count), "{source}");
    }
}

const FAULTS: &[(&str, ParseFault)] = &[
    ("a b", ParseFault::Syntax { at: 2 }),
    ("a +", ParseFault::Syntax { at: 3 }),
    ("if (1 { }", ParseFault::Syntax { at: 6 }),
    ("with (a) { }", ParseFault::With { at: 0 }),
    ("a\nwith (b) c", ParseFault::With { at: 2 }),
    ("a with (b)", ParseFault::Syntax { at: 2 }),
    ("a; 'flow bad -'", ParseFault::Directive { at: 3 }),
    ("'flow bad -'; )", ParseFault::Syntax { at: 14 }),
];

fn has_fault(alloc: Global, source: &str, wanted: ParseFault) -> bool {
    match parsed(alloc, source) {
        Err(Refused::NoProgram(fault)) => fault == wanted,
        _ => false,
    }
}

#[test]
fn refused_tokens(rt: HostRuntime) {
    for (source, fault) in FAULTS {
        assert!(rt; has_fault(rt.alloc(), *source, *fault), "{source}");
    }
}

// How many parameters each function of a source has, and whether its code is strict.
type Marks = &'static [(usize, bool)];

const FUNCTIONS: &[(&str, Marks)] = &[
    ("a;", &[]),
    ("function f(a, b) { }", &[(2, false)]),
    (
        "a(function (b) { }); function f() { }",
        &[(1, false), (0, false)],
    ),
    (
        "function f(a) { 'use strict'; return function () { } } function g(a, b) { }",
        &[(1, true), (0, true), (2, false)],
    ),
    (
        "'a'; \"use strict\"\n({ get a() { }, set a(b) { } }); function f(a, b) { }",
        &[(0, false), (1, false), (2, false)],
    ),
    (
        "'a'; \"use strict\"; ({ get a() { }, set a(b) { } }); function f(a, b) { }",
        &[(0, true), (1, true), (2, true)],
    ),
    ("'use\\x20strict'; function f() { }", &[(0, false)]),
    ("('use strict'); function f() { }", &[(0, false)]),
    ("a; 'use strict'; function f() { }", &[(0, false)]),
    ("function f() { 'use strict' }", &[(0, true)]),
    (
        "function f() { function g() { } } ({ get a() { }, set a(b) { } }); function h() { }",
        &[(0, false), (0, false), (0, false), (1, false), (0, false)],
    ),
    (
        "function f() { 'a'; 'use strict'; function g() { } } function h() { }",
        &[(0, true), (0, true), (0, false)],
    ),
    (
        "function f() { } 'use strict'; function h() { }",
        &[(0, false), (0, false)],
    ),
];

fn mark_of(f: &Function) -> (usize, bool) {
    (f.params.items().len(), f.strict)
}

// The functions of a list.
fn has_marks(functions: &[&Function], marks: Marks) -> bool {
    functions.len() == marks.len()
        && functions
            .iter()
            .zip(marks)
            .all(|(f, mark)| mark_of(*f) == *mark)
}

fn has_functions(alloc: Global, program: &Program, marks: Marks) -> bool
    requires { IsMarked program.now }
{
    match program.functions(alloc) {
        Ok(functions) => has_marks(functions.as_slice(), marks),
        Err(_) => false,
    }
}

// The same functions, one by one.
fn has_numbers(program: &Program, marks: Marks) -> bool
    requires { IsMarked program.now }
{
    for n in 0..program.function_count {
        match marks.get(n as usize) {
            Some(mark) if *mark == mark_of(program.function(n)) => {}
            _ => return false,
        }
    }
    marks.len() == program.function_count as usize
}

fn is_marked(alloc: Global, source: &str, marks: Marks) -> bool {
    match parsed(alloc, source) {
        Ok(program) => has_functions(alloc, &program, marks) && has_numbers(&program, marks),
        Err(_) => false,
    }
}

#[test]
fn functions_with_their_marks(rt: HostRuntime) {
    for (source, marks) in FUNCTIONS {
        assert!(rt; is_marked(rt.alloc(), *source, *marks), "{source}");
    }
}
