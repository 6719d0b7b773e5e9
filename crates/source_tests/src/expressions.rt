use flow_text::Text;
use js_ast::{Expr, ExprKind, Token};
use js_parse_expr::{ParseFault, expression, statements};
use js_scan::scan;
use std::alloc::Global;
use std::process::Abort;
use std::test::*;

/// What an expression is, as far as the rows tell it.
#[derive(Clone, Copy, PartialEq, Eq)]
enum Form {
    Name,
    Paren,
    Function,
    Member,
    Call,
    Postfix,
    Binary,
    Conditional,
    Assign,
    Comma,
    Other,
}

/// What is read in front of the tokens.
#[derive(Clone, Copy, PartialEq, Eq)]
enum Answer {
    NoTokens,
    /// An expression up to the token of this index.
    Reads(usize, Form),
    /// So many statements up to the token of this index.
    Counts(usize, usize),
    Refuses(ParseFault),
}

// A source, the token from which it is read, how much is open round it, whether `in` is no operator, and what is read.
type Row = (&'static str, usize, u32, bool, Answer);

// The same of lists of statements.
type ListRow = (&'static str, usize, u32, Answer);

const LONGEST: &[Row] = &[
    ("a + b c", 0, 0, false, Answer::Reads(3, Form::Binary)),
    ("a\n(b)", 0, 0, false, Answer::Reads(4, Form::Call)),
    ("a++\n(b)", 0, 0, false, Answer::Reads(2, Form::Postfix)),
    ("a\n++b", 0, 0, false, Answer::Reads(1, Form::Name)),
    ("a, b; c", 0, 0, false, Answer::Reads(3, Form::Comma)),
    (
        "a = b ? c : d }",
        0,
        0,
        false,
        Answer::Reads(7, Form::Assign),
    ),
    ("a; b.c d", 2, 0, false, Answer::Reads(5, Form::Member)),
    ("a", 0, 0, false, Answer::Reads(1, Form::Name)),
    ("a b", 1, 0, false, Answer::Reads(2, Form::Name)),
    (
        "function () { a } b",
        0,
        0,
        false,
        Answer::Reads(6, Form::Function),
    ),
];

const OPERATOR_IN: &[Row] = &[
    ("a in b", 0, 0, false, Answer::Reads(3, Form::Binary)),
    ("a in b", 0, 0, true, Answer::Reads(1, Form::Name)),
    ("(a in b) in c", 0, 0, true, Answer::Reads(5, Form::Paren)),
    (
        "a ? b in c : d",
        0,
        0,
        true,
        Answer::Reads(7, Form::Conditional),
    ),
    ("a = b in c", 0, 0, true, Answer::Reads(3, Form::Assign)),
];

const REFUSED: &[Row] = &[
    (
        "",
        0,
        0,
        false,
        Answer::Refuses(ParseFault::Syntax { at: 0 }),
    ),
    (
        "a",
        1,
        0,
        false,
        Answer::Refuses(ParseFault::Syntax { at: 1 }),
    ),
    (
        ") a",
        0,
        0,
        false,
        Answer::Refuses(ParseFault::Syntax { at: 0 }),
    ),
    (
        "a; )",
        2,
        0,
        false,
        Answer::Refuses(ParseFault::Syntax { at: 3 }),
    ),
    (
        "a ? b",
        0,
        0,
        false,
        Answer::Refuses(ParseFault::Syntax { at: 5 }),
    ),
    (
        "a ? b; c",
        0,
        0,
        false,
        Answer::Refuses(ParseFault::Syntax { at: 5 }),
    ),
    (
        "a = with (b) c",
        0,
        0,
        false,
        Answer::Refuses(ParseFault::Syntax { at: 4 }),
    ),
    (
        "function () { with (a) b }",
        0,
        0,
        false,
        Answer::Refuses(ParseFault::With { at: 14 }),
    ),
    (
        "function () { 'flow bad -' }",
        0,
        0,
        false,
        Answer::Refuses(ParseFault::Directive { at: 14 }),
    ),
    (
        "function () { 'flow bad -' )",
        0,
        0,
        false,
        Answer::Refuses(ParseFault::Syntax { at: 27 }),
    ),
];

// A name has depth 0, and each node round it one more: below 201 with what is open.
const DEPTHS: &[Row] = &[
    ("a", 0, 200, false, Answer::Reads(1, Form::Name)),
    ("a.b", 0, 199, false, Answer::Reads(3, Form::Member)),
    (
        "a.b",
        0,
        200,
        false,
        Answer::Refuses(ParseFault::Nesting { at: 1 }),
    ),
    ("(((a)))", 0, 197, false, Answer::Reads(7, Form::Paren)),
    (
        "(((a)))",
        0,
        198,
        false,
        Answer::Refuses(ParseFault::Nesting { at: 2 }),
    ),
];

const LISTS: &[ListRow] = &[
    ("", 0, 0, Answer::Counts(0, 0)),
    ("}", 0, 0, Answer::Counts(0, 0)),
    ("a; b", 0, 0, Answer::Counts(3, 2)),
    ("a; b } c", 0, 0, Answer::Counts(3, 2)),
    ("{ a } }", 0, 0, Answer::Counts(3, 1)),
    ("f() { a; return b } c", 4, 0, Answer::Counts(8, 2)),
    ("a", 1, 0, Answer::Counts(1, 0)),
    ("function f() { } g", 0, 0, Answer::Counts(7, 2)),
    ("'flow exc -'; }", 0, 0, Answer::Counts(2, 1)),
];

const REFUSED_LISTS: &[ListRow] = &[
    (
        "case a:",
        0,
        0,
        Answer::Refuses(ParseFault::Syntax { at: 0 }),
    ),
    (
        "a; case",
        0,
        0,
        Answer::Refuses(ParseFault::Syntax { at: 3 }),
    ),
    ("a b", 0, 0, Answer::Refuses(ParseFault::Syntax { at: 2 })),
    ("if (a", 0, 0, Answer::Refuses(ParseFault::Syntax { at: 5 })),
    (
        "{ a; )",
        1,
        0,
        Answer::Refuses(ParseFault::Syntax { at: 5 }),
    ),
    (
        "a; with (b) { }",
        0,
        0,
        Answer::Refuses(ParseFault::With { at: 3 }),
    ),
    (
        "a; 'flow bad -'; }",
        0,
        0,
        Answer::Refuses(ParseFault::Directive { at: 3 }),
    ),
    (
        "'flow bad -'; )",
        0,
        0,
        Answer::Refuses(ParseFault::Syntax { at: 14 }),
    ),
];

const DEPTHS_OF_LISTS: &[ListRow] = &[
    ("a;", 0, 200, Answer::Counts(2, 1)),
    ("{ }", 0, 199, Answer::Counts(2, 1)),
    (
        "{ }",
        0,
        200,
        Answer::Refuses(ParseFault::Nesting { at: 0 }),
    ),
    ("((a))", 0, 198, Answer::Counts(5, 1)),
    (
        "((a))",
        0,
        199,
        Answer::Refuses(ParseFault::Nesting { at: 1 }),
    ),
];

fn form_of(e: &Expr) -> Form {
    match &*e.kind {
        ExprKind::Name(_) => Form::Name,
        ExprKind::Paren(_) => Form::Paren,
        ExprKind::Function(_) => Form::Function,
        ExprKind::Member { .. } => Form::Member,
        ExprKind::Call { .. } => Form::Call,
        ExprKind::Postfix { .. } => Form::Postfix,
        ExprKind::Binary { .. } => Form::Binary,
        ExprKind::Conditional { .. } => Form::Conditional,
        ExprKind::Assign { .. } => Form::Assign,
        ExprKind::Comma { .. } => Form::Comma,
        _ => Form::Other,
    }
}

/// The tokens of a source, and the place behind its last unit.
pub(crate) fn scanned(alloc: Global, source: &str) -> Option<(Vec<Token>, usize)> {
    let text = Text::spelled(alloc, source).ok()?;
    let tokens = scan(alloc, &text).ok()?;
    Some((tokens, text.len()))
}

fn read_expression(alloc: Global, source: &str, from: usize, deep: u32, no_in: bool) -> Answer {
    let Some((tokens, end)) = scanned(alloc, source) else {
        return Answer::NoTokens;
    };
    if from > tokens.len() || deep > 200 {
        return Answer::NoTokens;
    }
    match expression(alloc, &tokens, from, deep, no_in, end) {
        Ok((found, to)) => Answer::Reads(to, form_of(&found)),
        Err(fault) => Answer::Refuses(fault),
    }
}

fn read_statements(alloc: Global, source: &str, from: usize, deep: u32) -> Answer {
    let Some((tokens, end)) = scanned(alloc, source) else {
        return Answer::NoTokens;
    };
    if from > tokens.len() || deep > 200 {
        return Answer::NoTokens;
    }
    match statements(alloc, &tokens, from, deep, end) {
        Ok((list, to)) => Answer::Counts(to, list.items().len()),
        Err(fault) => Answer::Refuses(fault),
    }
}

fn expressions(rt: &impl Abort, alloc: Global, rows: &[Row]) {
    for (source, from, deep, no_in, answer) in rows {
        let read = read_expression(alloc, *source, *from, *deep, *no_in);
        assert!(rt; read == *answer, "{source}");
    }
}

fn lists(rt: &impl Abort, alloc: Global, rows: &[ListRow]) {
    for (source, from, deep, answer) in rows {
        let read = read_statements(alloc, *source, *from, *deep);
        assert!(rt; read == *answer, "{source}");
    }
}

#[test]
fn expressions_in_front(rt: HostRuntime) {
    let alloc = rt.alloc();
    expressions(&rt, alloc, LONGEST);
    expressions(&rt, alloc, OPERATOR_IN);
    expressions(&rt, alloc, REFUSED);
    expressions(&rt, alloc, DEPTHS);
}

#[test]
fn statements_in_front(rt: HostRuntime) {
    let alloc = rt.alloc();
    lists(&rt, alloc, LISTS);
    lists(&rt, alloc, REFUSED_LISTS);
    lists(&rt, alloc, DEPTHS_OF_LISTS);
}
