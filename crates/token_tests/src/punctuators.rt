use crate::asking::{Cut, Faulty, all_cut, all_faulty};
use crate::told::holds;
use flow_text::Text;
use js_ast::TokenKind;
use js_scan::{ScanFault, scan};
use std::alloc::Global;
use std::test::*;

// Punctuator and DivPunctuator of ECMA-262 7.7.
const ALL: &str =
    "{ } ( ) [ ] . ; , < > <= >= == != === !== + - * % ++ -- << >> >>> & | ^ ! ~ && || ? : = += -= *= %= <<= >>= >>>= &= |= ^= / /=";

// No punctuator stands first in these.
const OTHERS: &[Cut] = &[
    ("", &[]),
    ("a", &[('n', "a", 0, 1, false)]),
    ("a=", &[('n', "a", 0, 1, false), ('p', "=", 1, 2, false)]),
];

const NONE: &[Faulty] = &[
    ("#", ScanFault::BadToken { at: 0 }),
    ("@", ScanFault::BadToken { at: 0 }),
    ("\"", ScanFault::Unterminated { at: 0 }),
    ("\u{FF1D}", ScanFault::BadToken { at: 0 }),
];

const LONGEST: &[Cut] = &[
    ("! =", &[('p', "!", 0, 1, false), ('p', "=", 2, 3, false)]),
    ("!a", &[('p', "!", 0, 1, false), ('n', "a", 1, 2, false)]),
    ("..", &[('p', ".", 0, 1, false), ('p', ".", 1, 2, false)]),
    ("=>", &[('p', "=", 0, 1, false), ('p', ">", 1, 2, false)]),
    ("**", &[('p', "*", 0, 1, false), ('p', "*", 1, 2, false)]),
    ("&|", &[('p', "&", 0, 1, false), ('p', "|", 1, 2, false)]),
    ("~=", &[('p', "~", 0, 1, false), ('p', "=", 1, 2, false)]),
    (
        "a/==",
        &[
            ('n', "a", 0, 1, false),
            ('p', "/=", 1, 3, false),
            ('p', "=", 3, 4, false),
        ],
    ),
    ("&&&", &[('p', "&&", 0, 2, false), ('p', "&", 2, 3, false)]),
    ("&&=", &[('p', "&&", 0, 2, false), ('p', "=", 2, 3, false)]),
    ("+++", &[('p', "++", 0, 2, false), ('p', "+", 2, 3, false)]),
    ("+-=", &[('p', "+", 0, 1, false), ('p', "-=", 1, 3, false)]),
    ("!= =", &[('p', "!=", 0, 2, false), ('p', "=", 3, 4, false)]),
    (
        "====",
        &[('p', "===", 0, 3, false), ('p', "=", 3, 4, false)],
    ),
    (
        "!===",
        &[('p', "!==", 0, 3, false), ('p', "=", 3, 4, false)],
    ),
    ("<<<", &[('p', "<<", 0, 2, false), ('p', "<", 2, 3, false)]),
    (
        "<<==",
        &[('p', "<<=", 0, 3, false), ('p', "=", 3, 4, false)],
    ),
    (
        ">>>>",
        &[('p', ">>>", 0, 3, false), ('p', ">", 3, 4, false)],
    ),
    (
        ">>>==",
        &[('p', ">>>=", 0, 4, false), ('p', "=", 4, 5, false)],
    ),
    (
        ">>> =",
        &[('p', ">>>", 0, 3, false), ('p', "=", 4, 5, false)],
    ),
];

const SLASHES: &[Cut] = &[
    (
        "a / b",
        &[
            ('n', "a", 0, 1, false),
            ('p', "/", 2, 3, false),
            ('n', "b", 4, 5, false),
        ],
    ),
    (
        "a /= b",
        &[
            ('n', "a", 0, 1, false),
            ('p', "/=", 2, 4, false),
            ('n', "b", 5, 6, false),
        ],
    ),
    (
        ")/b",
        &[
            ('p', ")", 0, 1, false),
            ('p', "/", 1, 2, false),
            ('n', "b", 2, 3, false),
        ],
    ),
    (
        "]/b",
        &[
            ('p', "]", 0, 1, false),
            ('p', "/", 1, 2, false),
            ('n', "b", 2, 3, false),
        ],
    ),
    (
        "}/b",
        &[
            ('p', "}", 0, 1, false),
            ('p', "/", 1, 2, false),
            ('n', "b", 2, 3, false),
        ],
    ),
    (
        "++/b",
        &[
            ('p', "++", 0, 2, false),
            ('p', "/", 2, 3, false),
            ('n', "b", 3, 4, false),
        ],
    ),
    (
        "--/b",
        &[
            ('p', "--", 0, 2, false),
            ('p', "/", 2, 3, false),
            ('n', "b", 3, 4, false),
        ],
    ),
    (
        "this/b",
        &[
            ('r', "this", 0, 4, false),
            ('p', "/", 4, 5, false),
            ('n', "b", 5, 6, false),
        ],
    ),
    (
        "null/true",
        &[
            ('r', "null", 0, 4, false),
            ('p', "/", 4, 5, false),
            ('r', "true", 5, 9, false),
        ],
    ),
    (
        "x.if/2",
        &[
            ('n', "x", 0, 1, false),
            ('p', ".", 1, 2, false),
            ('r', "if", 2, 4, false),
            ('p', "/", 4, 5, false),
            ('#', "2", 5, 6, false),
        ],
    ),
    (
        "'s'/2",
        &[
            ('$', "'s'", 0, 3, false),
            ('p', "/", 3, 4, false),
            ('#', "2", 4, 5, false),
        ],
    ),
    (">>>=", &[('p', ">>>=", 0, 4, false)]),
    (
        ">>>>=",
        &[('p', ">>>", 0, 3, false), ('p', ">=", 3, 5, false)],
    ),
    (
        "a+++b",
        &[
            ('n', "a", 0, 1, false),
            ('p', "++", 1, 3, false),
            ('p', "+", 3, 4, false),
            ('n', "b", 4, 5, false),
        ],
    ),
    (
        "===!==",
        &[('p', "===", 0, 3, false), ('p', "!==", 3, 6, false)],
    ),
    (
        "1..x",
        &[
            ('#', "1.", 0, 2, false),
            ('p', ".", 2, 3, false),
            ('n', "x", 3, 4, false),
        ],
    ),
];

// Behind a name, since a `/` that begins an expression is no punctuator.
fn stands_behind_name(alloc: Global, spelling: &str) -> Result<bool, ScanFault> {
    let wanted = Text::spelled(alloc, spelling)?;
    let mut source = Text::spelled(alloc, "a")?;
    source.push_units(wanted.units())?;
    let tokens = scan(alloc, &source)?;
    Ok(match tokens.as_slice() {
        [_, token] => {
            token.kind == TokenKind::Punctuator
                && token.text == wanted
                && token.from == 1
                && token.to == source.len()
        }
        _ => false,
    })
}

#[test]
fn each_punctuator(rt: HostRuntime) {
    for spelling in ALL.split(' ') {
        assert!(rt;
            holds(stands_behind_name(rt.alloc(), spelling)),
            "of {spelling}"
        );
    }
}

#[test]
fn longest_punctuators(rt: HostRuntime) {
    let alloc = rt.alloc();
    all_cut(&rt, alloc, OTHERS);
    all_faulty(&rt, alloc, NONE);
    all_cut(&rt, alloc, LONGEST);
}

#[test]
fn slashes(rt: HostRuntime) {
    all_cut(&rt, rt.alloc(), SLASHES);
}
