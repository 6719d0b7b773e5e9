use crate::asking::{POLICY, RUN, answers, files, two_lines};
use crate::told::holds;
use flow_text::OutOfMemory;
use js_shell::*;
use std::alloc::Global;
use std::process::Abort;

const CHECK: &[&str] = &["check", "s"];

// A script, an input, and what a run writes and answers.
type Run = (&'static str, &'static str, &'static str, Status);

const RUNS: &[Run] = &[
    ("", "", "! done\n", Status::Done),
    (" \n\n ", "", "! done\n", Status::Done),
    (
        "print(\"pub\", \"hi\");",
        "",
        "pub hi\n! done\n",
        Status::Done,
    ),
    (
        "print(\"pub\", read(\"pin\"));",
        "pin 7\n",
        "! stopped W12 need A have -\n",
        Status::Stopped,
    ),
    (
        "print(\"pub\", \"a\");\nprint(\"pub\", \"b\" + read(\"pin\"));\nprint(\"pub\", \"c\");",
        "pin 7\n",
        "pub a\n! stopped W12 need A have -\n",
        Status::Stopped,
    ),
    (
        "print(\"all\", read(\"pin\")); print(\"all\", read(\"pin\"));",
        "pin 1",
        "all 1\nall undefined\n! done\n",
        Status::Done,
    ),
    (
        "print(\"all\", read(\"pin\") + \"-\" + read(\"note\") + read(\"pin\"));",
        "note n\npin 1\nnote m\npin 2\n",
        "all 1-n2\n! done\n",
        Status::Done,
    ),
    (
        "print(\"pub\", read(\"note\")); print(\"pub\", \"x\" + read(\"note\"));",
        "note a\\b\rc\n",
        "pub a\\\\b\\rc\npub xundefined\n! done\n",
        Status::Done,
    ),
    (
        "print(\"pub\", \"a\"); print(\"zzz\", \"b\"); print(\"pub\", \"c\");",
        "",
        "pub a\n! left channel\n",
        Status::Left,
    ),
    (
        "print(\"pub\", read(\"zzz\"));",
        "",
        "! left channel\n",
        Status::Left,
    ),
    (
        "print(\"pub\", read(\"note\") + read(\"note\") + \"x\");",
        "",
        "pub NaNx\n! done\n",
        Status::Done,
    ),
    (
        "print(\"pub\", read(\"note\") / 2);",
        "note 1\n",
        "! left number\n",
        Status::Left,
    ),
    (
        "print(\"pub\", \"x\" + read(\"note\") + read(\"note\"));",
        "",
        "pub xundefinedundefined\n! done\n",
        Status::Done,
    ),
    (
        "",
        "pin 1\npox 2\n",
        "! input Channel at line 2\n",
        Status::Policy,
    ),
];

// Spellings of scripts.
const SPELLINGS: &[Run] = &[
    (
        "print(\"pub\",\"hi\");",
        "",
        "pub hi\n! done\n",
        Status::Done,
    ),
    (
        "print(\"pub\", \"hi\")",
        "",
        "pub hi\n! done\n",
        Status::Done,
    ),
    (
        "print(\"pub\", \"a\")\nprint(\"pub\", \"b\")",
        "",
        "pub a\npub b\n! done\n",
        Status::Done,
    ),
    (
        "\tprint (\r\n\"pub\" ,\t\"hi\"\u{a0}) ;\u{2028}",
        "",
        "pub hi\n! done\n",
        Status::Done,
    ),
    (
        "// a\nprint(/* b */\"pub\", \"hi\"/* c\n */);// d",
        "",
        "pub hi\n! done\n",
        Status::Done,
    ),
    (
        "pr\\u0069nt('pub', 'hi');",
        "",
        "pub hi\n! done\n",
        Status::Done,
    ),
    (
        "print(\"p\\x75b\", 'a' +\"b\"+'c');",
        "",
        "pub abc\n! done\n",
        Status::Done,
    ),
    (
        "print(\"pub\", \"\u{e9}\");",
        "",
        "pub \u{e9}\n! done\n",
        Status::Done,
    ),
    (
        "print(\"pub\", '\"');",
        "",
        "pub \"\n! done\n",
        Status::Done,
    ),
    (
        "print(\"pub\", \"a\\b\");",
        "",
        "pub a\u{8}\n! done\n",
        Status::Done,
    ),
    (
        "print(\"pub\",\"a\\nb\\\\c\\uD800\");",
        "",
        "pub a\\nb\\\\c\u{fffd}\n! done\n",
        Status::Done,
    ),
    (
        "print(\"pub\",\"a\");print(\"pub\",\"b\");",
        "",
        "pub a\npub b\n! done\n",
        Status::Done,
    ),
];

// Scripts with variables, branches and loops.
const SCRIPTS: &[Run] = &[
    (
        "var x = 0; if (read(\"pin\") == \"1\") x = 1; print(\"pub\", x);",
        "pin 1\n",
        "! stopped W1 need A have -\n",
        Status::Stopped,
    ),
    (
        "var x = 0; if (read(\"pin\") == \"1\") x = 1; print(\"pub\", x);",
        "pin 2\n",
        "pub 0\n! done\n",
        Status::Done,
    ),
    (
        "var x = lbl(0, \"A\"); if (read(\"pin\") == \"1\") x = 1; print(\"all\", x);",
        "pin 1\n",
        "all 1\n! done\n",
        Status::Done,
    ),
    (
        "print(\"pub\", 9007199254740990 + 1); print(\"pub\", 9007199254740991 + 1);",
        "",
        "pub 9007199254740991\n! left number\n",
        Status::Left,
    ),
    (
        "print(\"pub\", (-7 % 3) + \",\" + (1 << 31) + \",\" + (-1 >>> 0) + \",\" + \"5\" * \"4\" + \",\" + (\"5\" + 4));",
        "",
        "pub -1,-2147483648,4294967295,20,54\n! done\n",
        Status::Done,
    ),
    ("lbl(1, \"Z\");", "", "! left origin\n", Status::Left),
    (
        "print(\"pub\", print(\"pub\", \"a\"));",
        "",
        "pub a\npub undefined\n! done\n",
        Status::Done,
    ),
    ("print();", "", "! left channel\n", Status::Left),
    (
        "if (read(\"pin\")) read(\"note\");",
        "pin 1\nnote x\n",
        "! stopped W11 need A have -\n",
        Status::Stopped,
    ),
    (
        "print(\"pub\", typeof y); print(\"pub\", y);",
        "",
        "pub undefined\n! threw object Error ReferenceError\n",
        Status::Threw,
    ),
    (
        "undefined = 1;",
        "",
        "! threw object Error TypeError\n",
        Status::Threw,
    ),
    (
        "if (read(\"pin\")) y;",
        "pin 1\n",
        "! stopped W9 need A have -\n",
        Status::Stopped,
    ),
    (
        "var a = \"1\"; print(\"pub\", a++); print(\"pub\", ++a); a -= 1; print(\"pub\", a--); print(\"pub\", a);",
        "",
        "pub 1\npub 3\npub 2\npub 1\n! done\n",
        Status::Done,
    ),
    (
        "var x = 1; x += x = 10; print(\"pub\", x);",
        "",
        "pub 11\n! done\n",
        Status::Done,
    ),
    (
        "print(\"pub\", 0 && print(\"pub\", \"no\")); print(\"pub\", 1 || print(\"pub\", \"no\"));",
        "",
        "pub 0\npub 1\n! done\n",
        Status::Done,
    ),
    (
        "print(\"pub\", 0 ? print(\"pub\", \"no\") : \"other\");",
        "",
        "pub other\n! done\n",
        Status::Done,
    ),
    (
        "var i = 0; while (i < 3) i++; do i++; while (i < 5); print(\"pub\", i);",
        "",
        "pub 5\n! done\n",
        Status::Done,
    ),
    (
        "for (var i = 0, s = \"\"; i < 3; i++) { s = s + i; } print(\"pub\", s);",
        "",
        "pub 012\n! done\n",
        Status::Done,
    ),
    (
        "var i = 0; while (read(\"pin\") !== undefined) i++;",
        "pin 1\n",
        "! stopped W1 need A have -\n",
        Status::Stopped,
    ),
    (
        "var i = lbl(0, \"A\"); while (read(\"pin\") !== undefined) i++; print(\"all\", i);",
        "pin 1\npin 2\n",
        "all 2\n! done\n",
        Status::Done,
    ),
    (
        "var x; { var y = (x, null); } debugger; print(\"pub\", y + 1);",
        "",
        "pub 1\n! done\n",
        Status::Done,
    ),
    (
        "print(\"pub\", !0); print(\"pub\", -\"2\"); print(\"pub\", ~1); print(\"pub\", void 0); print(\"pub\", +true);",
        "",
        "pub true\npub -2\npub -2\npub undefined\npub 1\n! done\n",
        Status::Done,
    ),
    (
        "if (1 < \"2\") print(\"pub\", \"then\"); else print(\"pub\", \"else\");",
        "",
        "pub then\n! done\n",
        Status::Done,
    ),
    (
        "print(\"pub\", 1 === 1); print(\"pub\", \"1\" != 1);",
        "",
        "pub true\npub false\n! done\n",
        Status::Done,
    ),
];

// Scripts with getters, setters, attributes, conversions and built-ins as values.
const BUILT_INS: &[Run] = &[
    (
        "var o = { get x() { return 7; } }; print(\"pub\", o.x); o.x = 1;",
        "",
        "pub 7\n! threw object Error TypeError\n",
        Status::Threw,
    ),
    (
        "print(\"pub\", { valueOf: function () { return 3; } } + 1);",
        "",
        "pub 4\n! done\n",
        Status::Done,
    ),
    (
        "var p = print; p(\"pub\", typeof p); print(\"pub\", {});",
        "",
        "pub function\npub [object Object]\n! done\n",
        Status::Done,
    ),
    (
        "print(\"pub\", Math.max(1, 9, 3) + Math.abs(-5)); Math.PI;",
        "",
        "pub 14\n! left Math.PI\n",
        Status::Left,
    ),
    ("Date;", "", "! left Date\n", Status::Left),
    ("eval(\"1\");", "", "! left eval\n", Status::Left),
    (
        "var o = { p: 1 }; if (read(\"pin\") == \"1\") Object.defineProperty(o, \"p\", { enumerable: false });",
        "pin 1\n",
        "! stopped W6 need A have -\n",
        Status::Stopped,
    ),
    (
        "var o = { p: 1 }; o.p = lbl(2, \"A\"); Object.defineProperty(o, \"p\", { value: lbl(2, \"A\") });",
        "",
        "! stopped W6 need A have -\n",
        Status::Stopped,
    ),
    ("Object.freeze({});", "", "! done\n", Status::Done),
];

// Scripts with functions, exceptions and jumps.
const FUNCTIONS: &[Run] = &[
    (
        "function f(a, b) { return a + b; } print(\"pub\", f(1, 2));",
        "",
        "pub 3\n! done\n",
        Status::Done,
    ),
    (
        "function F() { this.x = 1; } F.prototype.y = 2; var o = new F(); print(\"pub\", o.x + o.y); print(\"pub\", o instanceof F);",
        "",
        "pub 3\npub true\n! done\n",
        Status::Done,
    ),
    (
        "var r = \"\"; try { throw 1; } catch (e) { r += e; } finally { r += \"f\"; } print(\"pub\", r);",
        "",
        "pub 1f\n! done\n",
        Status::Done,
    ),
    (
        "if (read(\"pin\")) throw 1;",
        "pin 1\n",
        "! stopped W9 need A have -\n",
        Status::Stopped,
    ),
    (
        "switch (2) { case 1: print(\"pub\", 1); case 2: print(\"pub\", 2); case 3: print(\"pub\", 3); break; default: print(\"pub\", 0); }",
        "",
        "pub 2\npub 3\n! done\n",
        Status::Done,
    ),
    (
        "a: for (var i = 0; i < 3; i++) { for (;;) { if (i == 1) break a; continue a; } } print(\"pub\", i);",
        "",
        "pub 1\n! done\n",
        Status::Done,
    ),
    ("throw \"x\";", "", "! threw string x\n", Status::Threw),
];

// A source, and its report.
type Report = (&'static str, &'static str);

// Sources that are no programs, with the report of a run and of a check.
const REFUSED: &[Report] = &[
    ("var r = /a/;", "! source RegExpLiteral at 1:9\n"),
    ("#", "! source BadToken at 1:1\n"),
    ("'abc", "! source Unterminated at 1:1\n"),
    ("/* abc", "! source Unterminated at 1:1\n"),
    ("010;", "! source NumberLiteral at 1:1\n"),
    (
        "print(\"pub\", \"a\");\r\n  @",
        "! source BadToken at 2:3\n",
    ),
    (
        "print(\"pub\", \"a\");\r\r\n\u{2028}'",
        "! source Unterminated at 4:1\n",
    ),
    ("print(\"pub\", '\\x4');", "! source BadToken at 1:15\n"),
    ("var x; #", "! source BadToken at 1:8\n"),
    ("print(\"pub\" \"hi\");", "! source Syntax at 1:13\n"),
    ("print(\"pub\", );", "! source Syntax at 1:14\n"),
    ("print(\"pub\", \"a\" \"b\");", "! source Syntax at 1:18\n"),
    ("print(\"pub\", \"a\" + );", "! source Syntax at 1:20\n"),
    (
        "print(\"pub\", \"a\" ++ \"b\");",
        "! source Syntax at 1:18\n",
    ),
    ("if (1 { }", "! source Syntax at 1:7\n"),
    ("with (a) {}", "! source With at 1:1\n"),
    ("\"flow bad -\";", "! source Directive at 1:1\n"),
    ("eval = 1;", "! source EvalArguments at 1:1\n"),
    (
        "function f(a, a) {}",
        "! source RepeatedParameter at 1:15\n",
    ),
    ("({ a: 1, a: 2 });", "! source RepeatedProperty at 1:10\n"),
    ("delete x;", "! source DeleteName at 1:8\n"),
    ("break;", "! source Jump at 1:1\n"),
    ("a: a: ;", "! source RepeatedLabel at 1:4\n"),
    ("var yield;", "! source StrictWord at 1:5\n"),
];

// Array literals, and what a run prints.
const ARRAYS: &[Report] = &[
    (
        "var a = [1, , 2]; print(\"pub\", a.length + \"\" + (1 in a) + a[2]);",
        "pub 3false2\n! done\n",
    ),
    (
        "var a = []; a[4] = 1; a.length = 2; print(\"pub\", \"\" + a.length);",
        "pub 2\n! done\n",
    ),
    ("[].length = -1;", "! threw object Error RangeError\n"),
];

// A policy, and what a run of the empty script under it writes.
const POLICIES: &[(&str, &str, Status)] = &[
    ("", "! done\n", Status::Done),
    ("# none\n\n", "! done\n", Status::Done),
    ("in pin Z", "! policy Unknown at line 1\n", Status::Policy),
    (
        "origin A\norigin A",
        "! policy Repeat at line 2\n",
        Status::Policy,
    ),
    ("label A", "! policy Keyword at line 1\n", Status::Policy),
    ("origin", "! policy Words at line 1\n", Status::Policy),
    ("origin A-B", "! policy Name at line 1\n", Status::Policy),
    (
        "\n# x\r\n  \nin pin A-B",
        "! policy Name at line 4\n",
        Status::Policy,
    ),
];

// Words, and what a call with them writes over files that are there.
const WORDS: &[(&[&str], &str, Status)] = &[
    (&[], "! usage\n", Status::Usage),
    (&["check"], "! usage\n", Status::Usage),
    (&["check", "s", "s"], "! usage\n", Status::Usage),
    (&["run", "s"], "! usage\n", Status::Usage),
    (&["check", "s"], "! accepted\n", Status::Done),
    (&["check", "absent"], "! read fault\n", Status::ReadFault),
    (&["run", "a", "b"], "! usage\n", Status::Usage),
    (&["run", "s", "p", "i", "x"], "! usage\n", Status::Usage),
    (&["check", "s", "p", "i"], "! usage\n", Status::Usage),
    (
        &["run", "absent", "p", "i"],
        "! read fault\n",
        Status::ReadFault,
    ),
    (
        &["run", "s", "absent", "i"],
        "! read fault\n",
        Status::ReadFault,
    ),
    (
        &["run", "s", "p", "absent"],
        "! read fault\n",
        Status::ReadFault,
    ),
    (
        &["run", "s", "p", "i"],
        "pub a\npub b\n! done\n",
        Status::Done,
    ),
];

const NUMBERS: &[(Status, u8)] = &[
    (Status::Done, 0),
    (Status::Threw, 1),
    (Status::Usage, 2),
    (Status::Source, 3),
    (Status::Policy, 4),
    (Status::Stopped, 5),
    (Status::Left, 6),
    (Status::OutOfTurns, 7),
    (Status::ReadFault, 8),
    (Status::WriteFault, 9),
    (Status::OutOfMemory, 10),
    (Status::Unfinished, 11),
];

fn runs(
    alloc: Global,
    script: &str,
    policy: &str,
    input: &str,
    bytes: &str,
    status: Status,
) -> Result<bool, OutOfMemory> {
    let mut store = files(alloc, script, policy, input)?;
    answers(alloc, RUN, &mut store, bytes, status)
}

fn all_run(rt: &impl Abort, alloc: Global, rows: &[Run]) {
    for (script, input, bytes, status) in rows {
        let told = runs(alloc, *script, POLICY, *input, *bytes, *status);
        assert!(rt; holds(told), "{script}");
    }
}

// The rows are answered where memory is ample: a shell that always ends for want of memory meets each clause, and is refused here.
#[test]
fn always_out_of_memory(rt: HostRuntime) {
    all_run(&rt, rt.alloc(), RUNS);
}

#[test]
fn scripts(rt: HostRuntime) {
    all_run(&rt, rt.alloc(), SCRIPTS);
    all_run(&rt, rt.alloc(), FUNCTIONS);
    all_run(&rt, rt.alloc(), BUILT_INS);
    all_run(&rt, rt.alloc(), SPELLINGS);
}

fn checks(alloc: Global, script: &str, bytes: &str, status: Status) -> Result<bool, OutOfMemory> {
    let mut store = files(alloc, script, POLICY, "")?;
    answers(alloc, CHECK, &mut store, bytes, status)
}

#[test]
fn refused_sources(rt: HostRuntime) {
    let alloc = rt.alloc();
    for (script, report) in REFUSED {
        let ran = runs(alloc, *script, POLICY, "", *report, Status::Source);
        assert!(rt; holds(ran), "{script}");
        let checked = checks(alloc, *script, *report, Status::Source);
        assert!(rt; holds(checked), "{script}");
    }
}

#[test]
fn arrays(rt: HostRuntime) {
    let alloc = rt.alloc();
    for (script, bytes) in ARRAYS {
        let status = if bytes.ends_with("done\n") {
            Status::Done
        } else {
            Status::Threw
        };
        assert!(rt;
            holds(runs(alloc, *script, POLICY, "", *bytes, status)),
            "{script}"
        );
    }
}

#[test]
fn policies(rt: HostRuntime) {
    for (policy, bytes, status) in POLICIES {
        let told = runs(rt.alloc(), "", *policy, "", *bytes, *status);
        assert!(rt; holds(told), "{policy}");
    }
}

fn is_called(
    alloc: Global,
    texts: &[&str],
    bytes: &str,
    status: Status,
) -> Result<bool, OutOfMemory> {
    let mut store = two_lines(alloc)?;
    answers(alloc, texts, &mut store, bytes, status)
}

#[test]
fn words_and_absent_files(rt: HostRuntime) {
    for (texts, bytes, status) in WORDS {
        assert!(rt; holds(is_called(rt.alloc(), *texts, *bytes, *status)));
    }
}

#[test]
fn numbers_of_statuses(rt: HostRuntime) {
    for (status, number) in NUMBERS {
        assert!(rt; status.number() == *number);
    }
}

#[test]
fn laws() {
    isolation();
    never_stopped();
    replies_once();
}
