//! The functions of Math (ECMA-262 15.8.2).

ghost use Rattle.std.specs.Prelude.{◌≡◌, pos, unsigned_abs, IfOk};
ghost use Rattle.primitive_natives.specs.declared.math.Extreme.TheVariants.{Greatest, Least};
ghost use Rattle.primitive_natives.specs.Maths.{absolute_of, larger, smaller};
ghost use Rattle.primitive_natives.specs.MathMachine.{better, best_and, converts, best_begin, math_begin, math_asks, math_after, absolute, best_found, best_converted};

use crate::ending::{Ending, Left};
use crate::number::number_at;
use crate::scratch::Scratch;
use flow_text::OutOfMemory;
use js_number::{Int, Num, Primitive};
use native_protocol::{Answer, NumberOf, Progress, Reg, Request};
use std::alloc::Global;

/// A function of Math.
#[derive(Clone, Copy, Debug, PartialEq, Eq)]
pub enum MathFunction {
    Abs,
    Max,
    Min,
}

/// Which of the numbers is looked for.
#[derive(Clone, Copy, Debug, PartialEq, Eq)]
pub enum Extreme {
    Greatest,
    Least,
}

/// A comparison of the arguments: the best number of those before the one in a register, and how many stand behind it.
#[derive(Clone, Copy)]
pub struct Comparing {
    extreme: Extreme,
    best: Option<Num>,
    at: u64,
    left: u64,
    scratch: Scratch,
}

/// A call of one, in which an argument is converted.
#[derive(Clone, Copy)]
pub enum MathCall {
    Abs {
        number: NumberOf,
        to: Reg,
    },
    Best {
        comparing: Comparing,
        number: NumberOf,
    },
}

impl MathCall {
    /// How it begins.
    pub fn start(
        function: MathFunction,
        argc: u64,
    ) -> Result<Progress<MathCall, Ending>, OutOfMemory>
        ensures { IfOk result (λ progress. progress ≡ math_begin function argc) }
    {
        match function {
            MathFunction::Abs => {
                let scratch = Scratch::behind(argc)?;
                Ok(Progress::Going(MathCall::Abs {
                    number: number_at(Reg(2), scratch),
                    to: scratch.first,
                }))
            }
            MathFunction::Max => best_begin(Extreme::Greatest, argc),
            MathFunction::Min => best_begin(Extreme::Least, argc),
        }
    }

    /// What it asks for.
    pub fn request(&self, alloc: Global) -> Result<Request, OutOfMemory>
        ensures { IfOk result (λ request. request ≡ math_asks self.now) }
    {
        match self {
            MathCall::Abs { number, to: _ } => number.request(alloc),
            MathCall::Best {
                comparing: _,
                number,
            } => number.request(alloc),
        }
    }

    /// Where an answer leads.
    pub fn after(self, answer: Answer) -> Result<Progress<MathCall, Ending>, OutOfMemory>
        ensures { IfOk result (λ progress. progress ≡ math_after self answer) }
    {
        match self {
            MathCall::Abs { number, to } => Ok(absolute(number.after(answer), to)),
            MathCall::Best { comparing, number } => best_converted(comparing, number.after(answer)),
        }
    }
}

// How a comparison begins. Of no number the best is an infinity.
fn best_begin(extreme: Extreme, argc: u64) -> Result<Progress<MathCall, Ending>, OutOfMemory>
    ensures { IfOk result (λ progress. progress ≡ best_begin extreme argc) }
{
    if argc == 0 {
        return Ok(Progress::Ready(Ending::Leave { why: Left::Number }));
    }
    Ok(converts(Comparing {
        extreme,
        best: None,
        at: 2,
        left: argc - 1,
        scratch: Scratch::behind(argc)?,
    }))
}

// The argument in the register is converted.
fn converts(comparing: Comparing) -> Progress<MathCall, Ending>
    ensures { result ≡ converts comparing }
{
    Progress::Going(MathCall::Best {
        comparing,
        number: number_at(Reg(comparing.at), comparing.scratch),
    })
}

// Where the conversion of the argument of `abs` leads.
fn absolute(progress: Progress<NumberOf, Num>, to: Reg) -> Progress<MathCall, Ending>
    ensures { result ≡ absolute progress to }
{
    match progress {
        Progress::Going(number) => Progress::Going(MathCall::Abs { number, to }),
        Progress::Ready(number) => Progress::Ready(Ending::Give {
            value: Primitive::Num(magnitude(number)),
            to,
        }),
    }
}

// The size of a number. NaN has none.
fn magnitude(number: Num) -> Num
    ensures { result ≡ absolute_of number }
{
    match number {
        Num::Nan => Num::Nan,
        Num::Int(n) => Num::Int(size_of(n)),
    }
}

// The size of an integer.
fn size_of(n: Int) -> Int
    ensures { result ≡ pos (unsigned_abs n) }
{
    if n.get() < 0 {
        Int::new(-n.get()).unwrap()
    } else {
        n
    }
}

// Where the conversion of an argument that is compared leads.
fn best_converted(
    comparing: Comparing,
    progress: Progress<NumberOf, Num>,
) -> Result<Progress<MathCall, Ending>, OutOfMemory>
    ensures { IfOk result (λ next. next ≡ best_converted comparing progress) }
{
    match progress {
        Progress::Going(number) => Ok(Progress::Going(MathCall::Best { comparing, number })),
        Progress::Ready(number) => {
            best_found(
                comparing,
                best_and(comparing.extreme, comparing.best, number),
            )
        }
    }
}

// The next argument is converted, or the best number is what is looked for. A register whose number doesn't fit stands in no memory.
fn best_found(comparing: Comparing, best: Num) -> Result<Progress<MathCall, Ending>, OutOfMemory>
    ensures { IfOk result (λ next. next ≡ best_found comparing comparing.left best) }
{
    if comparing.left == 0 {
        return Ok(Progress::Ready(Ending::Give {
            value: Primitive::Num(best),
            to: comparing.scratch.first,
        }));
    }
    Ok(converts(Comparing {
        best: Some(best),
        at: comparing.at.checked_add(1).ok_or(OutOfMemory)?,
        left: comparing.left - 1,
        ..comparing
    }))
}

// The best of the numbers so far with one more.
fn best_and(extreme: Extreme, best: Option<Num>, number: Num) -> Num
    ensures { result ≡ best_and extreme best number }
{
    match best {
        None => number,
        Some(best) => better(extreme, best, number),
    }
}

// The better of two numbers.
fn better(extreme: Extreme, first: Num, second: Num) -> Num
    ensures { result ≡ better extreme first second }
{
    match extreme {
        Extreme::Greatest => larger(first, second),
        Extreme::Least => smaller(first, second),
    }
}

// The larger of two numbers: NaN where one of them is NaN.
fn larger(first: Num, second: Num) -> Num
    ensures { result ≡ larger first second }
{
    match first {
        Num::Nan => Num::Nan,
        Num::Int(m) => match second {
            Num::Nan => Num::Nan,
            Num::Int(n) => { if m.get() < n.get() { second } else { first } }
        },
    }
}

// The smaller of two numbers: NaN where one of them is NaN.
fn smaller(first: Num, second: Num) -> Num
    ensures { result ≡ smaller first second }
{
    match first {
        Num::Nan => Num::Nan,
        Num::Int(m) => match second {
            Num::Nan => Num::Nan,
            Num::Int(n) => { if n.get() < m.get() { second } else { first } }
        },
    }
}
