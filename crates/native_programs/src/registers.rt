//! The registers, keys and values that lines name.

ghost use Rattle.std.specs.Prelude.{◌≡◌, ◌+◌, ◌+ℤ◌, IfOk};
ghost use Rattle.native_programs.specs.Asking.{free_reg, reg_of, key_of, fresh_of, args_of, item_reg, registers_from};
ghost use Rattle.native_programs.specs.Values.{counter_in};
ghost use Rattle.std.specs.Fmt.{signed_decimal};
ghost use Rattle.native_protocol.specs.Steps.{reg};
ghost use Rattle.js_number.specs.declared.num.Num.TheVariants as nums;
ghost use Rattle.js_number.specs.declared.primitive.Primitive.TheVariants as prims;

use crate::amounts::{minus, plus};
use crate::line::{Args, Counter, Fresh, Name, Place};
use crate::values::Values;
use crate::wordings::{parsed, part_of};
use flow_text::{OutOfMemory, Text};
use js_number::{Int, Num, Primitive};
use js_values::Key;
use native_protocol::{Reg, RegList};
use std::alloc::Global;

// Behind the free registers of a call stand gathered arguments.
const GATHERED: u64 = 16;

// The arguments stand behind `this` and what is called.
const ARGUMENTS: u64 = 2;

impl Values {
    /// A register behind the arguments.
    pub(crate) fn free(&self, number: u64) -> Result<Reg, OutOfMemory>
        ensures { IfOk result (λ r. r ≡ free_reg self.now.argc number) }
    {
        let first = self.argc.max(4).checked_add(ARGUMENTS).ok_or(OutOfMemory)?;
        Ok(Reg(first.checked_add(number).ok_or(OutOfMemory)?))
    }

    /// The register of a place.
    pub(crate) fn register(&self, place: Place) -> Result<Reg, OutOfMemory>
        ensures { IfOk result (λ r. r ≡ reg_of self.now place) }
    {
        match place {
            Place::This => Ok(Reg(0)),
            Place::Callee => Ok(Reg(1)),
            Place::Argument(number) => Ok(Reg(ARGUMENTS + u64::from(number))),
            Place::ArgumentAt(first, counter) => {
                let number = self.counter(counter).unsigned_abs();
                let first = ARGUMENTS + u64::from(first);
                Ok(Reg(number.checked_add(first).ok_or(OutOfMemory)?))
            }
            Place::Item(counter) => item(self.counter(counter).unsigned_abs()),
            Place::Free(number) => self.free(u64::from(number)),
            Place::Gathered(counter) => {
                let number = self.counter(counter).unsigned_abs();
                self.free(number.checked_add(GATHERED).ok_or(OutOfMemory)?)
            }
            Place::Held => Ok(self.held.unwrap_or(Reg(0))),
        }
    }

    /// The name of a property.
    #[tactic(auto, using(crate::proofs::Words::words))]
    pub(crate) fn key(&self, alloc: Global, name: Name) -> Result<Key, OutOfMemory>
        ensures { IfOk result (λ key. key ≡ key_of self.now name) }
    {
        match name {
            Name::Length => Ok(Key::new(Text::spelled(alloc, "length")?)),
            Name::Prototype => Ok(Key::new(Text::spelled(alloc, "prototype")?)),
            Name::Name => Ok(Key::new(Text::spelled(alloc, "name")?)),
            Name::Message => Ok(Key::new(Text::spelled(alloc, "message")?)),
            Name::Join => Ok(Key::new(Text::spelled(alloc, "join")?)),
            Name::At(a) => Ok(Key::new(digits(alloc, self.counter(a))?)),
            Name::Before(a) => Ok(Key::new(digits(alloc, plus(self.counter(a), -1)?)?)),
            Name::Sum(a, b) => Ok(Key::new(digits(alloc, self.sum(a, b)?)?)),
            Name::BeforeSum(a, b) => Ok(Key::new(digits(alloc, plus(self.sum(a, b)?, -1)?)?)),
            Name::Mirror(a, size) => {
                let behind = minus(self.counter(size), self.counter(a))?;
                Ok(Key::new(digits(alloc, plus(behind, -1)?)?))
            }
        }
    }

    fn sum(&self, a: Counter, b: Counter) -> Result<i64, OutOfMemory>
        ensures { IfOk result (λ n. n ≡ counter_in self.now a +ℤ counter_in self.now b) }
    {
        plus(self.counter(a), self.counter(b))
    }

    /// A value that is made.
    pub(crate) fn fresh(&self, alloc: Global, fresh: Fresh) -> Result<Primitive, OutOfMemory>
        ensures { IfOk result (λ value. value ≡ fresh_of self.now fresh) }
    {
        match fresh {
            Fresh::Truth(truth) => Ok(Primitive::Bool(truth)),
            Fresh::Whole(number) => whole(number),
            Fresh::Nan => Ok(Primitive::Num(Num::Nan)),
            Fresh::Number(a) => whole(self.counter(a)),
            Fresh::Parsed(from, radix) => {
                Ok(Primitive::Num(parsed(self.text(from), self.counter(radix))))
            }
            Fresh::Digits(a) => Ok(Primitive::Str(digits(alloc, self.counter(a))?)),
            Fresh::Text(slot) => Ok(Primitive::Str(self.text(slot).copy(alloc)?)),
            Fresh::Part(slot, first, last) => {
                let (first, last) = (self.counter(first), self.counter(last));
                Ok(Primitive::Str(part_of(alloc, self.text(slot), first, last)?))
            }
        }
    }

    /// The arguments of a call.
    pub(crate) fn arguments(&self, alloc: Global, args: Args) -> Result<RegList, OutOfMemory>
        ensures { IfOk result (λ registers. registers ≡ args_of self.now args) }
    {
        match args {
            Args::None => Ok(RegList::new(alloc)),
            Args::Rest(from) => {
                let from = u64::from(from);
                registers_from(alloc, ARGUMENTS + from, self.argc.saturating_sub(from))
            }
            Args::Element(element, index) => {
                let mut registers = RegList::new(alloc);
                registers.push(self.register(element)?)?;
                registers.push(self.register(index)?)?;
                registers.push(Reg(0))?;
                Ok(registers)
            }
            Args::Folded(made, element, index) => {
                let mut registers = RegList::new(alloc);
                registers.push(self.register(made)?)?;
                registers.push(self.register(element)?)?;
                registers.push(self.register(index)?)?;
                registers.push(Reg(0))?;
                Ok(registers)
            }
            Args::Gathered(counter) => {
                let Reg(first) = self.free(GATHERED)?;
                registers_from(alloc, first, self.counter(counter).unsigned_abs())
            }
        }
    }
}

// One of `this` and the arguments behind it.
fn item(number: u64) -> Result<Reg, OutOfMemory>
    ensures { IfOk result (λ r. r ≡ item_reg number) }
{
    if number == 0 {
        Ok(Reg(0))
    } else {
        Ok(Reg(number.checked_add(1).ok_or(OutOfMemory)?))
    }
}

fn digits(alloc: Global, number: i64) -> Result<Text, OutOfMemory>
    ensures { IfOk result (λ text. text ≡ signed_decimal number) }
{
    let mut text = Text::new(alloc);
    text.push_decimal(number)?;
    Ok(text)
}

// The number as a value. One that is none comes from more than memory holds.
fn whole(number: i64) -> Result<Primitive, OutOfMemory>
    ensures { IfOk result (λ value. value ≡ prims.Num (nums.Int number)) }
{
    Ok(Primitive::Num(Num::Int(Int::new(number).ok_or(OutOfMemory)?)))
}

// So many registers from one on.
#[tactic(auto, using(crate::proofs::RegisterLaws::one_more))]
fn registers_from(alloc: Global, first: u64, count: u64) -> Result<RegList, OutOfMemory>
    ensures { IfOk result (λ registers. registers ≡ registers_from first count) }
{
    let mut registers = RegList::new(alloc);
    for number in 0..count {
        registers.push(Reg(first.checked_add(number).ok_or(OutOfMemory)?))?;
    }
    Ok(registers)
}
