//! The functions that a program lends.

ghost use Rattle.std.specs.Prelude.{◌≡◌, ℕ, ◌<◌, map, option_map, replicate, [], ◌∷◌, ◌++◌, Some, None, IfOk, OnOk};
ghost use Rattle.js_ast.specs.Functions.{function_numbered, functions_of, numbered};
ghost use Rattle.js_ast.specs.Held.{code_of, held, held_in_stmts, number_of};
ghost use Rattle.js_ast.specs.IsMarked.{IsMarked};
ghost use Rattle.js_ast.specs.Lent.{filled, taken};
ghost use Rattle.js_ast.specs.Nodes.{nodes_of};
ghost use Rattle.js_ast.specs.Views.{view_program};

use crate::lending::{Slot, in_list};
use crate::trees::{Function, Program, StmtList};
use flow_text::OutOfMemory;
use std::alloc::Global;

impl Program {
    /// Its function with this number. It walks over the program: who asks often takes `functions` once.
    pub fn function(&self, n: u32) -> &Function
        requires marked { IsMarked self.now }
        requires below { n < self.now.function_count }
        ensures number { number_of result.now ≡ n }
        ensures is { function_numbered n (view_program self.now) ≡ Some (code_of result.now) }
    {
        let mut slots = [None];
        in_list(&self.body, n, &mut slots);
        slots[0].unwrap()
    }

    /// All its functions, by one walk: each stands at the index that is its number.
    pub fn functions(&self, alloc: Global) -> Result<Vec<&Function>, OutOfMemory>
        requires { IsMarked self.now }
        ensures { IfOk result (λ fs. map (λ f. held f.now) fs.items ≡ numbered 0 (functions_of (view_program self.now))) }
    {
        let mut slots = empty_slots(alloc, self.function_count)?;
        lent(alloc, &self.body, &mut slots)
    }
}

fn empty_slots<'p>(alloc: Global, count: u32) -> Result<Vec<Slot<'p>>, OutOfMemory>
    ensures { IfOk result (λ slots. map (option_map (λ f. held f.now)) slots.items ≡ replicate count None) }
{
    let mut slots = Vec::new(alloc);
    for _ in 0..count {
        slots.push(None)?;
    }
    Ok(slots)
}

// The functions of statements, in slots for those from 0 on.
fn lent<'p>(
    alloc: Global,
    body: &'p StmtList,
    slots: &mut [Slot<'p>],
) -> Result<Vec<&'p Function>, OutOfMemory>
    ensures { IfOk result (λ fs. map (λ f. held f.now) fs.items ≡ taken (filled 0 (map (option_map (λ f. held f.now)) slots.old) (held_in_stmts (nodes_of body.now)))) }
{
    in_list(body, 0, slots);
    taken(alloc, slots)
}

// The functions that have taken a slot.
fn taken<'p>(alloc: Global, slots: &[Slot<'p>]) -> Result<Vec<&'p Function>, OutOfMemory>
    ensures { IfOk result (λ fs. map (λ f. held f.now) fs.items ≡ taken (map (option_map (λ f. held f.now)) slots.now)) }
{
    let mut list = Vec::new(alloc);
    for slot in slots {
        keep(&mut list, *slot)?;
    }
    Ok(list)
}

fn keep<'p>(list: &mut Vec<&'p Function>, slot: Slot<'p>) -> Result<(), OutOfMemory>
    ensures { OnOk result (map (λ f. held f.now) list.new.items ≡ map (λ f. held f.now) list.old.items ++ taken (option_map (λ f. held f.now) slot.entry ∷ [])) }
{
    if let Some(f) = slot {
        list.push(f)?;
    }
    Ok(())
}
