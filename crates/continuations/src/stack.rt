//! Pending work, and the operands that it keeps.

ghost use Rattle.std.specs.Prelude.{◌≡◌, ◌<◌, [], ◌∷◌, ◌++◌, ◌+◌, ◌-◌, length, set, take, OnOk, OnErr, IfNone, IfSome};
ghost use Rattle.std.specs.Option.{option_map};
ghost use Rattle.es_meaning.specs.Environments.{find_around};
ghost use Rattle.continuations.specs.Going.{here};
ghost use Rattle.continuations.specs.Pending.{env_above, owns};
ghost use Rattle.continuations.specs.Loads.{weight, load};
ghost use Rattle.continuations.specs.Kept.{Taken, operands_of, scope_of, scopes_of, waiting, waits};

use crate::continuation::Continuation;
use crate::continuation_list::Continuations;
use crate::jump_targets::{innermost_call, reached};
use flow_text::OutOfMemory;
use js_values::{EnvId, Labelled};
use std::alloc::Global;
use std::marker::Model;

/// Pending work, the last of which is done first, with the operands that it keeps, and above them values that no work keeps yet.
#[derive(Drop)]
pub struct Stack<'p, T> {
    works: Continuations<'p>,
    operands: Vec<Labelled<T>>,
}

impl<'p, T> Model for Stack<'p, T> {
    ghost use Rattle.std.specs.Prelude.{length, ◌≤◌};
    ghost use Rattle.continuations.specs.Kept.{Kept, kept, owned};

    ghost Value = { Kept T };

    ghost use Rattle.std.specs.Coded.{codes};
    ghost use Rattle.js_ast.specs.contracts.trees.ExprKind as expr_kind;
    ghost use Rattle.js_ast.specs.contracts.trees.StmtKind as stmt_kind;
    ghost use Rattle.js_ast.specs.contracts.trees.Declaration as declaration;
    ghost use Rattle.js_ast.specs.contracts.trees.ForTarget as for_target;
    ghost use Rattle.js_ast.specs.contracts.trees.Item as item;
    ghost use Rattle.js_ast.specs.contracts.trees.Property as property;
    ghost use Rattle.js_ast.specs.contracts.trees.Clause as clause;

    ghost coded = { Prim.hlevel (codes, expr_kind.the_row.coded, stmt_kind.the_row.coded, declaration.the_row.coded, for_target.the_row.coded, item.the_row.coded, property.the_row.coded, clause.the_row.coded) };

    ghost view = { λ s. kept s.works s.operands.items };

    ghost invariant = { λ s. owned s.works ≤ length s.operands.items };
}

impl<'p, T: Copy> Stack<'p, T> {
    /// No work, and no values. It takes no memory.
    #[inline(always)]
    pub fn new(alloc: Global) -> Stack<'p, T>
        ensures { result ≡ record { tasks = []; loose = [] } }
    {
        Stack {
            works: Continuations::new(alloc),
            operands: Vec::new(alloc),
        }
    }

    /// Lays a value on top.
    #[inline(always)]
    #[tactic(auto, using(crate::proofs::KeptLaws::tasks_stay, crate::proofs::KeptLaws::loose_more))]
    pub fn lay(&mut self, value: Labelled<T>) -> Result<(), OutOfMemory>
        ensures tasks { self.new.tasks ≡ self.old.tasks }
        ensures laid { OnOk result (self.new.loose ≡ self.old.loose ++ value ∷ []) }
        ensures unchanged { OnErr result (self.new ≡ self.old) }
    {
        self.operands.reserve(1)?;
        self.operands.push_reserved(value);
        Ok(())
    }

    /// Adds work, which keeps the values that no work kept.
    #[inline(always)]
    #[tactic(auto, using(crate::proofs::Keeping::pushed_scopes, crate::proofs::Keeping::pushed_natives, crate::proofs::Keeping::pushed_operands, crate::proofs::Loads::pushed_load))]
    pub fn push(&mut self, work: Continuation<'p>) -> Result<(), OutOfMemory>
        requires { owns work ≡ length self.old.loose }
        ensures ok { OnOk result (self.new ≡ record { tasks = self.old.tasks ++ (work.entry, self.old.loose) ∷ []; loose = [] }) }
        ensures scopes { OnOk result (scopes_of self.new.tasks ≡ scopes_of self.old.tasks ++ scope_of work.entry) }
        ensures natives { OnOk result (waiting self.new.tasks ≡ waiting self.old.tasks + waits work.entry) }
        ensures operands { OnOk result (operands_of self.new ≡ operands_of self.old) }
        ensures load { OnOk result (load self.new.tasks ≡ load self.old.tasks + weight work.entry) }
        ensures unchanged { OnErr result (self.new ≡ self.old) }
    {
        self.add(work)?;
        Ok(())
    }

    #[inline(always)]
    #[tactic(auto, using(crate::proofs::KeptLaws::tasks_more, crate::proofs::KeptLaws::none_loose, crate::proofs::KeptLaws::still_enough))]
    fn add(&mut self, work: Continuation<'p>) -> Result<(), OutOfMemory>
        requires { owns work ≡ length self.old.loose }
        ensures ok { OnOk result (self.new ≡ record { tasks = self.old.tasks ++ (work.entry, self.old.loose) ∷ []; loose = [] }) }
        ensures unchanged { OnErr result (self.new ≡ self.old) }
    {
        self.works.push(work)?;
        Ok(())
    }

    /// Adds work that keeps nothing, below the values that no work keeps.
    #[inline(always)]
    #[tactic(auto, using(crate::proofs::Keeping::scopes_under, crate::proofs::Keeping::natives_under, crate::proofs::Keeping::operands_under, crate::proofs::Loads::load_under))]
    pub fn push_under(&mut self, work: Continuation<'p>) -> Result<(), OutOfMemory>
        requires { owns work ≡ 0 }
        ensures ok { OnOk result (self.new ≡ record { tasks = self.old.tasks ++ (work.entry, []) ∷ []; loose = self.old.loose }) }
        ensures scopes { OnOk result (scopes_of self.new.tasks ≡ scopes_of self.old.tasks ++ scope_of work.entry) }
        ensures natives { OnOk result (waiting self.new.tasks ≡ waiting self.old.tasks + waits work.entry) }
        ensures operands { OnOk result (operands_of self.new ≡ operands_of self.old) }
        ensures load { OnOk result (load self.new.tasks ≡ load self.old.tasks + weight work.entry) }
        ensures unchanged { OnErr result (self.new ≡ self.old) }
    {
        self.add_under(work)?;
        Ok(())
    }

    #[inline(always)]
    #[tactic(auto, using(crate::proofs::KeptLaws::tasks_under, crate::proofs::KeptLaws::loose_under, crate::proofs::KeptLaws::enough_under))]
    fn add_under(&mut self, work: Continuation<'p>) -> Result<(), OutOfMemory>
        requires { owns work ≡ 0 }
        ensures ok { OnOk result (self.new ≡ record { tasks = self.old.tasks ++ (work.entry, []) ∷ []; loose = self.old.loose }) }
        ensures unchanged { OnErr result (self.new ≡ self.old) }
    {
        self.works.push(work)?;
        Ok(())
    }

    /// Takes the uppermost value.
    #[inline(always)]
    #[tactic(auto, using(crate::proofs::KeptLaws::tasks_without_last, crate::proofs::KeptLaws::loose_from_last, crate::proofs::KeptLaws::enough_without_last))]
    pub fn pop(&mut self) -> Labelled<T>
        requires { 0 < length self.old.loose }
        ensures tasks { self.new.tasks ≡ self.old.tasks }
        ensures top { self.old.loose ≡ self.new.loose ++ result ∷ [] }
    {
        self.operands.pop().unwrap()
    }

    /// Takes the work that is done first. Its operands are no work's then.
    #[inline(always)]
    pub fn next_work(&mut self) -> Option<Continuation<'p>>
        ensures none { IfNone result (self.old.tasks ≡ []) }
        ensures taken { IfSome result (Taken self.old self.new) }
        ensures unchanged { IfNone result (self.new ≡ self.old) }
    {
        self.works.pop()
    }

    /// The record in which the part is evaluated. It is found at once.
    #[inline(always)]
    pub fn place(&self) -> EnvId
        ensures { (env_above self.now.tasks here).place ≡ result.0 }
    {
        self.works.place()
    }

    /// The depth of the frame of the call in which the part is evaluated, or 0 in the outermost code.
    #[inline(always)]
    pub fn call(&self) -> usize
        ensures { (env_above self.now.tasks here).call ≡ result }
    {
        innermost_call(self.works.items())
    }

    /// What a `break` ends, or a `continue` where `turn` says so, with its label or none: how much stands round it in its function, and the depth of its frame.
    #[inline(always)]
    pub fn reached(&self, turn: bool, label: Option<&[u16]>) -> Option<(usize, usize)>
        ensures { result ≡ find_around turn (option_map (λ text. text.now) label.entry) (env_above self.now.tasks here).around }
    {
        reached(self.works.items(), turn, label)
    }

    /// Takes the uppermost value away.
    #[inline(always)]
    #[tactic(auto, using(crate::proofs::KeptLaws::tasks_without_last, crate::proofs::KeptLaws::loose_without_last, crate::proofs::KeptLaws::enough_without_last))]
    pub fn forget(&mut self)
        requires { 0 < length self.old.loose }
        ensures tasks { self.new.tasks ≡ self.old.tasks }
        ensures rest { self.new.loose ≡ take (length self.old.loose - 1) self.old.loose }
    {
        self.operands.truncate(self.operands.len() - 1);
    }

    /// Gives another value to one of those that no work keeps.
    #[inline(always)]
    #[tactic(auto, using(crate::proofs::KeptLaws::tasks_set, crate::proofs::KeptLaws::loose_set, crate::proofs::KeptLaws::enough_set, crate::proofs::KeptLaws::place_fits, crate::proofs::KeptLaws::loose_fit))]
    pub(crate) fn set(&mut self, count: usize, at: usize, value: Labelled<T>)
        requires count { count ≡ length self.old.loose }
        requires at { at < count }
        ensures tasks { self.new.tasks ≡ self.old.tasks }
        ensures value { self.new.loose ≡ set self.old.loose at value }
    {
        let place = self.operands.len() - count + at;
        self.operands[place] = value;
    }

    /// Takes all values away that no work keeps.
    #[inline(always)]
    #[tactic(auto, using(crate::proofs::KeptLaws::loose_fit, crate::proofs::KeptLaws::tasks_alone, crate::proofs::KeptLaws::none_left, crate::proofs::KeptLaws::enough_alone))]
    pub fn clear(&mut self, count: usize)
        requires { count ≡ length self.old.loose }
        ensures tasks { self.new.tasks ≡ self.old.tasks }
        ensures none { self.new.loose ≡ [] }
    {
        self.operands.truncate(self.operands.len() - count);
    }

    /// The values that no work keeps.
    #[inline(always)]
    #[tactic(auto, using(crate::proofs::KeptLaws::loose_fit, crate::proofs::KeptLaws::loose_alone))]
    pub fn loose(&self, count: usize) -> &[Labelled<T>]
        requires { count ≡ length self.now.loose }
        ensures { result.now ≡ self.now.loose }
    {
        &self.operands[self.operands.len() - count..]
    }
}
