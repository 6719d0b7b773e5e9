//! Pending works, with the records in which the calls and handlers among them began.

ghost use Rattle.std.specs.Prelude.{◌≡◌, [], ◌∷◌, ◌++◌, List, ℕ, map, OnOk, OnErr, IfNone};
ghost use Rattle.std.specs.Option.{option_to_list};
ghost use Rattle.continuations.specs.JumpTargets.{env_in, last_or};
ghost use Rattle.continuations.specs.Going.{here};
ghost use Rattle.continuations.specs.Kept.{place_of};

use crate::continuation::Continuation;
use flow_text::OutOfMemory;
use js_values::EnvId;
use std::alloc::Global;
use std::marker::Model;

// the record of the outermost code
const OUTERMOST: EnvId = EnvId(0);

/// Continuations, the last of which is done first. The present record is found at once.
#[derive(Drop)]
pub(crate) struct Continuations<'p> {
    works: Vec<Continuation<'p>>,
    places: Vec<EnvId>,
}

impl<'p> Model for Continuations<'p> {
    ghost use Rattle.std.specs.Prelude.{List, ◌≡◌, map};
    ghost use Rattle.continuations.specs.Kept.{places_of};
    ghost use Rattle.continuations.specs.declared.continuation.Continuation.{Continuation};

    ghost Value = { List Continuation };

    ghost use Rattle.std.specs.Coded.{codes};
    ghost use Rattle.js_ast.specs.contracts.trees.ExprKind as expr_kind;
    ghost use Rattle.js_ast.specs.contracts.trees.StmtKind as stmt_kind;
    ghost use Rattle.js_ast.specs.contracts.trees.Declaration as declaration;
    ghost use Rattle.js_ast.specs.contracts.trees.ForTarget as for_target;
    ghost use Rattle.js_ast.specs.contracts.trees.Item as item;
    ghost use Rattle.js_ast.specs.contracts.trees.Property as property;
    ghost use Rattle.js_ast.specs.contracts.trees.Clause as clause;

    ghost coded = { Prim.hlevel (codes, expr_kind.the_row.coded, stmt_kind.the_row.coded, declaration.the_row.coded, for_target.the_row.coded, item.the_row.coded, property.the_row.coded, clause.the_row.coded) };

    ghost view = { λ s. s.works.items };

    ghost invariant = { λ s. map (λ e. e.0) s.places.items ≡ places_of s.works.items };
}

/// The last of records, or that of the outermost code.
#[inline(always)]
#[tactic(auto, using(crate::proofs::JumpTargetLaws::last_place))]
fn last_of(places: &[EnvId]) -> EnvId
    ensures { result.0 ≡ last_or 0 (map (λ e. e.0) places.now) }
{
    match places {
        [.., last] => *last,
        [] => OUTERMOST,
    }
}

/// Takes the record away in which the work began, if it did in one of its own.
#[inline(always)]
fn forget_place(places: &mut Vec<EnvId>, work: Continuation<'_>)
    ensures { (front : List ℕ) → map (λ e. e.0) places.old.items ≡ front ++ place_of work.entry → map (λ e. e.0) places.new.items ≡ front }
{
    if work.place().is_some() {
        places.pop();
    }
}

impl<'p> Continuations<'p> {
    /// None. It takes no memory.
    #[inline(always)]
    pub(crate) fn new(alloc: Global) -> Continuations<'p>
        ensures { result ≡ [] }
    {
        Continuations {
            works: Vec::new(alloc),
            places: Vec::new(alloc),
        }
    }

    /// All of them.
    #[inline(always)]
    pub fn items(&self) -> &[Continuation<'p>]
        ensures { result.now ≡ self.now }
    {
        &self.works
    }

    /// Adds one.
    #[inline(always)]
    pub fn push(&mut self, work: Continuation<'p>) -> Result<(), OutOfMemory>
        ensures ok { OnOk result (self.new ≡ self.old ++ work.entry ∷ []) }
        ensures unchanged { OnErr result (self.new ≡ self.old) }
    {
        match work.place() {
            Some(own) => self.push_at(work, own),
            None => self.push_alone(work),
        }
    }

    #[inline(always)]
    #[tactic(auto, using(crate::proofs::JumpTargetLaws::place_added))]
    fn push_at(&mut self, work: Continuation<'p>, own: EnvId) -> Result<(), OutOfMemory>
        requires { place_of work ≡ own.0 ∷ [] }
        ensures ok { OnOk result (self.new ≡ self.old ++ work.entry ∷ []) }
        ensures unchanged { OnErr result (self.new ≡ self.old) }
    {
        self.places.reserve(1)?;
        self.works.push(work)?;
        self.places.push_reserved(own);
        Ok(())
    }

    #[inline(always)]
    #[tactic(auto, using(crate::proofs::JumpTargetLaws::none_added))]
    fn push_alone(&mut self, work: Continuation<'p>) -> Result<(), OutOfMemory>
        requires { place_of work ≡ [] }
        ensures ok { OnOk result (self.new ≡ self.old ++ work.entry ∷ []) }
        ensures unchanged { OnErr result (self.new ≡ self.old) }
    {
        self.works.reserve(1)?;
        self.works.push_reserved(work);
        Ok(())
    }

    /// Takes the last.
    #[inline(always)]
    pub fn pop(&mut self) -> Option<Continuation<'p>>
        ensures items { self.old ≡ self.new ++ option_to_list result }
        ensures none { IfNone result (self.old ≡ []) }
        ensures unchanged { IfNone result (self.new ≡ self.old) }
    {
        let work = self.works.pop()?;
        forget_place(&mut self.places, work);
        Some(work)
    }

    /// The record in which the part above them is evaluated.
    #[inline(always)]
    pub(crate) fn place(&self) -> EnvId
        ensures { (env_in self.now here).place ≡ result.0 }
    {
        last_of(&self.places)
    }
}
