//! Lends the functions of trees. A walk is given slots for the functions from a first number on, and each function that
//! it meets takes its slot, where it has one.

ghost use Rattle.std.specs.Prelude.{◌≡◌, map, option_map};
ghost use Rattle.js_ast.specs.Nodes.{nodes_of};
ghost use Rattle.js_ast.specs.Held.{held, held_in_expr, held_in_maybe_expr, held_in_exprs, held_in_item, held_in_items, held_in_property, held_in_properties, held_in_function, held_in_declarations, held_in_first, held_in_target, held_in_clause, held_in_clauses, held_in_block, held_in_stmt, held_in_stmts};
ghost use Rattle.js_ast.specs.Lent.{put, filled};

use crate::trees::{
    Block, Clause, ClauseList, Declarations, Expr, ExprKind, ExprList, ForFirst, ForTarget,
    Function, Item, ItemList, Property, PropertyKind, PropertyList, Stmt, StmtKind, StmtList,
};

/// A place for a function that is to be lent.
pub(crate) type Slot<'p> = Option<&'p Function>;

// A function takes its slot, where it has one.
fn place<'p>(f: &'p Function, first: u32, slots: &mut [Slot<'p>])
    ensures { map (option_map (λ f. held f.now)) slots.new ≡ put first (map (option_map (λ f. held f.now)) slots.old) (held f.now) }
{
    if f.number < first {
        return;
    }
    let at = (f.number - first) as usize;
    if at < slots.len() {
        slots[at] = Some(f);
    }
}

#[cycle(lending)]
#[tactic(auto, using(crate::proofs::Filling::parts, crate::proofs::HeldLaws::held_functions, crate::specs::declared::trees::ExprKind::TheViews::the_lemmas))]
fn in_expr<'p>(e: &'p Expr, first: u32, slots: &mut [Slot<'p>])
    ensures { map (option_map (λ f. held f.now)) slots.new ≡ filled first (map (option_map (λ f. held f.now)) slots.old) (held_in_expr e.now) }
{
    match &*e.kind {
        ExprKind::Name(_)
        | ExprKind::Number(_)
        | ExprKind::String { .. }
        | ExprKind::This
        | ExprKind::Null
        | ExprKind::Bool(_) => {}
        ExprKind::Paren(inner) => in_expr(inner, first, slots),
        ExprKind::Array { items, .. } => in_items(items, first, slots),
        ExprKind::Object { properties, .. } => in_properties(properties, first, slots),
        ExprKind::Function(f) => in_function(f, first, slots),
        ExprKind::Member { base, .. } => in_expr(base, first, slots),
        ExprKind::Index { base, index } => {
            in_expr(base, first, slots);
            in_expr(index, first, slots);
        }
        ExprKind::New { callee, args } => {
            in_expr(callee, first, slots);
            if let Some(args) = args {
                in_exprs(args, first, slots);
            }
        }
        ExprKind::Call { callee, args } => {
            in_expr(callee, first, slots);
            in_exprs(args, first, slots);
        }
        ExprKind::Postfix { operand, .. } | ExprKind::Unary { operand, .. } => {
            in_expr(operand, first, slots)
        }
        ExprKind::Binary { left, right, .. } | ExprKind::Comma { left, right } => {
            in_expr(left, first, slots);
            in_expr(right, first, slots);
        }
        ExprKind::Assign { target, value, .. } => {
            in_expr(target, first, slots);
            in_expr(value, first, slots);
        }
        ExprKind::Conditional { test, then, other } => {
            in_expr(test, first, slots);
            in_expr(then, first, slots);
            in_expr(other, first, slots);
        }
    }
}

#[cycle(lending)]
fn in_exprs<'p>(list: &'p ExprList, first: u32, slots: &mut [Slot<'p>])
    ensures { map (option_map (λ f. held f.now)) slots.new ≡ filled first (map (option_map (λ f. held f.now)) slots.old) (held_in_exprs (nodes_of list.now)) }
{
    'exprs: for e in list.items() {
        in_expr(e, first, slots);
    }
}

#[cycle(lending)]
#[tactic(auto, using(crate::proofs::Filling::parts, crate::proofs::HeldLaws::held_functions))]
fn in_maybe<'p>(e: &'p Option<Expr>, first: u32, slots: &mut [Slot<'p>])
    ensures { map (option_map (λ f. held f.now)) slots.new ≡ filled first (map (option_map (λ f. held f.now)) slots.old) (held_in_maybe_expr e.now) }
{
    if let Some(e) = e {
        in_expr(e, first, slots);
    }
}

#[cycle(lending)]
#[tactic(auto, using(crate::proofs::Filling::parts))]
fn in_item<'p>(item: &'p Item, first: u32, slots: &mut [Slot<'p>])
    ensures { map (option_map (λ f. held f.now)) slots.new ≡ filled first (map (option_map (λ f. held f.now)) slots.old) (held_in_item item.now) }
{
    match item {
        Item::Hole => {}
        Item::Value(e) => in_expr(e, first, slots),
    }
}

#[cycle(lending)]
fn in_items<'p>(list: &'p ItemList, first: u32, slots: &mut [Slot<'p>])
    ensures { map (option_map (λ f. held f.now)) slots.new ≡ filled first (map (option_map (λ f. held f.now)) slots.old) (held_in_items (nodes_of list.now)) }
{
    'items: for item in list.items() {
        in_item(item, first, slots);
    }
}

#[cycle(lending)]
fn in_property<'p>(property: &'p Property, first: u32, slots: &mut [Slot<'p>])
    ensures { map (option_map (λ f. held f.now)) slots.new ≡ filled first (map (option_map (λ f. held f.now)) slots.old) (held_in_property property.now) }
{
    match &property.kind {
        PropertyKind::Value(e) => in_expr(e, first, slots),
        PropertyKind::Getter(f) | PropertyKind::Setter(f) => in_function(f, first, slots),
    }
}

#[cycle(lending)]
fn in_properties<'p>(list: &'p PropertyList, first: u32, slots: &mut [Slot<'p>])
    ensures { map (option_map (λ f. held f.now)) slots.new ≡ filled first (map (option_map (λ f. held f.now)) slots.old) (held_in_properties (nodes_of list.now)) }
{
    'properties: for property in list.items() {
        in_property(property, first, slots);
    }
}

#[cycle(lending)]
#[tactic(auto, using(crate::proofs::Filling::parts, crate::proofs::HeldLaws::lent_function))]
fn in_function<'p>(f: &'p Function, first: u32, slots: &mut [Slot<'p>])
    ensures { map (option_map (λ f. held f.now)) slots.new ≡ filled first (map (option_map (λ f. held f.now)) slots.old) (held_in_function f.now) }
{
    place(f, first, slots);
    in_list(&f.body, first, slots);
}

#[cycle(lending)]
fn in_declarations<'p>(declarations: &'p Declarations, first: u32, slots: &mut [Slot<'p>])
    ensures { map (option_map (λ f. held f.now)) slots.new ≡ filled first (map (option_map (λ f. held f.now)) slots.old) (held_in_declarations declarations.now) }
{
    in_maybe(&declarations.first.value, first, slots);
    'others: for declaration in declarations.others.items() {
        in_maybe(&declaration.value, first, slots);
    }
}

#[cycle(lending)]
#[tactic(auto, using(crate::proofs::HeldLaws::held_functions))]
fn in_first<'p>(header: &'p ForFirst, first: u32, slots: &mut [Slot<'p>])
    ensures { map (option_map (λ f. held f.now)) slots.new ≡ filled first (map (option_map (λ f. held f.now)) slots.old) (held_in_first header.now) }
{
    match header {
        ForFirst::Expr(e) => in_maybe(e, first, slots),
        ForFirst::Var(declarations) => in_declarations(declarations, first, slots),
    }
}

#[cycle(lending)]
#[tactic(auto, using(crate::proofs::Filling::parts))]
fn in_target<'p>(target: &'p ForTarget, first: u32, slots: &mut [Slot<'p>])
    ensures { map (option_map (λ f. held f.now)) slots.new ≡ filled first (map (option_map (λ f. held f.now)) slots.old) (held_in_target target.now) }
{
    match target {
        ForTarget::Expr(e) => in_expr(e, first, slots),
        ForTarget::Var(_) => {}
    }
}

#[cycle(lending)]
#[tactic(auto, using(crate::proofs::Filling::parts, crate::proofs::HeldLaws::lent_clause))]
fn in_clause<'p>(clause: &'p Clause, first: u32, slots: &mut [Slot<'p>])
    ensures { map (option_map (λ f. held f.now)) slots.new ≡ filled first (map (option_map (λ f. held f.now)) slots.old) (held_in_clause clause.now) }
{
    in_maybe(&clause.test, first, slots);
    in_list(&clause.body, first, slots);
}

#[cycle(lending)]
fn in_clauses<'p>(list: &'p ClauseList, first: u32, slots: &mut [Slot<'p>])
    ensures { map (option_map (λ f. held f.now)) slots.new ≡ filled first (map (option_map (λ f. held f.now)) slots.old) (held_in_clauses (nodes_of list.now)) }
{
    'clauses: for clause in list.items() {
        in_clause(clause, first, slots);
    }
}

#[cycle(lending)]
#[tactic(auto, using(crate::proofs::HeldLaws::lent_in_block))]
fn in_block<'p>(block: &'p Block, first: u32, slots: &mut [Slot<'p>])
    ensures { map (option_map (λ f. held f.now)) slots.new ≡ filled first (map (option_map (λ f. held f.now)) slots.old) (held_in_block block.now) }
{
    in_list(&block.body, first, slots);
}

#[cycle(lending)]
#[tactic(auto, using(crate::proofs::Filling::parts, crate::proofs::HeldLaws::held_functions, crate::specs::declared::trees::ExprKind::TheViews::the_lemmas))]
fn in_statement<'p>(s: &'p Stmt, first: u32, slots: &mut [Slot<'p>])
    ensures { map (option_map (λ f. held f.now)) slots.new ≡ filled first (map (option_map (λ f. held f.now)) slots.old) (held_in_stmt s.now) }
{
    match &*s.kind {
        StmtKind::Empty
        | StmtKind::Continue { .. }
        | StmtKind::Break { .. }
        | StmtKind::Debugger(_) => {}
        StmtKind::Block(list) => in_list(list, first, slots),
        StmtKind::Var { declarations, .. } => in_declarations(declarations, first, slots),
        StmtKind::Expr { expr, .. } => in_expr(expr, first, slots),
        StmtKind::If { test, then, other } => {
            in_expr(test, first, slots);
            in_statement(then, first, slots);
            if let Some(other) = other {
                in_statement(other, first, slots);
            }
        }
        StmtKind::DoWhile { body, test, .. } => {
            in_statement(body, first, slots);
            in_expr(test, first, slots);
        }
        StmtKind::While { test, body } => {
            in_expr(test, first, slots);
            in_statement(body, first, slots);
        }
        StmtKind::For {
            first: header,
            test,
            update,
            body,
        } => {
            in_first(header, first, slots);
            in_maybe(test, first, slots);
            in_maybe(update, first, slots);
            in_statement(body, first, slots);
        }
        StmtKind::ForIn {
            target,
            object,
            body,
        } => {
            in_target(target, first, slots);
            in_expr(object, first, slots);
            in_statement(body, first, slots);
        }
        StmtKind::Return { value, .. } => in_maybe(value, first, slots),
        StmtKind::Throw { value, .. } => in_expr(value, first, slots),
        StmtKind::Switch { value, clauses } => {
            in_expr(value, first, slots);
            in_clauses(clauses, first, slots);
        }
        StmtKind::Labelled { body, .. } => in_statement(body, first, slots),
        StmtKind::TryCatch { block, handler, .. } => {
            in_block(block, first, slots);
            in_block(handler, first, slots);
        }
        StmtKind::TryFinally { block, finalizer } => {
            in_block(block, first, slots);
            in_block(finalizer, first, slots);
        }
        StmtKind::TryBoth {
            block,
            handler,
            finalizer,
            ..
        } => {
            in_block(block, first, slots);
            in_block(handler, first, slots);
            in_block(finalizer, first, slots);
        }
        StmtKind::Function(f) => in_function(f, first, slots),
    }
}

#[cycle(lending)]
pub(crate) fn in_list<'p>(list: &'p StmtList, first: u32, slots: &mut [Slot<'p>])
    ensures { map (option_map (λ f. held f.now)) slots.new ≡ filled first (map (option_map (λ f. held f.now)) slots.old) (held_in_stmts (nodes_of list.now)) }
{
    'statements: for s in list.items() {
        in_statement(s, first, slots);
    }
}
