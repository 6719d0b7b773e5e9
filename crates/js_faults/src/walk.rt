//! Walks over trees.

ghost use Rattle.std.specs.Prelude.{◌≡◌};
ghost use Rattle.js_ast.specs.Nodes.{nodes_of};
ghost use Rattle.js_ast.specs.Trees.{no_items};
ghost use Rattle.js_ast.specs.Views.{view_expr, view_maybe_expr, view_exprs, view_item, view_items, view_property, view_properties, view_function, view_declarations, view_first, view_target, view_clauses, view_block, view_stmt, view_stmts};
ghost use Rattle.js_faults.specs.Scopes.{outermost, in_body};
ghost use Rattle.js_faults.specs.ScopeViews.{scope_of};
ghost use Rattle.js_faults.specs.Faults.{in_expr, in_exprs, in_maybe, in_items, in_property, in_properties, in_function, in_declarations, in_first, in_target, in_clauses, in_block, in_statement, in_statements, earlier_by, first_by, first_of};
ghost use Rattle.js_faults.specs.Directives.{directives, by_place};
ghost use Rattle.js_faults.specs.Early.{early};

use crate::directives::BadDirective;
use crate::fault::EarlyError;
use crate::scope::{Labels, Scope, is_loop};
use crate::telling::Told;
use js_ast::{
    Block, ClauseList, Declarations, Expr, ExprKind, ExprList, ForFirst, ForTarget, Function, Item,
    ItemList, Property, PropertyKind, PropertyList, Stmt, StmtKind, StmtList,
};

// What is told first of an expression and its parts.
#[cycle(walk)]
pub(crate) fn in_expr<T: Told>(e: &Expr) -> Option<T>
    ensures { result ≡ first_by T.order (in_expr T.own (view_expr e.now)) }
{
    T::earlier(T::of_expr(e), in_parts(e))
}

// The parts of an expression.
#[cycle(walk)]
#[tactic(auto, using(crate::proofs::Told::first_by_append, crate::proofs::Loops::none_behind, js_ast::proofs::ViewLaws::held_exprs, js_ast::proofs::ViewLaws::held_items, js_ast::proofs::ViewLaws::held_properties, js_ast::specs::declared::trees::ExprKind::TheViews::the_lemmas))]
fn in_parts<T: Told>(e: &Expr) -> Option<T>
    ensures { earlier_by T.order (first_by T.order ((T.own).expr (view_expr e.now))) result ≡ first_by T.order (in_expr T.own (view_expr e.now)) }
{
    match &*e.kind {
        ExprKind::Name(_)
        | ExprKind::Number(_)
        | ExprKind::String { .. }
        | ExprKind::This
        | ExprKind::Null
        | ExprKind::Bool(_) => None,
        ExprKind::Paren(inner) => in_expr(inner),
        ExprKind::Array { items, .. } => in_items(items),
        ExprKind::Object { properties, .. } => in_properties(properties),
        ExprKind::Function(f) => in_function(f),
        ExprKind::Member { base, .. } => in_expr(base),
        ExprKind::Index { base, index } => T::earlier(in_expr(base), in_expr(index)),
        ExprKind::New { callee, args } => {
            let in_callee = in_expr(callee);
            match args {
                Some(args) => T::earlier(in_callee, in_exprs(args)),
                None => in_callee,
            }
        }
        ExprKind::Call { callee, args } => T::earlier(in_expr(callee), in_exprs(args)),
        ExprKind::Postfix { operand, .. } => in_expr(operand),
        ExprKind::Unary { operand, .. } => in_expr(operand),
        ExprKind::Binary { left, right, .. } => T::earlier(in_expr(left), in_expr(right)),
        ExprKind::Comma { left, right } => T::earlier(in_expr(left), in_expr(right)),
        ExprKind::Assign { target, value, .. } => T::earlier(in_expr(target), in_expr(value)),
        ExprKind::Conditional { test, then, other } => T::earlier(
            in_expr(test),
            T::earlier(in_expr(then), in_expr(other)),
        ),
    }
}

#[cycle(walk)]
fn in_exprs<T: Told>(list: &ExprList) -> Option<T>
    ensures { result ≡ first_by T.order (in_exprs T.own (view_exprs (nodes_of list.now))) }
{
    let mut first = None;
    'exprs: for e in list.items() {
        first = T::earlier(first, in_expr(e));
    }
    first
}

#[cycle(walk)]
fn in_items<T: Told>(list: &ItemList) -> Option<T>
    ensures { result ≡ first_by T.order (in_items T.own (view_items (nodes_of list.now))) }
{
    let mut first = None;
    'items: for item in list.items() {
        first = T::earlier(first, in_item(item));
    }
    first
}

#[cycle(walk)]
#[tactic(auto, using(crate::proofs::Told::first_by_append, crate::proofs::Loops::none_behind))]
fn in_item<T: Told>(item: &Item) -> Option<T>
    ensures { result ≡ first_by T.order (in_items T.own (view_item item.now no_items)) }
{
    match item {
        Item::Hole => None,
        Item::Value(e) => in_expr(e),
    }
}

#[cycle(walk)]
fn in_maybe<T: Told>(e: &Option<Expr>) -> Option<T>
    ensures { result ≡ first_by T.order (in_maybe T.own (view_maybe_expr e.now)) }
{
    match e {
        Some(e) => in_expr(e),
        None => None,
    }
}

#[cycle(walk)]
fn in_properties<T: Told>(list: &PropertyList) -> Option<T>
    ensures { result ≡ first_by T.order (in_properties T.own (view_properties (nodes_of list.now))) }
{
    let mut first = None;
    'properties: for property in list.items() {
        first = T::earlier(first, in_property(property));
    }
    first
}

#[cycle(walk)]
fn in_property<T: Told>(property: &Property) -> Option<T>
    ensures { result ≡ first_by T.order (in_property T.own (view_property property.now)) }
{
    match &property.kind {
        PropertyKind::Value(e) => in_expr(e),
        PropertyKind::Getter(f) | PropertyKind::Setter(f) => in_function(f),
    }
}

#[cycle(walk)]
#[tactic(auto, using(crate::proofs::Told::first_by_append, js_ast::proofs::ViewLaws::parts_function))]
fn in_function<T: Told>(f: &Function) -> Option<T>
    ensures { result ≡ first_by T.order (in_function T.own (view_function f.now)) }
{
    let scope = Scope {
        in_function: true,
        in_loop: false,
        in_switch: false,
        labels: &Labels::None,
    };
    T::earlier(T::of_function(f), in_list(scope, &f.body))
}

#[cycle(walk)]
fn in_declarations<T: Told>(declarations: &Declarations) -> Option<T>
    ensures { result ≡ first_by T.order (in_declarations T.own (view_declarations declarations.now)) }
{
    let mut first = in_maybe(&declarations.first.value);
    'others: for declaration in declarations.others.items() {
        first = T::earlier(first, in_maybe(&declaration.value));
    }
    first
}

#[cycle(walk)]
fn in_first<T: Told>(first: &ForFirst) -> Option<T>
    ensures { result ≡ first_by T.order (in_first T.own (view_first first.now)) }
{
    match first {
        ForFirst::Expr(e) => in_maybe(e),
        ForFirst::Var(declarations) => in_declarations(declarations),
    }
}

#[cycle(walk)]
fn in_target<T: Told>(target: &ForTarget) -> Option<T>
    ensures { result ≡ first_by T.order (in_target T.own (view_target target.now)) }
{
    match target {
        ForTarget::Expr(e) => in_expr(e),
        ForTarget::Var(_) => None,
    }
}

#[cycle(walk)]
fn in_clauses<T: Told>(scope: Scope<'_>, list: &ClauseList) -> Option<T>
    ensures { result ≡ first_by T.order (in_clauses T.own (scope_of scope.entry) (view_clauses (nodes_of list.now))) }
{
    let mut first = None;
    'clauses: for clause in list.items() {
        let inner = T::earlier(in_maybe(&clause.test), in_list(scope, &clause.body));
        first = T::earlier(first, inner);
    }
    first
}

#[cycle(walk)]
#[tactic(auto, using(js_ast::proofs::ViewLaws::parts_block))]
fn in_block<T: Told>(scope: Scope<'_>, block: &Block) -> Option<T>
    ensures { result ≡ first_by T.order (in_block T.own (scope_of scope.entry) (view_block block.now)) }
{
    in_list(scope, &block.body)
}

#[cycle(walk)]
fn in_statement<T: Told>(scope: Scope<'_>, s: &Stmt) -> Option<T>
    ensures { result ≡ first_by T.order (in_statement T.own (scope_of scope.entry) (view_stmt s.now)) }
{
    T::earlier(T::of_statement(scope, s), in_statement_parts(scope, s))
}

// The parts of a statement.
#[cycle(walk)]
#[tactic(auto, using(crate::proofs::Told::first_by_append, crate::proofs::Loops::none_behind, js_ast::proofs::ViewLaws::held_expr, js_ast::proofs::ViewLaws::held_stmts, js_ast::proofs::ViewLaws::held_clauses, js_ast::specs::declared::trees::ExprKind::TheViews::the_lemmas))]
fn in_statement_parts<T: Told>(scope: Scope<'_>, s: &Stmt) -> Option<T>
    ensures { earlier_by T.order (first_by T.order ((T.own).statement (scope_of scope.entry) (view_stmt s.now))) result ≡ first_by T.order (in_statement T.own (scope_of scope.entry) (view_stmt s.now)) }
{
    match &*s.kind {
        StmtKind::Empty
        | StmtKind::Continue { .. }
        | StmtKind::Break { .. }
        | StmtKind::Debugger(_) => None,
        StmtKind::Block(list) => in_list(scope, list),
        StmtKind::Var { declarations, .. } => in_declarations(declarations),
        StmtKind::Expr { expr, .. } => in_expr(expr),
        StmtKind::If {
            test,
            then,
            other: None,
        } => T::earlier(in_expr(test), in_statement(scope, then)),
        StmtKind::If {
            test,
            then,
            other: Some(other),
        } => T::earlier(
            in_expr(test),
            T::earlier(in_statement(scope, then), in_statement(scope, other)),
        ),
        StmtKind::DoWhile { body, test, .. } => T::earlier(
            in_statement(scope.looped(), body),
            in_expr(test),
        ),
        StmtKind::While { test, body } => T::earlier(
            in_expr(test),
            in_statement(scope.looped(), body),
        ),
        StmtKind::For {
            first,
            test,
            update,
            body,
        } => T::earlier(
            in_first(first),
            T::earlier(
                in_maybe(test),
                T::earlier(in_maybe(update), in_statement(scope.looped(), body)),
            ),
        ),
        StmtKind::ForIn {
            target,
            object,
            body,
        } => T::earlier(
            in_target(target),
            T::earlier(in_expr(object), in_statement(scope.looped(), body)),
        ),
        StmtKind::Return { value, .. } => in_maybe(value),
        StmtKind::Throw { value, .. } => in_expr(value),
        StmtKind::Switch { value, clauses } => T::earlier(
            in_expr(value),
            in_clauses(scope.switched(), clauses),
        ),
        StmtKind::Labelled { label, body } => {
            let labels = Labels::Label {
                text: label,
                names_loop: is_loop(body),
                outer: scope.labels,
            };
            in_statement(
                Scope {
                    labels: &labels,
                    ..scope
                },
                body,
            )
        }
        StmtKind::TryCatch { block, handler, .. } => {
            T::earlier(in_block(scope, block), in_block(scope, handler))
        }
        StmtKind::TryFinally { block, finalizer } => {
            T::earlier(in_block(scope, block), in_block(scope, finalizer))
        }
        StmtKind::TryBoth {
            block,
            handler,
            finalizer,
            ..
        } => T::earlier(
            in_block(scope, block),
            T::earlier(in_block(scope, handler), in_block(scope, finalizer)),
        ),
        StmtKind::Function(f) => in_function(f),
    }
}

#[cycle(walk)]
fn in_list<T: Told>(scope: Scope<'_>, list: &StmtList) -> Option<T>
    ensures { result ≡ first_by T.order (in_statements T.own (scope_of scope.entry) (view_stmts (nodes_of list.now))) }
{
    let mut first = None;
    'statements: for s in list.items() {
        first = T::earlier(first, in_statement(scope, s));
    }
    first
}

fn in_code<T: Told>(statements: &StmtList) -> Option<T>
    ensures { result ≡ first_by T.order (in_statements T.own outermost (view_stmts (nodes_of statements.now))) }
{
    let scope = Scope {
        in_function: false,
        in_loop: false,
        in_switch: false,
        labels: &Labels::None,
    };
    in_list(scope, statements)
}

/// The first upgrade directive of an expression that has no form of one.
pub fn bad_directive_in_expr(e: &Expr) -> Option<BadDirective>
    ensures { result ≡ first_by by_place (in_expr directives (view_expr e.now)) }
{
    in_expr(e)
}

/// The first upgrade directive of statements that has no form of one.
pub fn bad_directive(statements: &StmtList) -> Option<BadDirective>
    ensures { result ≡ first_by by_place (in_statements directives outermost (view_stmts (nodes_of statements.now))) }
{
    in_code(statements)
}

/// The early error of a program's statements that is told.
pub fn early_error(statements: &StmtList) -> Option<EarlyError>
    ensures { result ≡ first_of (in_statements early outermost (view_stmts (nodes_of statements.now))) }
{
    in_code(statements)
}
