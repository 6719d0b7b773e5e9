//! Whether code names its `arguments` object.

ghost use Rattle.std.specs.Prelude.{◌≡◌, ◌||◌};
ghost use Rattle.origin_labels.specs.Names.{same_name};
ghost use Rattle.js_ast.specs.Nodes.{nodes_of};
ghost use Rattle.js_ast.specs.Trees.{body_of};
ghost use Rattle.js_ast.specs.Views.{view_expr, view_exprs, view_items, view_property, view_properties, view_maybe_expr, view_declaration, view_declarations, view_first, view_target, view_block, view_clauses, view_function, view_stmt, view_stmts};
ghost use Rattle.es_meaning.specs.Naming.{arguments_name, names_in_expr, names_in_exprs, names_in_items, names_in_properties, names_in_maybe, names_in_declarations, names_in_first, names_in_target, names_in_block, names_in_clauses, names_in_statement, names_in_statements};
ghost use Rattle.call_records.specs.Named.{names_in_item, names_in_property, names_in_clause};

use flow_text::Text;
use js_ast::{
    Block, Clause, ClauseList, Declarations, Expr, ExprKind, ExprList, ForFirst, ForTarget,
    Function, Item, ItemList, Property, PropertyKind, PropertyList, Stmt, StmtKind, StmtList,
};

/// `arguments`
const ARGUMENTS: [u16; 9] = [0x61, 0x72, 0x67, 0x75, 0x6D, 0x65, 0x6E, 0x74, 0x73];

fn is_arguments(text: &Text) -> bool
    ensures { result ≡ same_name text.now arguments_name }
{
    text.units() == ARGUMENTS.as_slice()
}

#[cycle(parts)]
#[tactic(auto, using(js_ast::proofs::ViewLaws::held_exprs, js_ast::proofs::ViewLaws::held_items, js_ast::proofs::ViewLaws::held_properties, js_ast::specs::declared::trees::ExprKind::TheViews::the_lemmas), unfolding(es_meaning::specs::Naming::names_in_expr))]
fn in_expr(e: &Expr) -> bool
    ensures { result ≡ names_in_expr (view_expr e.now) }
{
    match &*e.kind {
        ExprKind::Name(text) => is_arguments(text),
        ExprKind::Number(_)
        | ExprKind::String { .. }
        | ExprKind::This
        | ExprKind::Null
        | ExprKind::Bool(_)
        | ExprKind::Function(_) => false,
        ExprKind::Paren(inner) => in_expr(inner),
        ExprKind::Array { items, .. } => in_items(items),
        ExprKind::Object { properties, .. } => in_properties(properties),
        ExprKind::Member { base, .. } => in_expr(base),
        ExprKind::Index { base, index } => in_expr(base) || in_expr(index),
        ExprKind::New { callee, args: None } => in_expr(callee),
        ExprKind::New {
            callee,
            args: Some(args),
        } => in_expr(callee) || in_exprs(args),
        ExprKind::Call { callee, args } => in_expr(callee) || in_exprs(args),
        ExprKind::Postfix { operand, .. } | ExprKind::Unary { operand, .. } => in_expr(operand),
        ExprKind::Binary { left, right, .. } | ExprKind::Comma { left, right } => {
            in_expr(left) || in_expr(right)
        }
        ExprKind::Conditional { test, then, other } => {
            in_expr(test) || in_expr(then) || in_expr(other)
        }
        ExprKind::Assign { target, value, .. } => in_expr(target) || in_expr(value),
    }
}

#[cycle(parts)]
fn in_exprs(list: &ExprList) -> bool
    ensures { result ≡ names_in_exprs (view_exprs (nodes_of list.now)) }
{
    'exprs: for e in list.items() {
        if in_expr(e) {
            return true;
        }
    }
    false
}

#[cycle(parts)]
fn in_item(item: &Item) -> bool
    ensures { result ≡ names_in_item item.now }
{
    match item {
        Item::Hole => false,
        Item::Value(e) => in_expr(e),
    }
}

#[cycle(parts)]
fn in_items(list: &ItemList) -> bool
    ensures { result ≡ names_in_items (view_items (nodes_of list.now)) }
{
    'items: for item in list.items() {
        if in_item(item) {
            return true;
        }
    }
    false
}

#[cycle(parts)]
fn in_property(property: &Property) -> bool
    ensures { result ≡ names_in_property (view_property property.now) }
{
    match &property.kind {
        PropertyKind::Value(e) => in_expr(e),
        PropertyKind::Getter(_) | PropertyKind::Setter(_) => false,
    }
}

#[cycle(parts)]
fn in_properties(list: &PropertyList) -> bool
    ensures { result ≡ names_in_properties (view_properties (nodes_of list.now)) }
{
    'properties: for property in list.items() {
        if in_property(property) {
            return true;
        }
    }
    false
}

fn in_maybe(e: &Option<Expr>) -> bool
    ensures { result ≡ names_in_maybe (view_maybe_expr e.now) }
{
    match e {
        Some(e) => in_expr(e),
        None => false,
    }
}

fn in_declarations(declarations: &Declarations) -> bool
    ensures { result ≡ names_in_declarations (view_declarations declarations.now) }
{
    if in_maybe(&declarations.first.value) {
        return true;
    }
    'others: for declaration in declarations.others.items() {
        if in_maybe(&declaration.value) {
            return true;
        }
    }
    false
}

#[tactic(auto, using(js_ast::proofs::ViewLaws::held_expr, js_ast::specs::declared::trees::ExprKind::TheViews::the_lemmas))]
fn in_first(first: &ForFirst) -> bool
    ensures { result ≡ names_in_first (view_first first.now) }
{
    match first {
        ForFirst::Expr(e) => in_maybe(e),
        ForFirst::Var(declarations) => in_declarations(declarations),
    }
}

fn in_target(target: &ForTarget) -> bool
    ensures { result ≡ names_in_target (view_target target.now) }
{
    match target {
        ForTarget::Expr(e) => in_expr(e),
        ForTarget::Var(_) => false,
    }
}

#[cycle(walk)]
#[tactic(auto, using(js_ast::proofs::ViewLaws::parts_block), unfolding(es_meaning::specs::Naming::names_in_block))]
fn in_block(block: &Block) -> bool
    ensures { result ≡ names_in_block (view_block block.now) }
{
    in_list(&block.body)
}

#[cycle(walk)]
fn in_clause(clause: &Clause) -> bool
    ensures { result ≡ names_in_clause clause.now }
{
    in_maybe(&clause.test) || in_list(&clause.body)
}

#[cycle(walk)]
fn in_clauses(list: &ClauseList) -> bool
    ensures { result ≡ names_in_clauses (view_clauses (nodes_of list.now)) }
{
    'clauses: for clause in list.items() {
        if in_clause(clause) {
            return true;
        }
    }
    false
}

#[cycle(walk)]
#[tactic(auto, using(js_ast::proofs::ViewLaws::held_expr, js_ast::proofs::ViewLaws::held_stmts, js_ast::proofs::ViewLaws::held_clauses, js_ast::specs::declared::trees::ExprKind::TheViews::the_lemmas), unfolding(es_meaning::specs::Naming::names_in_statement, es_meaning::specs::Naming::names_in_block))]
fn in_statement(s: &Stmt) -> bool
    ensures { result ≡ names_in_statement (view_stmt s.now) }
{
    match &*s.kind {
        StmtKind::Empty
        | StmtKind::Debugger(_)
        | StmtKind::Continue { .. }
        | StmtKind::Break { .. } => false,
        StmtKind::Function(_) => false,
        StmtKind::Block(list) => in_list(list),
        StmtKind::Var { declarations, .. } => in_declarations(declarations),
        StmtKind::Expr { expr, .. } => in_expr(expr),
        StmtKind::If {
            test,
            then,
            other: None,
        } => in_expr(test) || in_statement(then),
        StmtKind::If {
            test,
            then,
            other: Some(other),
        } => in_expr(test) || in_statement(then) || in_statement(other),
        StmtKind::DoWhile { body, test, .. } => in_statement(body) || in_expr(test),
        StmtKind::While { test, body } => in_expr(test) || in_statement(body),
        StmtKind::For {
            first,
            test,
            update,
            body,
        } => in_first(first) || in_maybe(test) || in_maybe(update) || in_statement(body),
        StmtKind::ForIn {
            target,
            object,
            body,
        } => in_target(target) || in_expr(object) || in_statement(body),
        StmtKind::Return { value, .. } => in_maybe(value),
        StmtKind::Throw { value, .. } => in_expr(value),
        StmtKind::Switch { value, clauses } => in_expr(value) || in_clauses(clauses),
        StmtKind::Labelled { body, .. } => in_statement(body),
        StmtKind::TryCatch { block, handler, .. } => in_block(block) || in_block(handler),
        StmtKind::TryFinally { block, finalizer } => in_block(block) || in_block(finalizer),
        StmtKind::TryBoth {
            block,
            handler,
            finalizer,
            ..
        } => in_block(block) || in_block(handler) || in_block(finalizer),
    }
}

#[cycle(walk)]
fn in_list(list: &StmtList) -> bool
    ensures { result ≡ names_in_statements (view_stmts (nodes_of list.now)) }
{
    'statements: for s in list.items() {
        if in_statement(s) {
            return true;
        }
    }
    false
}

/// Whether the code of a function names its `arguments` object. Functions in it have their own.
#[tactic(auto, using(js_ast::proofs::ViewLaws::parts_function))]
pub fn names_arguments(f: &Function) -> bool
    ensures { result ≡ names_in_statements (body_of (view_function f.now)) }
{
    in_list(&f.body)
}
