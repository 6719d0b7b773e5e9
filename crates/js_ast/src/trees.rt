//! Trees.

use crate::node_list::NodeList;
use crate::operators::{AssignOperator, BinaryOperator, PostfixOperator, UnaryOperator};
use flow_text::Text;
use js_number::Int;

pub type ExprList = NodeList<Expr>;

pub type ItemList = NodeList<Item>;

pub type PropertyList = NodeList<Property>;

pub type IdentList = NodeList<Ident>;

pub type DeclarationList = NodeList<Declaration>;

pub type ClauseList = NodeList<Clause>;

pub type StmtList = NodeList<Stmt>;

/// A name where it is bound, or a statement's label.
#[derive(Debug, Drop)]
pub struct Ident {
    pub at: usize,
    pub text: Text,
}

/// The key of a property.
#[derive(Debug, Drop)]
pub enum Key {
    /// An identifier name, reserved or not.
    Name(Text),
    /// A string, by its token's text and its value.
    String { text: Text, value: Text },
    Number(Int),
}

/// How a statement ends.
#[derive(Clone, Copy, Debug, PartialEq, Eq)]
pub enum Semi {
    Written,
    Elided,
}

/// An expression (ECMA-262 11).
#[derive(Drop)]
#[cycle(tree)]
pub struct Expr {
    /// The place of its first token.
    pub at: usize,
    pub kind: Box<ExprKind>,
}

/// What an expression is.
#[derive(Drop)]
#[cycle(tree)]
pub enum ExprKind {
    Name(Text),
    Number(Int),
    /// A string, by its token's text and its value.
    String {
        text: Text,
        value: Text,
    },
    This,
    Null,
    Bool(bool),
    Paren(Expr),
    /// The items, and whether a comma stands behind a last expression.
    Array {
        items: ItemList,
        comma: bool,
    },
    /// The properties, and whether a comma stands behind the last one.
    Object {
        properties: PropertyList,
        comma: bool,
    },
    Function(Function),
    Member {
        base: Expr,
        name: Text,
    },
    Index {
        base: Expr,
        index: Expr,
    },
    /// `new`, with arguments or without.
    New {
        callee: Expr,
        args: Option<ExprList>,
    },
    Call {
        callee: Expr,
        args: ExprList,
    },
    Postfix {
        operand: Expr,
        operator: PostfixOperator,
    },
    Unary {
        operator: UnaryOperator,
        operand: Expr,
    },
    Binary {
        left: Expr,
        operator: BinaryOperator,
        right: Expr,
    },
    Conditional {
        test: Expr,
        then: Expr,
        other: Expr,
    },
    Assign {
        target: Expr,
        operator: AssignOperator,
        value: Expr,
    },
    Comma {
        left: Expr,
        right: Expr,
    },
}

/// An item of an array.
#[derive(Drop)]
#[cycle(tree)]
pub enum Item {
    Hole,
    Value(Expr),
}

/// A property of an object.
#[derive(Drop)]
#[cycle(tree)]
pub struct Property {
    /// The place of its first token.
    pub at: usize,
    pub key: Key,
    pub kind: PropertyKind,
}

/// What a property is.
#[derive(Drop)]
#[cycle(tree)]
pub enum PropertyKind {
    Value(Expr),
    Getter(Function),
    Setter(Function),
}

/// A function: an expression, a declaration, a getter or a setter (ECMA-262 11.1.5, 13).
#[derive(Drop)]
#[cycle(tree)]
pub struct Function {
    /// The place of its first token, which is that of the node that holds it.
    pub at: usize,
    /// Functions are numbered from 0, in the order of their first tokens.
    pub number: u32,
    /// Its code is strict by a directive, its own or one around it.
    pub strict: bool,
    /// A declaration has a name, an expression may have one, a getter and a setter have none.
    pub name: Option<Ident>,
    pub params: IdentList,
    pub body: StmtList,
}

/// A statement (ECMA-262 12, 13).
#[derive(Drop)]
#[cycle(tree)]
pub struct Stmt {
    /// The place of its first token.
    pub at: usize,
    pub kind: Box<StmtKind>,
}

/// What a statement is.
#[derive(Drop)]
#[cycle(tree)]
pub enum StmtKind {
    Block(StmtList),
    Var {
        declarations: Declarations,
        semi: Semi,
    },
    Empty,
    Expr {
        expr: Expr,
        semi: Semi,
    },
    If {
        test: Expr,
        then: Stmt,
        other: Option<Stmt>,
    },
    DoWhile {
        body: Stmt,
        test: Expr,
        semi: Semi,
    },
    While {
        test: Expr,
        body: Stmt,
    },
    For {
        first: ForFirst,
        test: Option<Expr>,
        update: Option<Expr>,
        body: Stmt,
    },
    ForIn {
        target: ForTarget,
        object: Expr,
        body: Stmt,
    },
    Continue {
        label: Option<Ident>,
        semi: Semi,
    },
    Break {
        label: Option<Ident>,
        semi: Semi,
    },
    Return {
        value: Option<Expr>,
        semi: Semi,
    },
    Throw {
        value: Expr,
        semi: Semi,
    },
    Switch {
        value: Expr,
        clauses: ClauseList,
    },
    Labelled {
        label: Text,
        body: Stmt,
    },
    TryCatch {
        block: Block,
        param: Ident,
        handler: Block,
    },
    TryFinally {
        block: Block,
        finalizer: Block,
    },
    TryBoth {
        block: Block,
        param: Ident,
        handler: Block,
        finalizer: Block,
    },
    Debugger(Semi),
    Function(Function),
}

/// A variable, with its initialiser or none.
#[derive(Drop)]
#[cycle(tree)]
pub struct Declaration {
    pub name: Ident,
    pub value: Option<Expr>,
}

/// The variables of one `var`, of which there is one at least.
#[derive(Drop)]
#[cycle(tree)]
pub struct Declarations {
    pub first: Declaration,
    pub others: DeclarationList,
}

/// The first part of a `for` header.
#[derive(Drop)]
#[cycle(tree)]
pub enum ForFirst {
    Expr(Option<Expr>),
    Var(Declarations),
}

/// What a `for` with `in` assigns to.
#[derive(Drop)]
#[cycle(tree)]
pub enum ForTarget {
    Expr(Expr),
    /// The variable that it declares.
    Var(Ident),
}

/// A clause of a `switch`. The one with no test is `default`.
#[derive(Drop)]
#[cycle(tree)]
pub struct Clause {
    pub test: Option<Expr>,
    pub body: StmtList,
}

/// Statements between braces, as a node of their own.
#[derive(Drop)]
#[cycle(tree)]
pub struct Block {
    /// The place of its brace.
    pub at: usize,
    pub body: StmtList,
}

/// A script.
#[derive(Drop)]
pub struct Program {
    pub body: StmtList,
    /// Its code is strict by a directive.
    pub strict: bool,
    /// The number of its functions.
    pub function_count: u32,
}
