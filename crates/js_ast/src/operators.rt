//! Operators.

/// An operator in front of its operand (ECMA-262 11.4).
#[derive(Clone, Copy, Debug, PartialEq, Eq)]
pub enum UnaryOperator {
    Delete,
    Void,
    Typeof,
    Plus,
    Minus,
    BitNot,
    Not,
    Increment,
    Decrement,
}

/// An operator behind its operand (ECMA-262 11.3).
#[derive(Clone, Copy, Debug, PartialEq, Eq)]
pub enum PostfixOperator {
    Increment,
    Decrement,
}

/// An operator between two operands (ECMA-262 11.5 to 11.11).
#[derive(Clone, Copy, Debug, PartialEq, Eq)]
pub enum BinaryOperator {
    Multiply,
    Divide,
    Remainder,
    Add,
    Subtract,
    ShiftLeft,
    ShiftRight,
    ShiftRightZero,
    Less,
    Greater,
    LessEqual,
    GreaterEqual,
    Instanceof,
    In,
    Equal,
    NotEqual,
    StrictEqual,
    StrictNotEqual,
    BitAnd,
    BitXor,
    BitOr,
    And,
    Or,
}

/// An assignment, plain or with an operator (ECMA-262 11.13).
#[derive(Clone, Copy, Debug, PartialEq, Eq)]
pub enum AssignOperator {
    Assign,
    Multiply,
    Divide,
    Remainder,
    Add,
    Subtract,
    ShiftLeft,
    ShiftRight,
    ShiftRightZero,
    BitAnd,
    BitXor,
    BitOr,
}
