//! The levels of expressions and operators.

ghost use Rattle.std.specs.Prelude.{◌≡◌, ◌≤◌, suc};
ghost use Rattle.js_ast.specs.Levels.{binding, is_step, level, is_bare_new, is_target};
ghost use Rattle.js_list_parser.specs.ExpressionParsing.{operand_level};
ghost use Rattle.js_ast.specs.Views.{view_expr};

use js_ast::{BinaryOperator, Expr, ExprKind, UnaryOperator};

/// The level of an operator between operands.
pub fn binding(operator: BinaryOperator) -> u8
    ensures level { result ≡ binding operator }
    ensures bound { result ≤ 12 }
{
    match operator {
        BinaryOperator::Multiply | BinaryOperator::Divide | BinaryOperator::Remainder => 12,
        BinaryOperator::Add | BinaryOperator::Subtract => 11,
        BinaryOperator::ShiftLeft | BinaryOperator::ShiftRight | BinaryOperator::ShiftRightZero => {
            10
        }
        BinaryOperator::Less
        | BinaryOperator::Greater
        | BinaryOperator::LessEqual
        | BinaryOperator::GreaterEqual
        | BinaryOperator::Instanceof
        | BinaryOperator::In => 9,
        BinaryOperator::Equal
        | BinaryOperator::NotEqual
        | BinaryOperator::StrictEqual
        | BinaryOperator::StrictNotEqual => 8,
        BinaryOperator::BitAnd => 7,
        BinaryOperator::BitXor => 6,
        BinaryOperator::BitOr => 5,
        BinaryOperator::And => 4,
        BinaryOperator::Or => 3,
    }
}

/// The least level of its right operand: the operators join from the left.
pub fn right_level(operator: BinaryOperator) -> u8
    ensures level { result ≡ suc (binding operator) }
    ensures bound { result ≤ 13 }
{
    binding(operator) + 1
}

/// The least level of the operand of an operator in front.
pub fn operand_level(operator: UnaryOperator) -> u8
    ensures level { result ≡ operand_level operator }
    ensures bound { result ≤ 15 }
{
    match operator {
        UnaryOperator::Increment | UnaryOperator::Decrement => 15,
        _ => 13,
    }
}

/// Whether an operator in front changes its operand.
pub fn is_step(operator: UnaryOperator) -> bool
    ensures { result ≡ is_step operator }
{
    matches!(
        operator,
        UnaryOperator::Increment | UnaryOperator::Decrement
    )
}

/// The level of an expression.
pub fn level(expr: &Expr) -> u8
    ensures level { result ≡ level (view_expr expr.now) }
    ensures bound { result ≤ 17 }
{
    match &*expr.kind {
        ExprKind::Member { base, .. } => level(base).min(16),
        ExprKind::Index { base, .. } => level(base).min(16),
        ExprKind::New { args: Some(_), .. } => 16,
        ExprKind::New { args: None, .. } => 15,
        ExprKind::Call { .. } => 15,
        ExprKind::Postfix { .. } => 14,
        ExprKind::Unary { .. } => 13,
        ExprKind::Binary { operator, .. } => binding(*operator),
        ExprKind::Conditional { .. } => 2,
        ExprKind::Assign { .. } => 1,
        ExprKind::Comma { .. } => 0,
        _ => 17,
    }
}

/// Whether an expression is a `new` without arguments.
pub fn is_bare_new(expr: &Expr) -> bool
    ensures { result ≡ is_bare_new (view_expr expr.now) }
{
    matches!(&*expr.kind, ExprKind::New { args: None, .. })
}

/// Whether an expression may be assigned to.
pub fn is_target(expr: &Expr) -> bool
    ensures { result ≡ is_target (view_expr expr.now) }
{
    match &*expr.kind {
        ExprKind::Name(_) | ExprKind::Member { .. } | ExprKind::Index { .. } => true,
        ExprKind::Paren(inner) => is_target(inner),
        _ => false,
    }
}
