//! The parts of a script that a machine enters, and the work that waits for what they come to.

ghost use Rattle.std.specs.Prelude.{◌≡◌, [], ◌∷◌, IfNone, IfSome};
ghost use Rattle.js_ast.specs.Views.{view_stmt};
ghost use Rattle.continuations.specs.Kept.{place_of};
ghost use Rattle.continuations.specs.Pending.{owns, owns_use, owns_target, owns_calling};
ghost use Rattle.continuations.specs.Shapes.{inner_of, maybe_of, round_of};

use flow_text::Text;
use js_ast::{
    BinaryOperator, Block, Clause, ClauseList, Declaration, Declarations, Expr, ForTarget,
    Function, Ident, ItemList, PropertyList, Stmt, StmtKind, UnaryOperator,
};
use js_number::Int;
use js_values::EnvId;
use native_protocol::{Hint, Reg};
use run_state::{Place, SetLength};

/// What is done with a reference.
#[derive(Clone, Copy)]
pub enum Use<'p> {
    /// It is given the value of an expression.
    Assigned(&'p Expr),
    /// It is given what an operator makes of its value and that of an expression.
    Updated(BinaryOperator, &'p Expr),
    /// Its value as a number is changed by one, and the new value is given.
    Prefixed(BinaryOperator),
    /// The same, and the old value is given.
    Postfixed(BinaryOperator),
    /// It is asked for its type.
    Asked,
    /// It is asked for its value.
    Valued,
    /// It is deleted.
    Deleted,
    /// It is given a text, which is an operand.
    GivenText,
    /// Its value is called with these arguments.
    Called(&'p [Expr]),
}

/// A reference with which work waits. A name that stands nowhere keeps the label of the walk to it, as that of an operand, and a property its
/// base and its key.
#[derive(Clone, Copy)]
pub enum Target<'p> {
    Name(&'p Text, Place),
    Property,
}

/// A `for in`: the outermost statement behind whose labels it stands, what is given each key, and what is done then.
#[derive(Clone, Copy)]
pub struct Enumeration<'p> {
    pub of: &'p Stmt,
    pub target: &'p ForTarget,
    pub body: &'p Stmt,
}

/// A loop of which a turn is evaluated, as one reference, since it is moved with each `Control` and `Continuation`: the outermost statement
/// behind whose labels it stands. A statement that is no loop is its own body, and nothing else.
#[derive(Clone, Copy)]
pub struct Round<'p> {
    pub of: &'p Stmt,
}

/// The statement behind all labels in front of it.
#[inline(always)]
#[tactic(auto, using(crate::proofs::LabelLaws::inner_body, crate::proofs::LabelLaws::inner_alone, js_ast::specs::declared::trees::ExprKind::TheViews::the_lemmas))]
pub(crate) fn inner(s: &Stmt) -> &Stmt
    ensures { view_stmt result.now ≡ inner_of (view_stmt s.entry.now) }
{
    match &*s.kind {
        StmtKind::Labelled { body, .. } => inner(body),
        _ => s,
    }
}

impl<'p> Round<'p> {
    /// What a turn evaluates first.
    #[inline(always)]
    pub fn body(self) -> &'p Stmt
        ensures { view_stmt result.now ≡ (round_of self.entry).body }
    {
        let of = inner(self.of);
        match &*of.kind {
            StmtKind::DoWhile { body, .. }
            | StmtKind::While { body, .. }
            | StmtKind::For { body, .. } => body,
            _ => of,
        }
    }

    /// What the header changes behind a turn.
    #[inline(always)]
    pub fn update(self) -> Option<&'p Expr>
        ensures { maybe_of result ≡ (round_of self.entry).update }
    {
        match &*inner(self.of).kind {
            StmtKind::For { update, .. } => update.as_ref(),
            _ => None,
        }
    }

    /// The condition.
    #[inline(always)]
    pub fn test(self) -> Option<&'p Expr>
        ensures { maybe_of result ≡ (round_of self.entry).test }
    {
        match &*inner(self.of).kind {
            StmtKind::DoWhile { test, .. } | StmtKind::While { test, .. } => Some(test),
            StmtKind::For { test, .. } => test.as_ref(),
            _ => None,
        }
    }
}

/// What is done with arguments.
#[derive(Clone, Copy, Debug, PartialEq, Eq)]
pub enum Calling {
    /// A value is called: its `this` and it lie below the arguments, as in the registers of a built-in.
    Calls,
    /// A value makes an object: it lies below the arguments.
    Constructs,
}

/// Which of both values `++` and `--` give: in front of their operand the new one, and behind it the old one.
#[derive(Clone, Copy, Debug, PartialEq, Eq)]
pub enum Counting {
    Prefix,
    Postfix,
}

/// Why a run leaves the language.
#[derive(Clone, Copy, Debug, PartialEq, Eq)]
pub enum Reason {
    /// A number that the language doesn't have.
    Number,
    /// A text that is too long.
    String,
    /// A channel that the policy doesn't have.
    Channel,
    /// An origin that the policy doesn't have.
    Origin,
    /// A primitive value that would be wrapped in an object.
    Wrapper,
    /// What a built-in doesn't offer. Its name is the value that no work keeps.
    Named,
}

/// A jump that was allowed, and left the frames inside the one that it reaches. Its value lies beside it.
#[derive(Clone, Copy, Debug, PartialEq, Eq)]
pub enum Jump {
    /// It goes to what catches it.
    Throws,
    /// It goes to the call in the frame at this depth.
    Returns(usize),
    /// It goes behind the loop, turn or statement that has so many round it, in the frame at this depth.
    Leaves(usize, usize),
}

/// What waits for the completion of a part. Some of it keeps values beside it, its operands: `owns` tells how many.
#[derive(Clone, Copy)]
pub enum Continuation<'p> {
    /// The value is the operand.
    Unary(UnaryOperator),
    /// The value is the left operand, and the right one is evaluated next.
    BinaryRight(BinaryOperator, &'p Expr),
    /// The value is the right operand. It keeps the left one.
    BinaryDone(BinaryOperator),
    AndRight(&'p Expr),
    OrRight(&'p Expr),
    /// The value chooses one of two expressions.
    Choose(&'p Expr, &'p Expr),
    CommaRight(&'p Expr),
    /// The value is given to the reference.
    AssignTo(Target<'p>),
    /// The value is the operand of a compound assignment. It keeps the old value behind what the reference keeps.
    CompoundDone(BinaryOperator, Target<'p>),
    /// The value is an argument. It keeps what is called and the arguments before it, and others stand behind.
    Argument(Calling, u32, &'p [Expr]),
    /// The value is called with arguments, and no `this`.
    Callee(&'p [Expr]),
    /// The value makes an object with arguments.
    Constructor(&'p [Expr]),
    /// The value is the left operand of `instanceof`.
    InstanceRight(&'p Expr),
    /// The value is the right operand of `instanceof`. It keeps the left one.
    InstanceDone,
    /// The value is the base of the property with this name.
    MemberBase(Use<'p>, &'p Text),
    /// The value is the base of a property, and its key is evaluated next.
    IndexBase(Use<'p>, &'p Expr),
    /// The value is the key of a property. It keeps the base, behind the operand of the use.
    IndexKey(Use<'p>),
    /// The value is that of a property of an object. It keeps those before it.
    Property(&'p PropertyList, u32),
    /// The value is that of the item of an array with this number. It keeps those before it, so many.
    Item(&'p ItemList, u32, u32),
    /// The value is of no use.
    Discard,
    /// The value is of no use, and behind it the directive is obeyed that the expression is.
    Raise(&'p Expr),
    /// The value is thrown.
    Throw,
    /// The value is returned.
    Return,
    /// The value chooses the statement or nothing.
    ChooseStmt(&'p Stmt),
    /// The value chooses one of two statements.
    ChooseStmts(&'p Stmt, &'p Stmt),
    /// Statements stand behind.
    Statements(&'p [Stmt]),
    /// The value is that of a variable, and others stand behind.
    Variable(Target<'p>, &'p [Declaration]),
    /// The loop's first part was evaluated.
    Looped(Round<'p>),
    /// The loop's variables were declared.
    Declared(Round<'p>),
    /// The value decides on a further turn.
    Tested(Round<'p>),
    /// What the loop's header changes was evaluated.
    Updated(Round<'p>),
    /// A turn is over.
    Turned(Round<'p>),
    /// The value is what a `for in` takes the keys of.
    Enumerated(Enumeration<'p>),
    /// A key was given to the target of a `for in`, and its body is done next.
    VisitBody(&'p Stmt),
    /// A turn of a `for in` is over. It keeps the object, and the keys that are left, of which the last is next.
    Visited(Enumeration<'p>, u32),
    /// The value is that of a `switch` with these clauses, behind the labels of this statement.
    Switched(&'p Stmt, &'p ClauseList),
    /// The value is that of the case with this number. It keeps the value of the `switch`.
    Compared(&'p ClauseList, u32),
    /// A statement of the first clause was evaluated: those from this number on stand behind, and then the other clauses.
    Falls(&'p [Clause], u32),
    /// The branch that stands in the frame at this depth is over. It has a value, or none.
    EndBranch(bool, usize),
    /// The loop, the turn or the `switch` that stands in the frame at this depth is over, behind the labels of this statement.
    EndRound(bool, usize, &'p Stmt),
    /// The statement with this label, which is no loop and no `switch`, is over.
    EndLabel(usize, &'p Text),
    /// The call that stands in the frame at this depth, and began in this record, is over.
    EndCall(EnvId, usize),
    /// The same of a call that makes an object, which it keeps.
    EndNew(EnvId, usize),
    /// The block of this `try` statement, which stands in the frame at this depth, is over.
    EndBlock(&'p Stmt, usize),
    /// Its handler, which began in this record, is over.
    EndHandler(&'p Stmt, EnvId, usize),
    /// What it does last is over. It keeps the value of the jump that waited, if one did.
    EndLast(Option<Jump>),
    /// The whole `try` statement is over.
    EndTry(usize),
    /// The value is the left operand, converted. It keeps the right one.
    ConvertedLeft(BinaryOperator),
    /// The value is the right operand, and both are converted. It keeps the left one.
    Operate(BinaryOperator),
    /// The value is the operand, converted.
    UnaryConverted(UnaryOperator),
    /// The value is the key that `in` asks for, converted. It keeps the object.
    KeyHas,
    /// The value is the key of a property, converted. It keeps the base, behind the operand of the use.
    KeyOf(Use<'p>),
    /// The value is that of the reference, which `++` or `--` changes by this operator.
    Counted(Counting, BinaryOperator, Target<'p>),
    /// The same, converted to a primitive value.
    CountedNumber(Counting, BinaryOperator, Target<'p>),
    /// The value is that of the reference before a compound assignment, whose operand is evaluated next.
    CompoundRight(BinaryOperator, &'p Expr, Target<'p>),
    /// The value is called with arguments. It keeps what the call has as `this`.
    CalledBy(&'p [Expr]),
    /// The value is the `prototype` of what stands on the right of `instanceof`. It keeps the left operand, with the label of both.
    InstanceTest,
    /// The value is what the `length` of an array is given, converted once. It keeps the array, with the label of base, key and walk, and the value.
    LengthOnce(SetLength),
    /// The same, converted once more. It keeps the array, and what the first conversion came to.
    LengthTwice(SetLength),
    /// A setter's value is of no use, and so is that of a `length`. It keeps the value that the assignment gives.
    GiveBehind,
    /// The same behind the assignment of a variable, and other variables stand behind.
    VariablesBehind(&'p [Declaration]),
    /// The value is what a built-in asked for, or a setter's, which is of no use where no register is named. It keeps the registers, so many.
    Answered(u32, Option<Reg>),
}

impl Use<'_> {
    /// How many operands it has.
    #[inline(always)]
    pub fn owns(self) -> usize
        ensures { result ≡ owns_use self.entry }
    {
        match self {
            Use::GivenText => 1,
            _ => 0,
        }
    }
}

impl Calling {
    /// How many values lie below the arguments.
    #[inline(always)]
    pub fn owns(self) -> usize
        ensures { result ≡ owns_calling self }
    {
        match self {
            Calling::Calls => 2,
            Calling::Constructs => 1,
        }
    }
}

impl Target<'_> {
    /// How many operands it keeps.
    #[inline(always)]
    pub fn owns(self) -> usize
        ensures { result ≡ owns_target self.entry }
    {
        match self {
            Target::Name(_, Place::Nowhere) => 1,
            Target::Name(_, _) => 0,
            Target::Property => 2,
        }
    }
}

impl<'p> Continuation<'p> {
    /// How many operands it keeps.
    #[inline(always)]
    pub fn owns(self) -> usize
        ensures { result ≡ owns self.entry }
    {
        match self {
            Continuation::BinaryDone(_) => 1,
            Continuation::AssignTo(target) | Continuation::Variable(target, _) => target.owns(),
            Continuation::CompoundDone(_, target) => target.owns() + 1,
            Continuation::InstanceDone
            | Continuation::Compared(_, _)
            | Continuation::EndNew(_, _) => 1,
            Continuation::EndLast(waiting) => waiting.is_some() as usize,
            Continuation::Argument(calling, count, _) => calling.owns() + count as usize,
            Continuation::Property(_, count) | Continuation::Item(_, _, count) => count as usize,
            Continuation::MemberBase(how, _) | Continuation::IndexBase(how, _) => how.owns(),
            Continuation::IndexKey(how) => how.owns() + 1,
            Continuation::Visited(_, count) => count as usize + 1,
            Continuation::ConvertedLeft(_) | Continuation::Operate(_) | Continuation::KeyHas => 1,
            Continuation::KeyOf(how) => how.owns() + 1,
            Continuation::Counted(_, _, target)
            | Continuation::CountedNumber(_, _, target)
            | Continuation::CompoundRight(_, _, target) => target.owns(),
            Continuation::CalledBy(_) | Continuation::InstanceTest | Continuation::GiveBehind => 1,
            Continuation::LengthOnce(_) | Continuation::LengthTwice(_) => 2,
            Continuation::Answered(count, _) => count as usize,
            _ => 0,
        }
    }

    /// The record in which the call or the handler began that it ends.
    #[inline(always)]
    pub(crate) fn place(self) -> Option<EnvId>
        ensures none { IfNone result (place_of self.entry ≡ []) }
        ensures some { IfSome result (λ own. place_of self.entry ≡ own.0 ∷ []) }
    {
        match self {
            Continuation::EndCall(own, _)
            | Continuation::EndNew(own, _)
            | Continuation::EndHandler(_, own, _) => Some(own),
            _ => None,
        }
    }
}

/// What a machine does next.
#[derive(Clone, Copy)]
pub enum Control<'p> {
    /// The part has come to the value that lies uppermost among the operands.
    Value,
    /// A jump goes on, with the value that lies uppermost among the operands.
    Jumps(Jump),
    /// The part has come to its end without a value.
    Done,
    /// The part has come to a value that stands in the script.
    Null,
    Bool(bool),
    Number(&'p Int),
    Text(&'p Text),
    /// The part comes to the value of a name.
    Name(&'p Text),
    /// The part comes to the value of `this`.
    This,
    /// The part comes to an object with these properties, of which so many have their values, those that no work keeps.
    Object(&'p PropertyList, u32),
    /// The part comes to an array with these items, of which those that are no holes have the values, so many, that no work keeps.
    Array(&'p ItemList, u32),
    /// The value that no work keeps, a text, is given to a variable.
    GiveVariable(&'p Ident),
    /// The keys of the value that no work keeps are visited.
    Keys(Enumeration<'p>),
    /// So many keys are left to be visited: they and the object lie loose.
    Visits(Enumeration<'p>, u32),
    /// The built-in that runs is told what it is told, and asks for something. Its registers, so many, are the values that no work keeps.
    Request(u32),
    /// A value is called with so many arguments: its `this`, it and they are the values that no work keeps.
    Call(u32),
    /// A value makes an object with so many arguments: it and they are the values that no work keeps.
    Construct(u32),
    /// The value that no work keeps is converted to a primitive value.
    Convert(Hint),
    /// The first of the two values that no work keeps is converted as `==` converts an operand beside the second.
    Compare,
    /// The second of the two values that no work keeps is converted to a number's primitive value, in a frame with the first one's label besides.
    ConvertBeside,
    /// The part comes to a function.
    Function(&'p Function),
    /// A loop or a statement is left, or a turn of it, by its label or none.
    Break(bool, &'p Option<Ident>),
    /// A function is left without a value.
    Return,
    /// A statement with this label, which is no loop and no `switch`.
    Labelled(&'p Text, &'p Stmt),
    /// A `try` statement.
    Try(&'p Stmt),
    /// An expression is evaluated.
    Expr(&'p Expr),
    /// A reference, or its parentheses, is evaluated for a use.
    Use(Use<'p>, &'p Expr),
    /// A statement is evaluated.
    Stmt(&'p Stmt),
    /// A block of a `try` statement is evaluated.
    Block(&'p Block),
    /// A loop, a `switch` or a labelled statement is evaluated that stands behind so many labels of this statement.
    Named(&'p Stmt, u32),
    /// Variables are given their first values, where they have one.
    Variables(&'p Declarations),
    /// A turn of a loop, and those behind it.
    Turn(Round<'p>),
    /// A turn of a `for in`, and those behind it. The object, the keys behind and the turn's key are the values that no work keeps.
    Visit(Enumeration<'p>, u32),
    /// A loop, which begins with its condition.
    Loop(Round<'p>),
    /// A loop, which begins with a turn.
    DoLoop(Round<'p>),
    /// The run leaves the language.
    Leave(Reason),
}
