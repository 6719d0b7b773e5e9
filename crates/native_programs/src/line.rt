//! What the programs of built-ins are made of.

use js_values::Class;
use native_protocol::ErrorKind;

/// A number that a call keeps.
#[derive(Clone, Copy)]
pub enum Counter {
    Length,
    Index,
    First,
    Last,
    Count,
    Items,
}

/// A text that a call keeps.
#[derive(Clone, Copy)]
pub enum TextSlot {
    Subject,
    Sought,
    Result,
    /// Of one turn of a loop alone.
    Piece,
}

/// A register: `this`, what is called, an argument, one of `this` and the arguments behind it by its number, one behind the arguments, one
/// of those in which arguments are gathered, or the one that holds the text that was converted last.
#[derive(Clone, Copy)]
pub enum Place {
    This,
    Callee,
    Argument(u8),
    /// The argument that stands so far behind another.
    ArgumentAt(u8, Counter),
    Item(Counter),
    Free(u8),
    Gathered(Counter),
    Held,
}

/// The name of a property: one that the standard names, or the decimal digits of a number that one or two counters make.
#[derive(Clone, Copy)]
pub enum Name {
    Length,
    Prototype,
    Name,
    Message,
    Join,
    At(Counter),
    /// One less.
    Before(Counter),
    Sum(Counter, Counter),
    /// One less than the sum.
    BeforeSum(Counter, Counter),
    /// As far from the end as the first is from the start, where the second is how many there are.
    Mirror(Counter, Counter),
}

/// A primitive value that is made.
#[derive(Clone, Copy)]
pub enum Fresh {
    Truth(bool),
    Whole(i64),
    Nan,
    Number(Counter),
    /// The integer that a text begins with, in a radix.
    Parsed(TextSlot, Counter),
    /// A number as a text of decimal digits.
    Digits(Counter),
    Text(TextSlot),
    /// The units of a text from one place up to another.
    Part(TextSlot, Counter, Counter),
}

/// Why a run is left.
#[derive(Clone, Copy)]
pub enum Reason {
    Wrapper,
    Text,
    Number,
    Case,
}

/// How a call ends.
#[derive(Clone, Copy)]
pub enum End {
    Return(Place),
    Give(Fresh),
    Throw(ErrorKind),
    Leave(Reason),
}

/// Where it goes on elsewhere than on the next line.
#[derive(Clone, Copy)]
pub enum Exit {
    Stay,
    Ends(End),
    NextTurn,
    LeaveLoop,
}

/// What a look is to see.
#[derive(Clone, Copy)]
pub enum Sight {
    Anything,
    Undefined,
    /// Not undefined.
    Given,
    /// Neither undefined nor null.
    Valued,
    True,
    NotTrue,
    Number,
    Text,
    Object,
    /// An object, undefined or null.
    ObjectOrNone,
    Callable,
    Array,
    /// An object of class String.
    StringObject,
    /// An object of class Number.
    NumberObject,
}

/// What is made of a number.
#[derive(Clone, Copy)]
pub enum Whole {
    Integer,
    Int32,
    Uint32,
    Uint16,
}

/// The arguments of a call: none, those of this call from one on, an element with its index and the whole, these behind what was made so
/// far, or those that were gathered, so many as a counter says.
#[derive(Clone, Copy)]
pub enum Args {
    None,
    Rest(u8),
    Element(Place, Place),
    Folded(Place, Place, Place),
    Gathered(Counter),
}

/// What is asked of the machine. A look that doesn't see what it is to see leads to its exit.
#[derive(Clone, Copy)]
pub enum Ask {
    Get(Place, Name, Place),
    Has(Place, Name, Place),
    Put(Place, Name, Place),
    Delete(Place, Name, Place),
    /// The definition of a property with a value that can be written and configured, enumerable or not.
    Define(Place, Name, Place, bool),
    Copy(Place, Place),
    Same(Place, Place, Place),
    Make(Fresh, Place),
    New(Class, Place),
    NewFrom(Class, Place, Place),
    Call(Place, Place, Args, Place),
    Bind(Place, Place, Args, Place),
    /// ToObject of what a register holds.
    ToObject(Place),
    Look(Place, Sight, Exit),
    /// ToString of what a register holds.
    Text(Place, Sight, TextSlot, Exit),
    /// ToNumber of what a register holds, and a whole number of that.
    Number(Place, Sight, Counter, Whole, Exit),
    Ends(End),
}

/// A number that is computed.
#[derive(Clone, Copy)]
pub enum Amount {
    Whole(i64),
    Of(Counter),
    Next(Counter),
    Prior(Counter),
    Half(Counter),
    Plus(Counter, Counter),
    Minus(Counter, Counter),
    Lesser(Counter, Counter),
    Greater(Counter, Counter),
    /// A number cut to those from zero to another.
    Within(Counter, Counter),
    /// A number that counts from the end where it is below zero, cut to those from zero to the end.
    Relative(Counter, Counter),
    /// How many arguments were passed from one on.
    Passed(u8),
    Size(TextSlot),
    UnitAt(TextSlot, Counter),
    /// The first place of a text in another, from a place on; -1 where there is none.
    Found(TextSlot, TextSlot, Counter),
    /// The last place of a text in another, up to a place; -1 where there is none.
    FoundBack(TextSlot, TextSlot, Counter),
    /// Where the piece that begins at a place ends: before the next separator, or with the text.
    PieceEnd(TextSlot, TextSlot, Counter),
}

/// A text that is computed.
#[derive(Clone, Copy)]
pub enum Wording {
    Comma,
    Colon,
    Error,
    /// The name of the class that was seen last, in brackets.
    ClassSeen,
    /// The number that was seen last, in a radix.
    InRadix(Counter),
    Lower(TextSlot),
    Upper(TextSlot),
    /// Without the blanks at both ends.
    Trimmed(TextSlot),
}

/// What decides without a look.
#[derive(Clone, Copy)]
pub enum Condition {
    Is(Counter, i64),
    Below(Counter, i64),
    NotBelow(Counter, i64),
    NotLess(Counter, Counter),
    More(Counter, Counter),
    /// A counter is the last one below another.
    Last(Counter, Counter),
    /// More arguments than so many.
    Given(u8),
    NotGiven(u8),
    Constructed,
    /// The last look saw this.
    Sees(Sight),
    SeesNot(Sight),
    /// A text was converted.
    HasText,
    /// A number was converted.
    HasNumber,
    /// The number that was converted last is NaN.
    IsNan,
    /// The number that was converted last isn't the counter's.
    Differs(Counter),
    Empty(TextSlot),
    /// A unit is past 007F.
    NotAscii(TextSlot),
    /// The integer that a text begins with, in a radix, is no number of the profile.
    ParsesNot(TextSlot, Counter),
}

/// How often a loop goes on: a counter up to another, or down to another, or until its lines leave it.
#[derive(Clone, Copy)]
pub enum Count {
    Up(Counter, Counter),
    Down(Counter, Counter),
    Endless,
}

/// A line of a program. Lines that ask for something take a turn.
#[derive(Clone, Copy)]
pub enum Line {
    Ask(Ask),
    /// It is asked where the condition holds.
    AskIf(Condition, Ask),
    Let(Counter, Amount),
    Set(TextSlot, Wording),
    /// A text is put behind another; where both are too long, the run is left.
    Append(TextSlot, TextSlot),
    /// A unit is put behind a text; where that is too long, the run is left.
    Push(TextSlot, Counter),
    When(Condition, Exit),
    Go(Exit),
    /// What stands up to its `EndIf` is passed over where the condition doesn't hold.
    If(Condition),
    EndIf,
    /// What stands up to its `EndLoop` is repeated. Each turn asks for something first.
    Loop(Count, Ask),
    EndLoop,
}
