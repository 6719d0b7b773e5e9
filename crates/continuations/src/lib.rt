//! The continuations of a machine: what waits for the completion of a part, with its operands, what a machine does next, and what most continuations begin with.
#![tactic(auto)]

mod arguments;
mod arrays;
mod continuation;
mod continuation_list;
mod jump_targets;
mod leaving;
mod objects;
mod registers;
mod stack;
mod statements;

pub use arguments::{begin_arguments, called_by, more_arguments};
pub use arrays::{begin_items, begin_length, convert_again, more_items};
pub use continuation::{
    Calling, Continuation, Control, Counting, Enumeration, Jump, Reason, Round, Target, Use,
};
pub use leaving::leave_by;
pub use objects::{
    Part, begin_index, begin_member, begin_properties, index_base, more_properties, part_at,
};
pub use registers::{answered, read_register, write_register};
pub use stack::Stack;
pub use statements::begin_statements;
