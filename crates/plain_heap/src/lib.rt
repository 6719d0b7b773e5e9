//! Objects that are made before a run begins. All their labels are one, so that they are seen without labels.
#![tactic(auto)]

mod names;
mod numbers;
mod plain_heap;

pub use names::{key_of, text_of};
pub use numbers::{
    ARGUMENTS_ACCESSOR, ARRAY_LENGTH, ARRAY_PROTOTYPE, BOOLEAN_PROTOTYPE, BUILT_IN,
    CALLEE_ACCESSOR, CALLER_ACCESSOR, ERROR_PROTOTYPE, EVAL_ERROR_PROTOTYPE, FIXED,
    FUNCTION_PROTOTYPE, GLOBAL_OBJECT, JSON_OBJECT, MATH_OBJECT, NUMBER_PROTOTYPE,
    OBJECT_PROTOTYPE, RANGE_ERROR_PROTOTYPE, REFERENCE_ERROR_PROTOTYPE, STRING_PROTOTYPE,
    SYNTAX_ERROR_PROTOTYPE, TYPE_ERROR_PROTOTYPE, URI_ERROR_PROTOTYPE,
};
pub use plain_heap::PlainHeap;
