//! The numbers of objects that a run starts with, and the attributes of their properties.

use js_values::{Marks, ObjId};

/// The prototype of all objects.
pub const OBJECT_PROTOTYPE: ObjId = ObjId(0);

/// The global object.
pub const GLOBAL_OBJECT: ObjId = ObjId(1);

/// The prototype of errors, and of the prototypes of the other kinds of errors.
pub const ERROR_PROTOTYPE: ObjId = ObjId(2);

/// The prototypes of the other kinds of errors.
pub const EVAL_ERROR_PROTOTYPE: ObjId = ObjId(3);

pub const RANGE_ERROR_PROTOTYPE: ObjId = ObjId(4);

pub const REFERENCE_ERROR_PROTOTYPE: ObjId = ObjId(5);

pub const SYNTAX_ERROR_PROTOTYPE: ObjId = ObjId(6);

pub const TYPE_ERROR_PROTOTYPE: ObjId = ObjId(7);

pub const URI_ERROR_PROTOTYPE: ObjId = ObjId(8);

/// The prototype of functions.
pub const FUNCTION_PROTOTYPE: ObjId = ObjId(9);

/// The prototype of booleans.
pub const BOOLEAN_PROTOTYPE: ObjId = ObjId(10);

/// The prototype of numbers.
pub const NUMBER_PROTOTYPE: ObjId = ObjId(11);

/// `Math`.
pub const MATH_OBJECT: ObjId = ObjId(12);

/// `JSON`.
pub const JSON_OBJECT: ObjId = ObjId(13);

/// The prototype of arrays.
pub const ARRAY_PROTOTYPE: ObjId = ObjId(14);

/// The prototype of strings.
pub const STRING_PROTOTYPE: ObjId = ObjId(15);

/// The accessor of `caller`.
pub const CALLER_ACCESSOR: ObjId = ObjId(16);

/// The accessor of `arguments`.
pub const ARGUMENTS_ACCESSOR: ObjId = ObjId(17);

/// The accessor of `callee`.
pub const CALLEE_ACCESSOR: ObjId = ObjId(18);

/// The attributes of the properties of built-in objects (ECMA-262 15).
pub const BUILT_IN: Marks = Marks {
    writable: true,
    enumerable: false,
    configurable: true,
};

/// The attributes of the `length` of an array (ECMA-262 15.4.5.2).
pub const ARRAY_LENGTH: Marks = Marks {
    writable: true,
    enumerable: false,
    configurable: false,
};

/// The attributes of what can't be changed.
pub const FIXED: Marks = Marks {
    writable: false,
    enumerable: false,
    configurable: false,
};
