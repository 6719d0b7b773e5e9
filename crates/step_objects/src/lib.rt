//! Objects and references: how a literal makes an object, which values can have properties, which keys an object has, how a property is deleted, what an object is an instance of, what is done with a reference, and operators between two values.
#![tactic(auto)]

mod asking;
mod deleting;
mod enumerating;
mod instances;
mod literals;
mod needing;
mod operators;
mod parts;
mod references;
mod visiting;

pub use asking::has_key;
pub use deleting::remove_property;
pub use enumerating::keys_of;
pub use instances::{InstanceTest, instance, instance_of, testing_instances};
pub use literals::{LiteralPart, Part, make_object};
pub use needing::{base_needed, object_needed};
pub use operators::{one_more, operated, operating};
pub use parts::text_of_key;
pub use references::{Reference, get_value, put_value, remove, typeof_value};
pub use visiting::still_has;
