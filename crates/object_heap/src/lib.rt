//! Objects: what they have, and the flow rules W1 to W8 on them.
#![tactic(auto)]

mod heap;
mod index;
mod laws;
mod named;
mod object;
mod row;
mod shape;
mod table;

pub use flow_frames::FlowFault as HeapFault;
pub use heap::Heap;
pub use js_values::Inner;
pub use laws::{objects_belong, objects_read};
pub use shape::Shape;
