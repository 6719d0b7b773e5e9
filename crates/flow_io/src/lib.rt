//! The outside: where bytes come from, and where they go.
#![tactic(auto)]

mod firm_sink;
mod firm_store;
mod loading;
mod memory_file;
mod memory_sink;
mod memory_store;
mod real;
mod sink;
mod store;

pub use firm_sink::FirmSink;
pub use firm_store::FirmStore;
pub use loading::{LoadFault, load};
pub use memory_sink::MemorySink;
pub use memory_store::MemoryStore;
pub use real::{RealSink, RealStore};
pub use sink::Sink;
pub use store::{Failed, Store};
