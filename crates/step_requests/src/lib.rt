//! What built-ins ask for, request by request.
#![tactic(auto)]

mod asked;
mod channels;
mod doing;
mod effects;
mod ends;
mod entering;
mod handing_on;
mod making;
mod moved;
mod objects;
mod properties;
mod requesting;

pub use requesting::request;
