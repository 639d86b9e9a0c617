//! The outside as traits: sources of bytes and sinks for them, in memory and over the standard streams, and the trial book as a source.
#![tactic(auto)]

pub mod memory;
pub mod sink;
pub mod source;
pub mod standard;
pub mod steady;
pub mod text;
mod trial;

pub use memory::{MemSink, MemSource};
pub use sink::{Halt, Sink};
pub use source::{Failed, Source};
pub use standard::{StdSink, StdSource};
pub use steady::{SteadySink, SteadySource};
pub use text::Text;
pub use trial::TrialSource;
