//! The outside of the program: named files and sinks of bytes, with counts of their faults.
#![tactic(auto)]

mod calls;
mod contents;
mod faults;
mod fetching;
pub mod files;
pub mod host;
pub mod memory;
pub mod sinks;
pub mod sure;

pub use fetching::{MAX_FILE, fetch};
pub use files::{Act, FetchError, Files, StoreError};
pub use host::{DiskFiles, StdSink};
pub use memory::{MemFiles, MemSink};
pub use sinks::{Sink, SinkError, put_all};
pub use sure::{SureFiles, SureSink};
