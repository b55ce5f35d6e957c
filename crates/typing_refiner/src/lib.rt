//! What is known of pairs: removal of those that cannot match, and confirmation of the others, stratum by stratum.
#![tactic(auto)]

pub mod building;
pub mod confirmation;
pub mod found;
pub mod ground;
pub mod laws;
pub mod marks;
pub mod records;
pub mod refining;
pub mod removal;
pub mod standing;
pub mod strata_loop;
pub mod triple_table;
pub mod wanted;
pub mod witness;
pub mod witnesses;

pub use found::Refined;
pub use refining::{Question, refine};
pub use wanted::Wanted;
