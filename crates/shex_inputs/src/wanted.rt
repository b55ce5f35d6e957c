//! What is wanted of the files of a schema and of data.

/// What is wanted of the files of a schema and of data.
#[derive(Clone, Copy, Debug, PartialEq, Eq)]
pub enum Wanted {
    /// What they hold.
    Contents,
    /// What they hold, and the digests of their bytes.
    Digests,
}
