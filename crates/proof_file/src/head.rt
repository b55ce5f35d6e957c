//! The head of a proof: the files that it is made for, and its strata.

use rdf_terms::items::Items;
use std::fmt;

/// The SHA-256 digest of a file's bytes.
#[derive(Clone, Copy, Debug, PartialEq, Eq)]
pub struct Digest256(pub [u8; 32]);

/// The digests of the files that a proof is made for.
#[derive(Debug, Drop)]
pub struct Digests {
    /// The schema file's.
    pub schema: Digest256,
    /// Those of the imported files, in the order in which they are read.
    pub imports: Items<Digest256>,
    /// The data file's.
    pub graph: Digest256,
}

/// Which file a digest is of. It shows its name in small letters.
#[derive(Clone, Copy, Debug, PartialEq, Eq)]
pub enum Part {
    /// The schema file.
    Schema,
    /// An imported file.
    Import,
    /// The data file.
    Data,
}

impl fmt::Display for Part {
    ghost use Rattle.std.specs.Prelude.{Some};
    ghost use Rattle.proof_file.specs.Messages.{part_text};

    ghost output = { λ part. Some (part_text part) };

    fn fmt<W: fmt::Write>(&self, f: &mut fmt::Formatter<W>) -> fmt::Result {
        match self {
            Part::Schema => f.write_str("schema"),
            Part::Import => f.write_str("import"),
            Part::Data => f.write_str("data"),
        }
    }
}

/// What stands at the head of a proof: the files that it is made for, and the strata that it brings.
#[derive(Debug, Drop)]
pub struct Head {
    /// The digests of the files.
    pub files: Digests,
    /// The stratum of each Shape of the schema, in the order of their numbers.
    pub strata: Items<u32>,
}
