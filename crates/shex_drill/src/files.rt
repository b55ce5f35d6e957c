//! The texts of a drill as files.

ghost use Rattle.std.specs.Prelude.{◌≡◌, IfSome, IsNone, None, string_bytes};
ghost use Rattle.shex_drill.specs.Files.{contents_by, contents_of};

use crate::making::Drill;
use shex_io::{FetchError, Files, StoreError};
use std::alloc::Global;

/// The name of the file of the schema.
pub const SCHEMA_FILE: &str = "schema.shex";

/// The name of the file of the data.
pub const DATA_FILE: &str = "data.ttl";

/// The name of the file of the shape map.
pub const MAP_FILE: &str = "map";

/// The texts of a drill as files, which are only read. No call on them fails by a fault.
#[derive(Drop)]
pub struct DrillFiles {
    texts: Drill,
    taken: u64,
}

impl DrillFiles {
    /// The texts as files: the schema as `schema.shex`, the data as `data.ttl` and the shape map as `map`.
    pub fn of(texts: Drill) -> Self
        ensures { contents_of result ≡ contents_by (string_bytes texts.schema) (string_bytes texts.graph) (string_bytes texts.map) }
    {
        DrillFiles { texts, taken: 0 }
    }

    /// The text of this name, if there is one.
    fn text(&self, name: &str) -> Option<&str>
        ensures found { IfSome result (λ t. contents_of self.now name.now ≡ Some t.now) }
        ensures missed { IsNone result → contents_of self.now name.now ≡ None }
    {
        if name == SCHEMA_FILE {
            Some(self.texts.schema.as_str())
        } else if name == DATA_FILE {
            Some(self.texts.graph.as_str())
        } else if name == MAP_FILE {
            Some(self.texts.map.as_str())
        } else {
            None
        }
    }
}

impl Files for DrillFiles {
    ghost use Rattle.std.specs.Prelude.{Some, []};
    ghost use Rattle.shex_io.specs.declared.files.Act.TheVariants.{Fetch};
    ghost use Rattle.shex_drill.specs.Files.{contents_of};

    ghost told = { λ files. Some (contents_of files) };

    ghost taken = { λ files. files.taken };

    ghost faults = { λ files. 0 };

    ghost blame = { λ files. [] };

    ghost act = { λ files. Fetch };

    // A name that none of the texts has is answered as want of memory: nothing asks for one.
    fn fetch(&mut self, alloc: Global, name: &str, limit: u64) -> Result<Vec<u8>, FetchError> {
        self.taken = 0;
        let Some(text) = self.text(name) else {
            return Err(FetchError::Memory);
        };
        let length = text.len() as u64;
        if length > limit {
            self.taken = limit + 1;
            return Err(FetchError::Long);
        }
        let Ok(bytes) = Vec::from_slice(alloc, text.as_bytes()) else {
            return Err(FetchError::Memory);
        };
        self.taken = length;
        Ok(bytes)
    }

    // A store is answered as want of memory: nothing is stored.
    fn store(&mut self, _name: &str, _bytes: &[u8]) -> Result<(), StoreError> {
        Err(StoreError::Memory)
    }
}
