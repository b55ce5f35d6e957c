//! Bytes in memory by name.

ghost use Rattle.std.specs.Prelude.{ℕ, List, Some, None, ◌≡◌, ◌≢◌, ◌≤◌, ◌<◌, ◌+◌, length, min, option_map, IfOk, OnOk, OnErr};
ghost use Rattle.shex_io.specs.Files.{KeepsOtherNames};

use crate::files::FetchError;
use std::alloc::{AllocError, Global};
use std::collections::BTreeMap;

/// Bytes by name, and the allocator of both.
#[derive(Drop)]
pub(crate) struct Contents {
    alloc: Global,
    by_name: BTreeMap<String, Vec<u8>>,
}

impl Contents {
    ghost use Rattle.shex_io.specs.Contents.{bytes_under};

    /// No name holds anything.
    pub(crate) fn new(alloc: Global) -> Self
        ensures { (name : List ℕ) → bytes_under result name ≡ None }
    {
        Contents {
            alloc,
            by_name: BTreeMap::new(alloc),
        }
    }

    /// The allocator of the names and bytes.
    pub(crate) fn allocator(&self) -> Global {
        self.alloc
    }

    /// Sets the bytes under a name.
    pub(crate) fn set(&mut self, name: &str, bytes: &[u8]) -> Result<(), AllocError>
        ensures set { OnOk result (bytes_under self.new name.now ≡ Some bytes.now) }
        ensures others { KeepsOtherNames (bytes_under self.old) (bytes_under self.new) name.now }
        ensures refused { OnErr result (bytes_under self.new ≡ bytes_under self.old) }
    {
        let key = String::from_str(self.alloc, name)?;
        let value = Vec::from_slice(self.alloc, bytes)?;
        self.by_name.insert(key, value)?;
        Ok(())
    }

    /// The bytes under a name.
    pub(crate) fn get(&self, name: &str) -> Option<&[u8]>
        ensures { option_map (λ bytes. bytes.now) result ≡ bytes_under self.now name.now }
    {
        match self.by_name.get(name) {
            Some(bytes) => Some(bytes.as_slice()),
            None => None,
        }
    }
}

/// How many bytes a fetch under a limit takes: all, or one more than the limit.
pub(crate) fn taken_within(bytes: &[u8], limit: u64) -> u64
    ensures { result ≡ min (length bytes.now) (limit + 1) }
{
    let length = bytes.len() as u64;
    if length > limit { limit + 1 } else { length }
}

/// Copies bytes of which there are no more than the limit.
pub(crate) fn copy_within(alloc: Global, bytes: &[u8], limit: u64) -> Result<Vec<u8>, FetchError>
    ensures copy { IfOk result (λ copy. copy.items ≡ bytes.now) }
    ensures within { OnOk result (length bytes.now ≤ limit) }
    ensures long { result ≡ Err FetchError.Long → limit < length bytes.now }
    ensures above_limit { limit < length bytes.now → result ≡ Err FetchError.Long }
    ensures never_fails { result ≢ Err FetchError.Failed }
{
    if bytes.len() as u64 > limit {
        return Err(FetchError::Long);
    }
    Vec::from_slice(alloc, bytes).map_err(|_| FetchError::Memory)
}
