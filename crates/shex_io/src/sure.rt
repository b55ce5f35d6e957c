//! Files and sinks in memory, of whose calls none is made to fail.

ghost use Rattle.std.specs.Prelude.{ℕ, List, [], ◌++◌, Option, Some, None, ◌≡◌, ◌≢◌, ◌≤◌, ◌<◌, ◌^◌, ◌⊎◌, length, take, option_map, IfOk, OnOk, OnErr, IsOkUnless, string_bytes};
ghost use Rattle.shex_io.specs.Faults.{Rose};
ghost use Rattle.shex_io.specs.Files.{IsTakenOf, HoldsPart, KeepsOtherNames};

use crate::contents::{Contents, copy_within, taken_within};
use crate::faults::Faults;
use crate::files::{Act, FetchError, Files, StoreError};
use crate::sinks::{Sink, SinkError};
use std::alloc::{AllocError, Global};

/// Files in memory, of which only a fetch of an absent name fails.
#[derive(Drop)]
pub struct SureFiles {
    contents: Contents,
    taken: u64,
    faults: Faults,
}

impl SureFiles {
    ghost use Rattle.shex_io.specs.Sure.{contents_of, faults_of, blame_of, ChangesContentsOnly};

    /// No files.
    pub fn new(alloc: Global) -> Self
        ensures empty { (name : List ℕ) → contents_of result name ≡ None }
        ensures faults { faults_of result ≡ 0 }
        ensures blame { blame_of result ≡ [] }
    {
        SureFiles {
            contents: Contents::new(alloc),
            taken: 0,
            faults: Faults::new(alloc),
        }
    }

    /// Sets the bytes under a name.
    pub fn add(&mut self, name: &str, bytes: &[u8]) -> Result<(), AllocError>
        ensures set { OnOk result (contents_of self.new name.now ≡ Some bytes.now) }
        ensures others { KeepsOtherNames (contents_of self.old) (contents_of self.new) name.now }
        ensures refused { OnErr result (contents_of self.new ≡ contents_of self.old) }
        ensures rest { ChangesContentsOnly self.old self.new }
    {
        self.contents.set(name, bytes)
    }

    /// The bytes under a name, if it is there.
    pub fn file(&self, name: &str) -> Option<&[u8]>
        ensures { option_map (λ bytes. bytes.now) result ≡ contents_of self.now name.now }
    {
        self.contents.get(name)
    }
}

impl Files for SureFiles {
    ghost use Rattle.shex_io.specs.declared.files.Act.{Act};
    ghost use Rattle.shex_io.specs.Sure.{contents_of, taken_of, faults_of, blame_of, act_of, ChangesContentsOnly};

    ghost told = { λ files. Some (contents_of files) };

    ghost taken = { taken_of };

    ghost faults = { faults_of };

    ghost blame = { blame_of };

    ghost act = { act_of };

    fn fetch(&mut self, alloc: Global, name: &str, limit: u64) -> Result<Vec<u8>, FetchError>
        // Only a fetch of an absent name fails.
        ensures only_absent { result ≡ Err FetchError.Failed
            → contents_of self.old name.now ≡ None }

        // What each kind of files ensures.
        ensures gives { IfOk result (λ bytes. contents_of self.old name.now ≡ Some bytes.items) }
        ensures absent { contents_of self.old name.now ≡ None
            → (result ≡ Err FetchError.Failed) ⊎ (result ≡ Err FetchError.Memory) }
        ensures told_stays { contents_of self.new ≡ contents_of self.old }
        ensures long { result ≡ Err FetchError.Long → limit < taken_of self.new }
        ensures above_limit { ¬ Rose (faults_of self.old) (faults_of self.new)
            → limit < taken_of self.new → result ≡ Err FetchError.Long }
        ensures length { IfOk result (λ bytes. taken_of self.new ≡ length bytes.items) }
        ensures within { IfOk result (λ bytes. length bytes.items ≤ limit) }
        ensures taken_whole { OnOk result
            (IsTakenOf (Some (contents_of self.old)) name.now limit (taken_of self.new)) }
        ensures taken_part { result ≡ Err FetchError.Long
            → IsTakenOf (Some (contents_of self.old)) name.now limit (taken_of self.new) }
        ensures taken_fits { taken_of self.new < 2 ^ 64 }
        ensures failed { result ≡ Err FetchError.Failed
            → Rose (faults_of self.old) (faults_of self.new) }
        ensures blamed { result ≡ Err FetchError.Failed → blame_of self.new ≡ name.now }
        ensures acted { result ≡ Err FetchError.Failed → act_of self.new ≡ Act.Fetch }
        ensures never_falls { faults_of self.old ≤ faults_of self.new }
        ensures faults_stay { result ≢ Err FetchError.Failed
            → faults_of self.new ≡ faults_of self.old }
        ensures blame_stays { result ≢ Err FetchError.Failed
            → blame_of self.new ≡ blame_of self.old }
        ensures act_stays { result ≢ Err FetchError.Failed → act_of self.new ≡ act_of self.old }
    {
        self.taken = 0;
        let Ok(blamed) = String::from_str(alloc, name) else {
            return Err(FetchError::Memory);
        };
        match self.contents.get(name) {
            Some(bytes) => {
                self.taken = taken_within(bytes, limit);
                copy_within(alloc, bytes, limit)
            }
            None => {
                self.faults.note(blamed, Act::Fetch);
                Err(FetchError::Failed)
            }
        }
    }

    fn store(&mut self, name: &str, bytes: &[u8]) -> Result<(), StoreError>
        // No store fails, and a refusal changes no file.
        ensures sure { IsOkUnless result StoreError.Memory }
        ensures refused { OnErr result (contents_of self.new ≡ contents_of self.old) }
        ensures holds { OnOk result (contents_of self.new name.now ≡ Some bytes.now) }
        ensures part { OnErr result (HoldsPart (Some (contents_of self.old))
            (Some (contents_of self.new)) name.now bytes.now) }
        ensures others { KeepsOtherNames (contents_of self.old) (contents_of self.new) name.now }
        ensures rest { ChangesContentsOnly self.old self.new }
    {
        match self.contents.set(name, bytes) {
            Ok(()) => Ok(()),
            Err(_) => Err(StoreError::Memory),
        }
    }
}

/// A sink in memory that takes each piece whole, if there is memory for it.
#[derive(Drop)]
pub struct SureSink {
    bytes: Vec<u8>,
}

impl SureSink {
    ghost use Rattle.shex_io.specs.Sure.{bytes_of};

    /// Has got nothing.
    pub fn new(alloc: Global) -> Self
        ensures { bytes_of result ≡ [] }
    {
        SureSink {
            bytes: Vec::new(alloc),
        }
    }

    /// The bytes that it has got.
    pub fn bytes(&self) -> &[u8]
        ensures { result.now ≡ bytes_of self.now }
    {
        &self.bytes
    }
}

impl Sink for SureSink {
    ghost use Rattle.shex_io.specs.Sure.{bytes_of};

    ghost got = { λ sink. Some (bytes_of sink) };

    ghost faults = { λ sink. 0 };

    fn put(&mut self, piece: &[u8]) -> Result<u64, SinkError>
        requires { 0 < length piece.now }

        // No put fails, and each takes its whole piece.
        ensures sure { IsOkUnless result SinkError.Memory }
        ensures whole { IfOk result (λ count. count ≡ length piece.now) }

        // What each sink ensures.
        ensures some { IfOk result (λ count. 0 < count) }
        ensures within { IfOk result (λ count. count ≤ length piece.now) }
        ensures gains { IfOk result
            (λ count. bytes_of self.new ≡ bytes_of self.old ++ take count piece.now) }
        ensures refused { OnErr result (bytes_of self.new ≡ bytes_of self.old) }
    {
        match self.bytes.extend_from_slice(piece) {
            Ok(()) => Ok(piece.len() as u64),
            Err(_) => Err(SinkError::Memory),
        }
    }
}
