//! Files and sinks in memory, which fail at the calls that are listed.

ghost use Rattle.std.specs.Prelude.{ℕ, List, [], ◌++◌, Option, Some, None, ◌≡◌, ◌≢◌, ◌≤◌, ◌<◌, ◌^◌, ◌⊎◌, length, take, option_map, IfOk, OnOk, OnErr, string_bytes};
ghost use Rattle.shex_io.specs.Calls.{one_more};
ghost use Rattle.shex_io.specs.Faults.{Rose};
ghost use Rattle.shex_io.specs.Files.{IsTakenOf, HoldsPart, KeepsOtherNames};

use crate::calls::Calls;
use crate::contents::{Contents, copy_within, taken_within};
use crate::faults::Faults;
use crate::files::{Act, FetchError, Files, StoreError};
use crate::sinks::{Sink, SinkError};
use std::alloc::{AllocError, Global};

/// Files in memory.
///
/// Calls of `fetch` and `store` are numbered together from 0. Those whose numbers are listed fail.
#[derive(Drop)]
pub struct MemFiles {
    contents: Contents,
    calls: Calls,
    taken: u64,
    faults: Faults,
}

impl MemFiles {
    ghost use Rattle.shex_io.specs.Memory.{contents_of, failing_calls, calls_made, faults_of, blame_of, ChangesContentsOnly};

    /// No files, and the numbers of the calls that are to fail.
    pub fn new(alloc: Global, fail: Vec<u64>) -> Self
        ensures empty { (name : List ℕ) → contents_of result name ≡ None }
        ensures fail { failing_calls result ≡ fail.items }
        ensures made { calls_made result ≡ 0 }
        ensures faults { faults_of result ≡ 0 }
        ensures blame { blame_of result ≡ [] }
    {
        MemFiles {
            contents: Contents::new(alloc),
            calls: Calls::new(fail),
            taken: 0,
            faults: Faults::new(alloc),
        }
    }

    /// Sets the bytes under a name. This is no numbered call.
    pub fn add(&mut self, name: &str, bytes: &[u8]) -> Result<(), AllocError>
        ensures set { OnOk result (contents_of self.new name.now ≡ Some bytes.now) }
        ensures others { KeepsOtherNames (contents_of self.old) (contents_of self.new) name.now }
        ensures refused { OnErr result (contents_of self.new ≡ contents_of self.old) }
        ensures rest { ChangesContentsOnly self.old self.new }
    {
        self.contents.set(name, bytes)
    }

    /// The bytes under a name, if it is there.
    pub fn file(&self, name: &str) -> Option<&[u8]>
        ensures { option_map (λ bytes. bytes.now) result ≡ contents_of self.now name.now }
    {
        self.contents.get(name)
    }
}

impl Files for MemFiles {
    ghost use Rattle.shex_io.specs.declared.files.Act.{Act};
    ghost use Rattle.shex_io.specs.Memory.{contents_of, failing_calls, calls_made, FailsNext, taken_of, faults_of, blame_of, act_of};

    ghost told = { λ files. Some (contents_of files) };

    ghost taken = { taken_of };

    ghost faults = { faults_of };

    ghost blame = { blame_of };

    ghost act = { act_of };

    fn fetch(&mut self, alloc: Global, name: &str, limit: u64) -> Result<Vec<u8>, FetchError>
        // The calls that are listed fail, and of the others only those for an absent file.
        ensures listed { FailsNext self.old
            → (result ≡ Err FetchError.Failed) ⊎ (result ≡ Err FetchError.Memory) }
        ensures unlisted { ¬ FailsNext self.old → result ≡ Err FetchError.Failed
            → contents_of self.old name.now ≡ None }
        ensures fail { failing_calls self.new ≡ failing_calls self.old }
        ensures made { calls_made self.new ≡ one_more (calls_made self.old) }

        // What each kind of files ensures.
        ensures gives { IfOk result (λ bytes. contents_of self.old name.now ≡ Some bytes.items) }
        ensures absent { contents_of self.old name.now ≡ None
            → (result ≡ Err FetchError.Failed) ⊎ (result ≡ Err FetchError.Memory) }
        ensures told_stays { contents_of self.new ≡ contents_of self.old }
        ensures long { result ≡ Err FetchError.Long → limit < taken_of self.new }
        ensures above_limit { ¬ Rose (faults_of self.old) (faults_of self.new)
            → limit < taken_of self.new → result ≡ Err FetchError.Long }
        ensures length { IfOk result (λ bytes. taken_of self.new ≡ length bytes.items) }
        ensures within { IfOk result (λ bytes. length bytes.items ≤ limit) }
        ensures taken_whole { OnOk result
            (IsTakenOf (Some (contents_of self.old)) name.now limit (taken_of self.new)) }
        ensures taken_part { result ≡ Err FetchError.Long
            → IsTakenOf (Some (contents_of self.old)) name.now limit (taken_of self.new) }
        ensures taken_fits { taken_of self.new < 2 ^ 64 }
        ensures failed { result ≡ Err FetchError.Failed
            → Rose (faults_of self.old) (faults_of self.new) }
        ensures blamed { result ≡ Err FetchError.Failed → blame_of self.new ≡ name.now }
        ensures acted { result ≡ Err FetchError.Failed → act_of self.new ≡ Act.Fetch }
        ensures never_falls { faults_of self.old ≤ faults_of self.new }
        ensures faults_stay { result ≢ Err FetchError.Failed
            → faults_of self.new ≡ faults_of self.old }
        ensures blame_stays { result ≢ Err FetchError.Failed
            → blame_of self.new ≡ blame_of self.old }
        ensures act_stays { result ≢ Err FetchError.Failed → act_of self.new ≡ act_of self.old }
    {
        let fails = self.calls.next_fails();
        self.taken = 0;
        let Ok(blamed) = String::from_str(alloc, name) else {
            return Err(FetchError::Memory);
        };
        match self.contents.get(name) {
            Some(bytes) if !fails => {
                self.taken = taken_within(bytes, limit);
                copy_within(alloc, bytes, limit)
            }
            _ => {
                self.faults.note(blamed, Act::Fetch);
                Err(FetchError::Failed)
            }
        }
    }

    fn store(&mut self, name: &str, bytes: &[u8]) -> Result<(), StoreError>
        // The calls that are listed fail and no others, and a refusal changes no file.
        ensures listed { FailsNext self.old
            → (result ≡ Err StoreError.Failed) ⊎ (result ≡ Err StoreError.Memory) }
        ensures unlisted { result ≡ Err StoreError.Failed → FailsNext self.old }
        ensures refused { OnErr result (contents_of self.new ≡ contents_of self.old) }
        ensures fail { failing_calls self.new ≡ failing_calls self.old }
        ensures made { calls_made self.new ≡ one_more (calls_made self.old) }

        // What each kind of files ensures.
        ensures holds { OnOk result (contents_of self.new name.now ≡ Some bytes.now) }
        ensures part { OnErr result (HoldsPart (Some (contents_of self.old))
            (Some (contents_of self.new)) name.now bytes.now) }
        ensures others { KeepsOtherNames (contents_of self.old) (contents_of self.new) name.now }
        ensures taken_stays { taken_of self.new ≡ taken_of self.old }
        ensures failed { result ≡ Err StoreError.Failed
            → Rose (faults_of self.old) (faults_of self.new) }
        ensures blamed { result ≡ Err StoreError.Failed → blame_of self.new ≡ name.now }
        ensures acted { result ≡ Err StoreError.Failed → act_of self.new ≡ Act.Store }
        ensures never_falls { faults_of self.old ≤ faults_of self.new }
        ensures faults_stay { result ≢ Err StoreError.Failed
            → faults_of self.new ≡ faults_of self.old }
        ensures blame_stays { result ≢ Err StoreError.Failed
            → blame_of self.new ≡ blame_of self.old }
        ensures act_stays { result ≢ Err StoreError.Failed → act_of self.new ≡ act_of self.old }
    {
        let fails = self.calls.next_fails();
        let Ok(blamed) = String::from_str(self.contents.allocator(), name) else {
            return Err(StoreError::Memory);
        };
        if fails {
            self.faults.note(blamed, Act::Store);
            return Err(StoreError::Failed);
        }
        match self.contents.set(name, bytes) {
            Ok(()) => Ok(()),
            Err(_) => Err(StoreError::Memory),
        }
    }
}

/// A sink in memory. Calls of `put` are numbered from 0, and those whose numbers are listed fail.
#[derive(Drop)]
pub struct MemSink {
    bytes: Vec<u8>,
    calls: Calls,
    faults: u64,
}

impl MemSink {
    ghost use Rattle.shex_io.specs.Memory.{bytes_of, failing_puts, puts_made, failed_puts};

    /// Has got nothing, and fails at the calls of these numbers.
    pub fn new(alloc: Global, fail: Vec<u64>) -> Self
        ensures empty { bytes_of result ≡ [] }
        ensures fail { failing_puts result ≡ fail.items }
        ensures made { puts_made result ≡ 0 }
        ensures faults { failed_puts result ≡ 0 }
    {
        MemSink {
            bytes: Vec::new(alloc),
            calls: Calls::new(fail),
            faults: 0,
        }
    }

    /// The bytes that it has got.
    pub fn bytes(&self) -> &[u8]
        ensures { result.now ≡ bytes_of self.now }
    {
        &self.bytes
    }
}

impl Sink for MemSink {
    ghost use Rattle.shex_io.specs.Memory.{bytes_of, failing_puts, puts_made, FailsNextPut, failed_puts};

    ghost got = { λ sink. Some (bytes_of sink) };

    ghost faults = { failed_puts };

    fn put(&mut self, piece: &[u8]) -> Result<u64, SinkError>
        requires { 0 < length piece.now }

        // The calls that are listed fail and no others, and each other takes its whole piece.
        ensures listed { FailsNextPut self.old → result ≡ Err SinkError.Failed }
        ensures unlisted { result ≡ Err SinkError.Failed → FailsNextPut self.old }
        ensures whole { IfOk result (λ count. count ≡ length piece.now) }
        ensures fail { failing_puts self.new ≡ failing_puts self.old }
        ensures made { puts_made self.new ≡ one_more (puts_made self.old) }

        // What each sink ensures.
        ensures some { IfOk result (λ count. 0 < count) }
        ensures within { IfOk result (λ count. count ≤ length piece.now) }
        ensures gains { IfOk result
            (λ count. bytes_of self.new ≡ bytes_of self.old ++ take count piece.now) }
        ensures refused { OnErr result (bytes_of self.new ≡ bytes_of self.old) }
        ensures failed { result ≡ Err SinkError.Failed
            → Rose (failed_puts self.old) (failed_puts self.new) }
        ensures never_falls { failed_puts self.old ≤ failed_puts self.new }
        ensures faults_stay { result ≢ Err SinkError.Failed
            → failed_puts self.new ≡ failed_puts self.old }
    {
        if self.calls.next_fails() {
            self.faults = self.faults.saturating_add(1);
            return Err(SinkError::Failed);
        }
        match self.bytes.extend_from_slice(piece) {
            Ok(()) => Ok(piece.len() as u64),
            Err(_) => Err(SinkError::Memory),
        }
    }
}
