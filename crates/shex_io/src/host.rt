//! Files and streams of the machine: the trusted edge, which tells no contents.

ghost use Rattle.std.specs.Prelude.{[], None, ◌≡◌, ◌≢◌, ◌≤◌, ◌<◌, length, take, IfOk, OnErr, string_bytes};
ghost use Rattle.std.specs.Io.KnownBytes.{Appends, Consumes, IsAtEnd, Keeps};
ghost use Rattle.shex_io.specs.Faults.{Rose};

use crate::faults::Faults;
use crate::files::{Act, FetchError, Files, StoreError};
use crate::sinks::{Sink, SinkError};
use std::alloc::Global;
use std::fs;
use std::fs::{Metadata, OpenFile};
use std::io::{Read, Write};
use std::os::unix::fs::MetadataExt;
use std::rt::Files as HostFiles;

/// How many bytes one read asks for.
const PIECE: usize = 65536;

/// Where a regular file lies on the machine, whatever names and links lead there.
#[derive(Clone, Copy, Debug, PartialEq, Eq)]
struct Location {
    device: u64,
    inode: u64,
}

impl Location {
    /// That of the file that these metadata are of, if it is a regular one, and no folder, device or pipe.
    fn of(metadata: &Metadata) -> Option<Location> {
        metadata.is_file().then_some(Location {
            device: metadata.dev(),
            inode: metadata.ino(),
        })
    }
}

/// Files of the machine. What was read by them is not written over by them.
#[derive(Drop)]
pub struct DiskFiles<'a, R> {
    alloc: Global,
    rt: &'a R,
    taken: u64,
    read: Vec<Location>,
    faults: Faults,
}

impl<'a, R> DiskFiles<'a, R> {
    ghost use Rattle.shex_io.specs.Host.{disk_faults, disk_blame};

    /// The files that the runtime reaches; no call has failed.
    pub fn new(alloc: Global, rt: &'a R) -> Self
        ensures faults { disk_faults result ≡ 0 }
        ensures blame { disk_blame result ≡ [] }
    {
        DiskFiles {
            alloc,
            rt,
            taken: 0,
            read: Vec::new(alloc),
            faults: Faults::new(alloc),
        }
    }
}

impl<'a, R: HostFiles> Files for DiskFiles<'a, R> {
    ghost use Rattle.shex_io.specs.Host.{disk_faults, disk_blame};

    ghost told = { λ files. None };

    ghost taken = { λ files. files.taken };

    ghost faults = { disk_faults };

    ghost blame = { disk_blame };

    ghost act = { λ files. files.faults.act };

    fn fetch(&mut self, alloc: Global, name: &str, limit: u64) -> Result<Vec<u8>, FetchError> {
        self.taken = 0;
        let Ok(blamed) = String::from_str(alloc, name) else {
            return Err(FetchError::Memory);
        };
        match read_file(self.rt, alloc, name, limit, &mut self.read) {
            Ok(bytes) => {
                self.taken = bytes.len() as u64;
                if self.taken > limit {
                    return Err(FetchError::Long);
                }
                Ok(bytes)
            }
            Err(ReadError::Memory) => Err(FetchError::Memory),
            Err(ReadError::Failed) => {
                self.faults.note(blamed, Act::Fetch);
                Err(FetchError::Failed)
            }
        }
    }

    fn store(&mut self, name: &str, bytes: &[u8]) -> Result<(), StoreError> {
        let Ok(blamed) = String::from_str(self.alloc, name) else {
            return Err(StoreError::Memory);
        };
        if leads_to(self.rt, name, self.read.as_slice())
            || fs::write(self.rt, name, bytes).is_err()
        {
            self.faults.note(blamed, Act::Store);
            return Err(StoreError::Failed);
        }
        Ok(())
    }
}

/// Why the reading of a file stopped.
enum ReadError {
    Failed,
    Memory,
}

/// Reads the file of this name to its end, or until more than `limit` bytes have come, and notes where it lies.
fn read_file<R: HostFiles>(
    rt: &R,
    alloc: Global,
    name: &str,
    limit: u64,
    read: &mut Vec<Location>,
) -> Result<Vec<u8>, ReadError> {
    let mut file = fs::open(rt, name).map_err(|_| ReadError::Failed)?;
    let metadata = file.metadata().map_err(|_| ReadError::Failed)?;
    if let Some(location) = Location::of(&metadata) {
        read.push(location).map_err(|_| ReadError::Memory)?;
    }
    read_within(alloc, &mut file, limit)
}

/// Whether a name leads to one of these files. A name that leads nowhere does not.
fn leads_to<R: HostFiles>(rt: &R, name: &str, files: &[Location]) -> bool {
    match fs::metadata(rt, name) {
        Ok(metadata) => Location::of(&metadata).is_some_and(|location| files.contains(&location)),
        Err(_) => false,
    }
}

/// Reads to the end, or until more than `limit` bytes have come.
fn read_within<S: Read>(alloc: Global, source: &mut S, limit: u64) -> Result<Vec<u8>, ReadError>
    ensures in_order { IfOk result
        (λ bytes. Consumes (S.remaining source.old) (S.remaining source.new) bytes.items) }
    ensures to_the_end { IfOk result
        (λ bytes. length bytes.items ≤ limit → IsAtEnd (S.remaining source.new)) }
{
    let mut bytes = Vec::new(alloc);
    let mut piece = [0u8; PIECE];
    // Each turn but the last adds a byte, and there is no memory for so many.
    for _turn in 0..u64::MAX {
        let count = source.read(&mut piece).map_err(|_| ReadError::Failed)?;
        if count == 0 {
            break;
        }
        let more = bytes.extend_from_slice(&piece[..count]);
        more.map_err(|_| ReadError::Memory)?;
        if bytes.len() as u64 > limit {
            break;
        }
    }
    Ok(bytes)
}

/// A stream of the machine.
#[derive(Drop)]
pub struct StdSink<W> {
    stream: W,
    faults: u64,
}

impl<W> StdSink<W> {
    ghost use Rattle.shex_io.specs.Host.{stream_of, stream_faults};

    /// Writes to this stream; no call has failed.
    pub fn new(stream: W) -> Self
        ensures stream { stream_of result ≡ stream }
        ensures faults { stream_faults result ≡ 0 }
    {
        StdSink { stream, faults: 0 }
    }
}

impl<W: Write> Sink for StdSink<W> {
    ghost use Rattle.shex_io.specs.Host.{stream_of, stream_faults};

    ghost got = { λ sink. None };

    ghost faults = { stream_faults };

    fn put(&mut self, piece: &[u8]) -> Result<u64, SinkError>
        requires { 0 < length piece.now }

        // Where it is known what the stream holds, it has got the bytes that count as taken.
        ensures writes { IfOk result (λ count. Appends (W.contents (stream_of self.old))
            (W.contents (stream_of self.new)) (take count piece.now)) }
        ensures keeps { OnErr result
            (Keeps (W.contents (stream_of self.old)) (W.contents (stream_of self.new))) }

        // What each sink ensures of its counts; it does not tell what it got.
        ensures some { IfOk result (λ count. 0 < count) }
        ensures within { IfOk result (λ count. count ≤ length piece.now) }
        ensures failed { result ≡ Err SinkError.Failed
            → Rose (stream_faults self.old) (stream_faults self.new) }
        ensures never_falls { stream_faults self.old ≤ stream_faults self.new }
        ensures faults_stay { result ≢ Err SinkError.Failed
            → stream_faults self.new ≡ stream_faults self.old }
    {
        match self.stream.write(piece) {
            Ok(count) if count > 0 => Ok(count as u64),
            _ => {
                self.faults = self.faults.saturating_add(1);
                Err(SinkError::Failed)
            }
        }
    }
}
