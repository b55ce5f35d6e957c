//! Files and sinks that never fail, a sink that fails in mid-stream, and those of the machine.

ghost use Rattle.std.specs.Prelude.{None, Some};

use shex_io::{
    DiskFiles, FetchError, Files, MemSink, Sink, SinkError, StdSink, StoreError, SureFiles,
    SureSink, put_all,
};
use std::alloc::Global;
use std::io::Write;
use std::os::unix::fs::symlink;
use std::test::Fail;
use std::{fs, io};

/// Whether the file of that name is these bytes, of which no more than so many are taken in.
fn is_fetched(
    files: &mut SureFiles,
    alloc: Global,
    name: &str,
    most: u64,
    wanted: &[u8],
) -> Result<bool, FetchError> {
    let bytes = files.fetch(alloc, name, most)?;
    Ok(bytes.as_slice() == wanted)
}

#[test]
fn sure_files_fail_at_absent_names_alone(rt: HostRuntime) -> Result<(), Fail> {
    let alloc = rt.alloc();
    let mut files = SureFiles::new(alloc);
    files.add("a", b"added")?;
    assert_eq!(rt;
        is_fetched(&mut files, alloc, "b", 9, b""),
        Err(FetchError::Failed)
    );
    assert_eq!(rt; files.store("b", b"stored"), Ok(()));
    assert_eq!(rt; is_fetched(&mut files, alloc, "b", 6, b"stored"), Ok(true));
    assert_eq!(rt;
        is_fetched(&mut files, alloc, "b", 5, b""),
        Err(FetchError::Long)
    );
    assert_eq!(rt; files.file("a"), Some(b"added".as_slice()));
    assert_eq!(rt; files.file("c"), None);
    Ok(())
}

#[test]
fn a_sure_sink_takes_all(rt: HostRuntime) {
    let mut sink = SureSink::new(rt.alloc());
    assert_eq!(rt; put_all(&mut sink, b"one"), Ok(()));
    assert_eq!(rt; sink.put(b"two"), Ok(3));
    assert_eq!(rt; sink.bytes(), b"onetwo".as_slice());
}

/// A sink that takes two bytes a call.
#[derive(Drop)]
struct Sips {
    sink: MemSink,
}

impl Sink for Sips {
    ghost use Rattle.shex_io.specs.Memory.{bytes_of, failed_puts};

    ghost got = { λ sips. Some (bytes_of sips.sink) };

    ghost faults = { λ sips. failed_puts sips.sink };

    fn put(&mut self, piece: &[u8]) -> Result<u64, SinkError> {
        let end = piece.len().min(2);
        self.sink.put(&piece[..end])
    }
}

#[test]
fn put_all_hands_on_a_refusal_in_mid_stream(rt: HostRuntime) -> Result<(), Fail> {
    let alloc = rt.alloc();
    for (fail, want, got) in [
        (9, Ok(()), b"abcdefg".as_slice()),
        (0, Err(SinkError::Failed), b"".as_slice()),
        (2, Err(SinkError::Failed), b"abcd".as_slice()),
        (3, Err(SinkError::Failed), b"abcdef".as_slice()),
    ] {
        let mut sips = Sips {
            sink: MemSink::new(alloc, vec![in alloc; fail]?),
        };
        assert_eq!(rt; put_all(&mut sips, b"abcdefg"), want, "call {fail} fails");
        assert_eq!(rt; sips.sink.bytes(), got, "call {fail} fails");
    }
    Ok(())
}

#[test]
fn disk_files_read_what_was_written(rt: HostRuntime) -> Result<(), Fail> {
    let alloc = rt.alloc();
    let path = "disk_files_read_what_was_written";
    let mut text = Vec::new(alloc);
    for number in 0..70_000u32 {
        text.extend_from_slice(&number.to_be_bytes())?;
    }
    let mut sink = StdSink::new(fs::create(&rt, path)?);
    assert_eq!(rt; put_all(&mut sink, text.as_slice()), Ok(()));
    drop(sink);
    let mut files = DiskFiles::new(alloc, &rt);
    let whole = files.fetch(alloc, path, 280_000);
    let long = files.fetch(alloc, path, 279_999);
    let empty = files.fetch(alloc, path, 0);
    let mut other_files = DiskFiles::new(alloc, &rt);
    let stored = other_files.store(path, b"shorter");
    let again = files.fetch(alloc, path, 280_000);
    fs::remove_file(&rt, path)?;
    let absent = files.fetch(alloc, path, 280_000);
    assert!(rt;
        whole?.as_slice() == text.as_slice(),
        "every byte comes back"
    );
    assert_eq!(rt; long.err(), Some(FetchError::Long));
    assert_eq!(rt; empty.err(), Some(FetchError::Long));
    assert_eq!(rt; stored, Ok(()));
    assert_eq!(rt; again?.as_slice(), b"shorter".as_slice());
    assert_eq!(rt; absent.err(), Some(FetchError::Failed));
    Ok(())
}

#[test]
fn what_was_read_is_not_written_over(rt: HostRuntime) -> Result<(), Fail> {
    let alloc = rt.alloc();
    let path = "what_was_read_is_not_written_over";
    let other_spelling = "./what_was_read_is_not_written_over";
    let link = "what_was_read_is_not_written_over.link";
    fs::write(&rt, path, b"data")?;
    symlink(&rt, path, link)?;
    let mut files = DiskFiles::new(alloc, &rt);
    let read = files.fetch(alloc, path, 9);
    let by_name = files.store(path, b"proof");
    let by_spelling = files.store(other_spelling, b"proof");
    let by_link = files.store(link, b"proof");
    let again = files.fetch(alloc, path, 9);
    fs::remove_file(&rt, link)?;
    let beside = files.store(link, b"proof");
    fs::remove_file(&rt, link)?;
    fs::remove_file(&rt, path)?;
    assert_eq!(rt; read?.as_slice(), b"data".as_slice());
    assert_eq!(rt; by_name, Err(StoreError::Failed));
    assert_eq!(rt; by_spelling, Err(StoreError::Failed));
    assert_eq!(rt; by_link, Err(StoreError::Failed));
    assert_eq!(rt; again?.as_slice(), b"data".as_slice());
    assert_eq!(rt; beside, Ok(()));
    Ok(())
}

/// A stream that takes nothing.
#[derive(Drop)]
struct Full;

impl Write for Full {
    ghost contents = { λ full. None };

    fn write(&mut self, buf: &[u8]) -> io::Result<usize> {
        Ok(0)
    }

    fn flush(&mut self) -> io::Result<()> {
        Ok(())
    }
}

#[test]
fn what_the_machine_refuses_is_a_fault(rt: HostRuntime) -> Result<(), Fail> {
    let alloc = rt.alloc();
    assert_eq!(rt; StdSink::new(rt.stdout()).put(b"\n"), Ok(1));
    assert_eq!(rt; StdSink::new(Full).put(b"x"), Err(SinkError::Failed));
    let directory = fs::open(&rt, ".")?;
    assert_eq!(rt; StdSink::new(directory).put(b"x"), Err(SinkError::Failed));
    let mut files = DiskFiles::new(alloc, &rt);
    assert_eq!(rt; files.fetch(alloc, ".", 9).err(), Some(FetchError::Failed));
    assert_eq!(rt; files.store(".", b"x"), Err(StoreError::Failed));
    Ok(())
}
