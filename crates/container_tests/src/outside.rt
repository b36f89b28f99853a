use dx_outside::{
    Files, HostFiles, HostSink, MemoryFiles, MemorySink, Outage, Sink, SteadyFiles, SteadySink,
    Whole, read_whole, say,
};
use std::alloc::Global;
use std::test::Fail;

const FAILED: Result<usize, Outage> = Err(Outage::Failed);

/// The bytes that `read_whole` answers, or None.
fn whole<F: Files>(alloc: Global, files: &mut F, name: &str) -> Option<Vec<u8>> {
    match read_whole(alloc, files, name) {
        Whole::Read(bytes) => bytes.as_slice().to_vec(alloc).ok(),
        Whole::TooLong | Whole::Failed | Whole::OutOfMemory => None,
    }
}

#[test]
fn memory_files_fail_at_the_listed_calls(rt: HostRuntime) -> Result<(), Fail> {
    let mut files = MemoryFiles::new(rt.alloc(), &[1, 5])?;
    files.put("a", b"abc")?;
    // calls 0 to 4 read two bytes at most; a missing file is a failed read
    let reads = [
        ("a", 0, Ok(2), b"ab"),
        ("a", 0, FAILED, b".."),
        ("a", 2, Ok(1), b"c."),
        ("a", 3, Ok(0), b".."),
        ("b", 0, FAILED, b".."),
    ];
    for (name, at, wanted, filled) in reads {
        let mut into = *b"..";
        assert_eq!(rt;
            files.read_at(name, at, &mut into),
            wanted,
            "{name} at {at}"
        );
        assert_eq!(rt; into.as_slice(), filled.as_slice(), "{name} at {at}");
    }
    assert_eq!(rt; files.write_new("b", b"x"), Err(Outage::Failed));
    assert_eq!(rt; files.get("b"), None);
    assert_eq!(rt; files.write_new("b", b"x"), Ok(()));
    assert_eq!(rt; files.write_new("a", b"y"), Ok(()));
    assert_eq!(rt; files.get("b"), Some(b"x".as_slice()));
    assert_eq!(rt; files.get("a"), Some(b"y".as_slice()));
    Ok(())
}

#[test]
fn a_read_may_fail_between_two_pieces(rt: HostRuntime) -> Result<(), Fail> {
    let long = [7u8; 5000];
    for (failing, read) in [(0, false), (1, false), (2, false), (3, true)] {
        let mut files = MemoryFiles::new(rt.alloc(), &[failing])?;
        files.put("a", &long)?;
        let bytes = whole(rt.alloc(), &mut files, "a");
        assert_eq!(rt; bytes.is_some(), read, "call {failing}");
        assert_eq!(rt; bytes.map_or(5000, |bytes| bytes.len()), 5000);
    }
    Ok(())
}

#[test]
fn steady_files_read_a_missing_one_as_empty(rt: HostRuntime) -> Result<(), Fail> {
    let mut files = SteadyFiles::new(rt.alloc());
    files.put("a", b"abc")?;
    files.put("a", b"ab")?;
    assert_eq!(rt; files.write_new("b", b"x"), Ok(()));
    for (name, there, bytes) in [
        ("a", true, b"ab".as_slice()),
        ("b", true, b"x"),
        ("c", false, b""),
    ] {
        let read = whole(rt.alloc(), &mut files, name).ok_or("read")?;
        assert_eq!(rt; read.as_slice(), bytes);
        assert_eq!(rt; files.get(name).is_some(), there);
    }
    Ok(())
}

#[test]
fn sinks_take_what_is_said(rt: HostRuntime) -> Result<(), Fail> {
    let mut out = MemorySink::new(rt.alloc(), &[1])?;
    assert_eq!(rt; out.write(b""), Ok(0));
    assert_eq!(rt; say(&mut out, b"lost"), Err(Outage::Failed));
    assert_eq!(rt; say(&mut out, b"kept"), Ok(()));
    assert_eq!(rt; out.write(b"!"), Ok(1));
    assert_eq!(rt; out.taken(), b"kept!".as_slice());
    let mut out = SteadySink::new(rt.alloc());
    assert_eq!(rt; say(&mut out, b"kept"), Ok(()));
    assert_eq!(rt; out.taken(), b"kept".as_slice());
    Ok(())
}

#[test]
fn host_files_hold_what_was_written(rt: HostRuntime) -> Result<(), Fail> {
    let mut files = HostFiles::new(&rt);
    for text in [b"first text".as_slice(), b"second"] {
        assert_eq!(rt; files.write_new("made", text), Ok(()));
        let read = whole(rt.alloc(), &mut files, "made").ok_or("read")?;
        assert_eq!(rt; read.as_slice(), text);
    }
    assert_eq!(rt; files.read_at("made", 2, &mut [0; 3]), Ok(3));
    assert_eq!(rt; files.read_at("missing", 0, &mut [0; 3]), FAILED);
    assert_eq!(rt; files.write_new("missing/made", b"x"), Err(Outage::Failed));
    Ok(())
}

#[test]
fn host_sink_takes_a_line(rt: HostRuntime) {
    assert_eq!(rt; say(&mut HostSink::new(&rt), b"said\n"), Ok(()));
}
