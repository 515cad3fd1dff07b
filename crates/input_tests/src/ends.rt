//! The ends of a run. Sequence numbers, checksums and link types stand as rows of `cases_library`.

use sq_base::{MemSink, MemSource, Octets, Sink, Source, Status, StdSink, StdSource, put};
use std::fs::File;
use std::test::Fail;

/// What a source gives until its end, 60 bytes at most.
fn read_whole<S: Source>(rt: &HostRuntime, source: &mut S) -> Result<Vec<u8>, Fail> {
    let mut bytes = Vec::new(rt.alloc());
    let mut buf = [0; 3];
    for _ in 0..20 {
        let n = source.read(&mut buf)?;
        if n == 0 {
            break;
        }
        bytes.extend_from_slice(&buf[..n])?;
    }
    Ok(bytes)
}

#[test]
fn a_file_is_written_and_read(rt: HostRuntime) -> Result<(), Fail> {
    let mut sink = StdSink::over(File::create(&rt, "ten")?);
    put(&mut sink, b"0123")?;
    put(&mut sink, b"")?;
    put(&mut sink, b"456789")?;
    let mut source = StdSource::over(File::open(&rt, "ten")?);
    assert_eq!(rt;
        read_whole(&rt, &mut source)?.as_slice(),
        b"0123456789".as_slice()
    );

    // A file that is open for reading alone can't be written, and the other way round.
    let mut closed = StdSink::over(File::open(&rt, "ten")?);
    assert!(rt; put(&mut closed, b"x").is_err());
    let mut blind = StdSource::over(File::create(&rt, "none")?);
    assert!(rt; blind.read(&mut [0; 3]).is_err());
    Ok(())
}

#[test]
fn ends_over_memory_fail_where_they_are_told(rt: HostRuntime) -> Result<(), Fail> {
    let mut source = MemSource::make(rt.alloc(), b"0123456789", 2, &[1])?;
    let mut buf = [0; 3];
    let mut reads = Vec::new(rt.alloc());
    for _ in 0..4 {
        reads.push(source.read(&mut buf).ok())?;
    }
    assert_eq!(rt;
        reads.as_slice(),
        [Some(2), None, Some(2), Some(2)].as_slice()
    );
    assert_eq!(rt;
        read_whole(&rt, &mut source)?.as_slice(),
        b"6789".as_slice()
    );

    let mut sink = MemSink::make(rt.alloc(), 5, 2, &[1])?;
    let mut writes = Vec::new(rt.alloc());
    for _ in 0..5 {
        writes.push(sink.write(b"abc").ok())?;
    }
    assert_eq!(rt;
        writes.as_slice(),
        [Some(2), None, Some(2), Some(1), None].as_slice()
    );
    assert_eq!(rt; sink.bytes(), b"ababa".as_slice());
    assert!(rt; put(&mut sink, b"x").is_err());
    Ok(())
}

/// The exit status of each end of a run.
const CODES: [(Status, u8); 8] = [
    (Status::Ok, 0),
    (Status::Usage, 2),
    (Status::NoMemory, 3),
    (Status::ReadFault, 4),
    (Status::WriteFault, 5),
    (Status::BadCapture, 6),
    (Status::TooLarge, 7),
    (Status::NoConnection, 8),
];

#[test]
fn octets_and_codes(rt: HostRuntime) -> Result<(), Fail> {
    let octets = Octets::of(rt.alloc(), b"abc")?;
    let wrapped = Octets::wrap(Vec::from_slice(rt.alloc(), b"abc")?);
    assert_eq!(rt; octets.as_slice(), wrapped.as_slice());
    for (status, code) in &CODES {
        assert_eq!(rt; status.code(), *code);
    }
    Ok(())
}
