//! Sources and sinks in memory, and files.

use mk_base::list::List;
use mk_base::plain::Plain;
use mk_base::text::Text;
use mk_io::file::{File, same_file};
use mk_io::memory::{MemSink, MemSource};
use mk_io::outside::{Failed, IoErr, Sink, Source};
use mk_io::write::write_all;
use std::test::Fail;

/// A source gives pieces in order, and a call that is listed fails and leaves all as it was.
#[test]
fn reads_in_pieces_and_fails_where_told(rt: HostRuntime) -> Result<(), Fail> {
    let alloc = rt.alloc();
    let left = List::from_vec(Vec::from_slice(alloc, &[10, 20, 30, 40, 50])?);
    let fails = List::from_vec(Vec::from_slice(alloc, &[1])?);
    let mut source = MemSource::new(left, 2, fails);
    let mut buf = [0u8; 3];
    assert_eq!(rt; source.read(&mut buf), Ok(2));
    assert_eq!(rt; buf, [10, 20, 0]);
    assert_eq!(rt; source.read(&mut buf), Err(Failed));
    assert_eq!(rt; source.faults, 1);
    assert_eq!(rt; buf, [10, 20, 0]);
    assert_eq!(rt; source.read(&mut buf[..1]), Ok(1));
    assert_eq!(rt; buf, [30, 20, 0]);
    assert_eq!(rt; source.read(&mut buf), Ok(2));
    assert_eq!(rt; buf, [40, 50, 0]);
    assert_eq!(rt; source.read(&mut buf), Ok(0));
    assert_eq!(rt; source.calls, 5);
    assert_eq!(rt; source.faults, 1);
    Ok(())
}

/// A sink takes what it is given, and nothing at a call that is listed.
#[test]
fn writes_whole_texts_and_fails_where_told(rt: HostRuntime) -> Result<(), Fail> {
    let alloc = rt.alloc();
    let fails = List::from_vec(Vec::from_slice(alloc, &[0])?);
    let mut sink = MemSink::new(alloc, fails);
    assert_eq!(rt; sink.write(&[7, 8]), Err(IoErr::Failed));
    assert_eq!(rt; sink.taken.len(), 0);
    assert_eq!(rt; sink.write(&[7]), Ok(1));
    assert_eq!(rt; write_all(&mut sink, &[1, 2, 3]), Ok(()));
    assert_eq!(rt; sink.taken.as_slice(), [7, 1, 2, 3].as_slice());
    assert_eq!(rt; sink.calls, 3);
    assert_eq!(rt; sink.faults, 1);
    Ok(())
}

/// A copy of a file is that file, and files of other bytes are not.
#[test]
fn copies_files(rt: HostRuntime) -> Result<(), Fail> {
    let alloc = rt.alloc();
    let file = File {
        name: Text::from_slice(alloc, b"src/A.hs")?,
        bytes: List::from_vec(Vec::from_slice(alloc, b"module A where")?),
    };
    let other = File {
        name: Text::from_slice(alloc, b"src/A.hs")?,
        bytes: List::new(alloc),
    };
    let again = Plain::copy(&file, alloc)?;
    assert_eq!(rt; again.name.as_slice(), b"src/A.hs".as_slice());
    assert_eq!(rt; again.bytes.as_slice(), b"module A where".as_slice());
    assert!(rt; same_file(&file, &again));
    assert!(rt; !file.same(&other));
    Ok(())
}

/// Each error prints its text.
#[test]
fn errors_have_texts(rt: HostRuntime) -> Result<(), Fail> {
    let alloc = rt.alloc();
    assert_eq!(rt;
        format!(in alloc; "{}", Failed)?.as_str(),
        "the read failed"
    );
    assert_eq!(rt;
        format!(in alloc; "{}", IoErr::from(Failed))?.as_str(),
        "reading or writing failed"
    );
    assert_eq!(rt;
        format!(in alloc; "{}", IoErr::NoMemory)?.as_str(),
        "out of memory"
    );
    Ok(())
}
