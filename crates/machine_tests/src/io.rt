//! Tests of zac_io: the adapters on real files, and on a writer whose flush fails.
use std::io::Write;
use std::{fs, io};
use zac_io::{FileShelf, OutSink, ReadFault, Sink, read_all};

#[test]
fn reads_a_real_file(rt: HostRuntime) {
    let path = "zac_io_reads_a_real_file.txt";
    assert!(rt; fs::write(&rt, path, "hello").is_ok());
    let mut shelf = FileShelf::new(&rt);
    let whole = read_all(rt.alloc(), &mut shelf, path, 5);
    let long = read_all(rt.alloc(), &mut shelf, path, 4);
    assert!(rt; fs::remove_file(&rt, path).is_ok());
    assert!(rt; matches!(&whole, Ok(read) if read.as_slice() == b"hello".as_slice()));
    assert!(rt; matches!(&long, Err(ReadFault::TooLong)));
    assert_eq!(rt; shelf.faults(), 0);
    let missing = read_all(rt.alloc(), &mut shelf, path, 5);
    assert!(rt; matches!(&missing, Err(ReadFault::Failed)));
    assert_eq!(rt; shelf.faults(), 1);
}

#[test]
fn writes_a_real_file(rt: HostRuntime) {
    let path = "zac_io_writes_a_real_file.txt";
    let mut sink = OutSink::new(fs::create(&rt, path).expect(&rt, "a file"));
    assert!(rt; sink.write(b"hel").is_ok());
    assert!(rt; sink.write(b"lo").is_ok());
    assert_eq!(rt; sink.faults(), 0);
    let text = fs::read_to_string(&rt, path);
    let mut unwritable = OutSink::new(fs::open(&rt, path).expect(&rt, "a file"));
    assert!(rt; fs::remove_file(&rt, path).is_ok());
    assert!(rt; matches!(&text, Ok(text) if text.as_str() == "hello"));
    assert!(rt; unwritable.write(b"more").is_err());
    assert_eq!(rt; unwritable.faults(), 1);
}

// A writer that takes a byte at a time, and can't be flushed.
#[derive(Drop)]
struct Stuck;

impl Write for Stuck {
    fn write(&mut self, bytes: &[u8]) -> io::Result<usize> {
        Ok(bytes.len().min(1))
    }

    fn flush(&mut self) -> io::Result<()> {
        Err(io::ErrorKind::Other.into())
    }
}

#[test]
fn failed_flush_is_a_fault(rt: HostRuntime) {
    let mut sink = OutSink::new(Stuck);
    assert!(rt; sink.write(b"ab").is_err());
    assert_eq!(rt; sink.faults(), 1);
    assert!(rt; sink.write(b"").is_err());
    assert_eq!(rt; sink.faults(), 2);
}
