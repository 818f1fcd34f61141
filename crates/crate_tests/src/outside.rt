//! The longest text that is read, and readers and writers of std, with faults in mid-stream.

use py_outside::{
    LIMIT, ReadError, SourceMemory, StdSink, StdSource, WriteFailed, read_bytes, write_bytes,
};
use std::alloc::Global;
use std::io::{self, ErrorKind, Read, Write};
use std::test::Fail;

fn length_read(alloc: Global, bytes: Vec<u8>) -> Result<usize, ReadError> {
    let mut source = SourceMemory::new(bytes, Vec::new(alloc), LIMIT);
    Ok(read_bytes(alloc, &mut source)?.len())
}

#[test]
fn the_limit_is_read_and_a_byte_more_is_too_long(rt: HostRuntime) -> Result<(), Fail> {
    let alloc = rt.alloc();
    assert_eq!(rt; LIMIT, 1024 * 1024);
    let limit = vec![in alloc; b'a'; 1_048_576]?;
    assert_eq!(rt; length_read(alloc, limit), Ok(1_048_576));
    let longer = vec![in alloc; b'a'; 1_048_577]?;
    assert_eq!(rt; length_read(alloc, longer), Err(ReadError::TooLong));
    Ok(())
}

/// A reader and writer of std that moves a byte a call, and fails once none is left.
#[derive(Drop)]
struct Broken {
    left: usize,
}

impl Read for Broken {
    fn read(&mut self, room: &mut [u8]) -> io::Result<usize> {
        if self.left == 0 {
            return Err(io::Error::from(ErrorKind::Other));
        }
        match room.first_mut() {
            Some(byte) => {
                *byte = b's';
                self.left -= 1;
                Ok(1)
            }
            None => Ok(0),
        }
    }
}

impl Write for Broken {
    fn write(&mut self, piece: &[u8]) -> io::Result<usize> {
        if self.left == 0 {
            return Err(io::Error::from(ErrorKind::Other));
        }
        if piece.is_empty() {
            return Ok(0);
        }
        self.left -= 1;
        Ok(1)
    }

    fn flush(&mut self) -> io::Result<()> {
        Ok(())
    }
}

/// Whether a reader of std gives this text.
fn is_read(alloc: Global, text: &[u8]) -> Result<bool, ReadError> {
    let mut source = StdSource::new(text);
    Ok(read_bytes(alloc, &mut source)?.as_slice() == text)
}

#[test]
fn readers_of_std_serve(rt: HostRuntime) -> Result<(), ReadError> {
    assert!(rt; is_read(rt.alloc(), b"spam")?);
    let mut broken = StdSource::new(Broken { left: 2 });
    assert!(rt; matches!(read_bytes(rt.alloc(), &mut broken), Err(ReadError::Fault)));
    Ok(())
}

/// Writes four bytes to a writer of std that has this room.
fn write_spam(room: &mut [u8]) -> Result<(), WriteFailed> {
    write_bytes(&mut StdSink::new(room), b"spam")
}

#[test]
fn writers_of_std_serve(rt: HostRuntime) {
    let mut taken = [0u8; 4];
    assert!(rt; write_spam(taken.as_mut_slice()) == Ok(()));
    assert!(rt; taken.as_slice() == b"spam".as_slice());
    // A full writer takes nothing, which isn't an error to std.
    let mut small = [0u8; 2];
    assert!(rt; write_spam(small.as_mut_slice()) == Err(WriteFailed));
    assert!(rt; small.as_slice() == b"sp".as_slice());
    let mut broken = StdSink::new(Broken { left: 2 });
    assert!(rt; write_bytes(&mut broken, b"spam") == Err(WriteFailed));
    assert!(rt; write_bytes(&mut broken, b"") == Ok(()));
}
