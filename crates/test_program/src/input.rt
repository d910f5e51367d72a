// Inputs from readers that behave badly.
use program_runs::{InputFault, read_input};
use std::test::Fail;
use term_core::Source;
use test_support::{EndlessSource, MemorySource, holds, same};

#[test]
fn reads_to_the_end(rt: HostRuntime) -> Result<(), Fail> {
    let alloc = rt.alloc();
    for length in [0, 1, 65_536, 65_537, 1_048_576] {
        let bytes = vec![in alloc; b'x'; length]?;
        let mut source = MemorySource::new(&bytes);
        let read = read_input(alloc, &mut source)?;
        holds(read == bytes, "all bytes are read")?;
    }
    Ok(())
}

#[test]
fn reads_a_byte_at_a_time(rt: HostRuntime) -> Result<(), Fail> {
    let mut source = MemorySource::in_pieces(b"module", 1, u64::MAX);
    let read = read_input(rt.alloc(), &mut source)?;
    same(read.as_slice(), b"module")
}

#[test]
fn tells_a_read_that_fails(rt: HostRuntime) -> Result<(), Fail> {
    for reads in 0..4 {
        let mut source = MemorySource::in_pieces(b"abc", 1, reads);
        let read = read_input(rt.alloc(), &mut source);
        holds(
            matches!(read, Err(InputFault::ReadFailed)),
            "a read has failed",
        )?;
        holds(source.failed(), "the source has failed")?;
    }
    let mut source = MemorySource::in_pieces(b"abc", 1, 4);
    let read = read_input(rt.alloc(), &mut source)?;
    same(read.as_slice(), b"abc")
}

#[test]
fn stops_on_a_reader_that_never_ends(rt: HostRuntime) -> Result<(), Fail> {
    let mut source = EndlessSource { byte: b' ' };
    let read = read_input(rt.alloc(), &mut source)?;
    assert_eq!(rt; read.len(), 1_114_112);
    Ok(())
}
