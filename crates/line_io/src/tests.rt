//! Lines of sources in memory, and pieces to sinks in memory.
use super::*;
use disk_model::Failed;
use mem_disks::{MemSink, MemSource};
use std::process::Abort;
use std::test::Fail;

#[test]
fn lines_come_in_any_pieces(rt: HostRuntime) -> Result<(), Fail> {
    let alloc = rt.alloc();
    for most in [1, 2, 3, 100] {
        let mut source = MemSource::in_pieces(b"ab\n\ncd\r\nlast".to_vec(alloc)?, most);
        let mut reader = LineReader::new([0; 3].to_vec(alloc)?);
        let mut line = Vec::new(alloc);
        for want in ["ab", "", "cd\r", "last"] {
            assert_eq!(rt;
                reader.next_line(&mut source, &mut line),
                Ok(true),
                "in {most}"
            );
            assert_eq!(rt; line.as_slice(), want.as_bytes(), "in {most}");
        }
        assert_eq!(rt; reader.next_line(&mut source, &mut line), Ok(false));
        assert_eq!(rt; reader.next_line(&mut source, &mut line), Ok(false));
    }
    Ok(())
}

#[test]
fn a_source_that_fails_stays_failed(rt: HostRuntime) -> Result<(), Fail> {
    let alloc = rt.alloc();
    let mut source = MemSource::in_pieces(b"a\nbcdef\n".to_vec(alloc)?, 2).failing_after(2);
    let mut reader = LineReader::new([0; 8].to_vec(alloc)?);
    let mut line = Vec::new(alloc);
    assert_eq!(rt; reader.next_line(&mut source, &mut line), Ok(true));
    assert_eq!(rt; line.as_slice(), b"a".as_slice());
    assert_eq!(rt;
        reader.next_line(&mut source, &mut line),
        Err(ReadFault::Source)
    );
    assert_eq!(rt; line.as_slice(), b"bc".as_slice());
    assert_eq!(rt;
        reader.next_line(&mut source, &mut line),
        Err(ReadFault::Source)
    );
    Ok(())
}

#[test]
fn a_line_of_the_limit_is_read_and_a_longer_one_is_not(rt: HostRuntime) -> Result<(), Fail> {
    let alloc = rt.alloc();
    for (len, want) in [(1_048_576, Ok(true)), (1_048_577, Err(ReadFault::Limit))] {
        let mut bytes = Vec::new(alloc);
        bytes.resize(len, b'x')?;
        bytes.extend_from_slice(b"\nnext\n")?;
        let mut source = MemSource::make(bytes);
        let mut reader = LineReader::new([0; 4096].to_vec(alloc)?);
        let mut line = Vec::new(alloc);
        assert_eq!(rt; reader.next_line(&mut source, &mut line), want, "of {len}");
    }
    Ok(())
}

#[test]
fn pieces_are_written_whole_or_up_to_a_fault(rt: HostRuntime) -> Result<(), Fail> {
    let alloc = rt.alloc();
    for most in [1, 2, 100] {
        let mut sink = MemSink::in_pieces(alloc, most);
        assert_eq!(rt; write_all(&mut sink, b"hello "), Ok(()), "in {most}");
        assert_eq!(rt; write_all(&mut sink, b""), Ok(()), "in {most}");
        assert_eq!(rt; write_all(&mut sink, b"world"), Ok(()), "in {most}");
        assert_eq!(rt; sink.bytes(), b"hello world".as_slice(), "in {most}");
    }
    let mut sink = MemSink::in_pieces(alloc, 2).failing_after(2);
    assert_eq!(rt; write_all(&mut sink, b"hello"), Err(Failed));
    assert_eq!(rt; sink.bytes(), b"hell".as_slice());
    assert_eq!(rt; write_all(&mut sink, b""), Ok(()));
    Ok(())
}
