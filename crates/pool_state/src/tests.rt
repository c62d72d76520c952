//! A block's way through a pool over disks in memory.
ghost use Rattle.std.specs.Prelude.{IfOk};
ghost use Rattle.pool_state.specs.Stands.{StandsForSome};

use super::*;
use disk_model::{PoolDisks, Reader};
use mem_disks::MemDisks;
use std::alloc::{AllocError, Global};
use std::process::Abort;
use std::test::Fail;
use volume_layout::{BlockId, Stamp};

// A pool without replicas, over disks in memory, whose revisions begin with this one.
fn empty_pool(alloc: Global, first_rev: u64) -> Result<Pool<MemDisks>, AllocError>
    ensures stands { IfOk result (λ pool. StandsForSome pool) }
{
    let disks = MemDisks::empty(alloc, 1)?;
    Ok(make_pool(alloc, disks, vec![in alloc; 1 << 50]?, first_rev))
}

// Writes a whole block.
fn write_block<D: PoolDisks>(
    alloc: Global,
    pool: &mut Pool<D>,
    id: BlockId,
    stamp: Stamp,
    piece: &[u8],
) -> Result<(), StartFault>
    requires stands { StandsForSome pool.old }
    ensures stands { StandsForSome pool.new }
{
    let mut writer = pool.start_write(alloc, id, stamp, piece.len() as u64)?;
    if writer.push(piece).is_err() || !writer.is_whole() {
        return Err(StartFault::Memory);
    }
    let Ok(pair) = writer.seal() else {
        return Err(StartFault::Failed);
    };
    match pool.finish(pair) {
        Ok(()) => Ok(()),
        Err(_) => Err(StartFault::Failed),
    }
}

// A replica's stamp, and the first bytes of its files.
#[derive(Drop)]
struct Files {
    stamp: u64,
    block: Vec<u8>,
    meta: Vec<u8>,
}

// The first bytes that a reader gives.
fn reader_front<R: Reader>(alloc: Global, file: Option<R>) -> Result<Vec<u8>, StartFault> {
    let (Ok(mut out), Some(mut reader)) = (vec![in alloc; 0u8; 16], file) else {
        return Err(StartFault::Memory);
    };
    match reader.read(0, &mut out) {
        Ok(count) => {
            out.truncate(count);
            Ok(out)
        }
        Err(_) => Err(StartFault::Failed),
    }
}

// The files that a read of a block is lent.
fn read_block<D: PoolDisks>(
    alloc: Global,
    pool: &mut Pool<D>,
    id: BlockId,
) -> Result<Files, StartFault>
    requires stands { StandsForSome pool.old }
    ensures stands { StandsForSome pool.new }
{
    let ReadPair {
        block,
        meta,
        stamp,
        ..
    } = pool.start_read(alloc, id)?;
    Ok(Files {
        stamp: stamp.get(),
        block: reader_front(alloc, block)?,
        meta: reader_front(alloc, meta)?,
    })
}

// What a reader and a long piece are answered while two bytes of a block are written.
fn refused_meanwhile<D: PoolDisks>(
    alloc: Global,
    pool: &mut Pool<D>,
    id: BlockId,
    stamp: Stamp,
) -> Result<(Option<StartFault>, Result<(), PushFault>), StartFault>
    requires stands { StandsForSome pool.old }
{
    let mut writer = pool.start_write(alloc, id, stamp, 2)?;
    let read = pool.start_read(alloc, id).err();
    Ok((read, writer.push(b"abc")))
}

#[test]
fn a_block_is_written_and_read(rt: HostRuntime) -> Result<(), Fail> {
    let alloc = rt.alloc();
    let mut pool = empty_pool(alloc, 1)?;
    let (Some(id), Some(stamp)) = (BlockId::new(5), Stamp::new(1001)) else {
        panic!(rt; "no id");
    };
    assert!(rt; matches!(read_block(alloc, &mut pool, id), Err(StartFault::None)));
    assert_eq!(rt; write_block(alloc, &mut pool, id, stamp, b"hello"), Ok(()));
    let Ok(files) = read_block(alloc, &mut pool, id) else {
        panic!(rt; "not read");
    };
    assert_eq!(rt; files.stamp, 1001);
    assert_eq!(rt; files.block.as_slice(), b"hello".as_slice());
    assert_eq!(rt;
        files.meta.as_slice(),
        [0u8, 1, 2, 0, 0, 2, 0, 0x9a, 0x71, 0xbb, 0x4c].as_slice()
    );
    assert_eq!(rt;
        write_block(alloc, &mut pool, id, stamp, b"other"),
        Err(StartFault::Exists)
    );
    Ok(())
}

#[test]
fn a_block_that_is_written_refuses_others(rt: HostRuntime) -> Result<(), Fail> {
    let alloc = rt.alloc();
    let mut pool = empty_pool(alloc, 1)?;
    let (Some(id), Some(stamp)) = (BlockId::new(5), Stamp::new(1001)) else {
        panic!(rt; "no id");
    };
    assert_eq!(rt;
        refused_meanwhile(alloc, &mut pool, id, stamp),
        Ok((Some(StartFault::Writing), Err(PushFault::Over { left: 2 })))
    );
    assert_eq!(rt; pool.write_refusal(id, 3), Some(StartFault::Writing));
    Ok(())
}

#[test]
fn the_last_revision_is_drawn_once(rt: HostRuntime) -> Result<(), Fail> {
    let alloc = rt.alloc();
    let mut pool = empty_pool(alloc, (1 << 63) - 1)?;
    let (Some(id), Some(other), Some(stamp)) = (BlockId::new(5), BlockId::new(6), Stamp::new(1001))
    else {
        panic!(rt; "no id");
    };
    assert_eq!(rt; write_block(alloc, &mut pool, id, stamp, b"hello"), Ok(()));
    assert_eq!(rt;
        write_block(alloc, &mut pool, other, stamp, b"other"),
        Err(StartFault::Worn)
    );
    Ok(())
}
