//! Disks that fail for good in the middle of a script, and what is read of the images that they leave.
ghost use Rattle.std.specs.Prelude.{◌≡◌, ◌≤◌, IfOk};
ghost use Rattle.disk_model.specs.Told.{InEachWorld};
ghost use Rattle.map_model.specs.World.{DraftsAside};

use super::*;
use crate::tests::{WORDS, only, put_on, words_of};
use disk_model::PoolDisks;
use mem_disks::{Call, FailRule, MemDisks, MemSink, MemSource};
use std::alloc::{AllocError, Global};
use std::process::Abort;
use std::test::Fail;

const DATA: &str = "data 1001 6f6c64";

// The words of two volumes.
const TWO: &str = "bp1 DN-1 DS-1:1000:v1 DS-2:1000:v2";

// A line of a script, of block 5, but for a write of another one.
#[derive(Clone, Copy, Debug, PartialEq, Eq)]
enum Command {
    Write,
    Read,
    Delete,
    WriteOther,
}

// What a client sees of block 5: nothing, the replica that was written, a block that waits to be deleted, or one of the
// first two of which it isn't known which one.
#[derive(Clone, Copy, Debug, PartialEq, Eq)]
enum Cell {
    Absent,
    Final,
    Waiting,
    Unsure,
}

// How a run ended.
#[derive(Drop)]
struct Run {
    status: u8,
    replies: String,
    disks: Vec<MemDisks>,
}

impl Command {
    // The line.
    fn text(self) -> &'static str {
        match self {
            Command::Write => "write 5 1001 6f6c64\n",
            Command::Read => "read 5\n",
            Command::Delete => "delete 5\n",
            Command::WriteOther => "write 6 1001 61\n",
        }
    }
}

// Whether a write may have this reply and leave this cell.
fn may_write(cell: Cell, reply: &str, after: Cell) -> bool {
    match cell {
        Cell::Absent => (reply == "ok" && after == Cell::Final)
            || (reply == "failed" && after != Cell::Final),
        Cell::Final => reply == "exists" && after == cell,
        Cell::Waiting => reply == "waiting" && after == cell,
        Cell::Unsure => reply == "unsure" && after == cell,
    }
}

// Whether a read may have this reply.
fn may_read(cell: Cell, reply: &str) -> bool {
    match cell {
        Cell::Absent => reply == "none",
        Cell::Final => reply == DATA || reply == "failed",
        Cell::Waiting => reply == "waiting",
        Cell::Unsure => reply == "unsure",
    }
}

// Whether a delete may have this reply and leave this cell.
fn may_delete(cell: Cell, reply: &str, after: Cell) -> bool {
    if cell == Cell::Absent {
        return reply == "none" && after == cell;
    }
    let is_unsure = cell == Cell::Final && after == Cell::Unsure;
    (reply == "ok" && after == Cell::Absent) || (reply == "failed" && (after == cell || is_unsure))
}

// Whether a line may have this reply and leave this cell.
fn may_follow(command: Command, cell: Cell, reply: &str, after: Cell) -> bool {
    match command {
        Command::Write => may_write(cell, reply, after),
        Command::Read => may_read(cell, reply) && after == cell,
        Command::Delete => may_delete(cell, reply, after),
        Command::WriteOther => (reply == "ok" || reply == "failed") && after == cell,
    }
}

// Whether a read may have this reply once the cell's image was opened again.
fn may_reopen(cell: Cell, reply: &str) -> bool {
    match cell {
        Cell::Absent => reply == "none",
        Cell::Final => reply == DATA,
        Cell::Waiting => reply == "none" || reply == "waiting",
        Cell::Unsure => reply == "none" || reply == "waiting" || reply == DATA,
    }
}

// The cells that a line with this reply may leave.
fn cells_after(
    alloc: Global,
    cells: &[Cell],
    command: Command,
    reply: &str,
) -> Result<Vec<Cell>, AllocError> {
    let mut left = Vec::new(alloc);
    for after in [Cell::Absent, Cell::Final, Cell::Waiting, Cell::Unsure] {
        let mut may = false;
        for cell in cells {
            may = may || may_follow(command, *cell, reply, after);
        }
        if may {
            left.push(after)?;
        }
    }
    Ok(left)
}

// Whether a read of an image may have this reply, after a script from this cell on with these replies.
fn is_allowed_from(
    alloc: Global,
    cell: Cell,
    commands: &[Command],
    replies: &str,
    answer: &str,
) -> Result<bool, AllocError> {
    let mut cells = Vec::new(alloc);
    cells.push(cell)?;
    for (command, reply) in commands.iter().zip(replies.split('\n')) {
        cells = cells_after(alloc, &cells, *command, reply)?;
    }
    let mut may = false;
    for cell in &cells {
        may = may || may_reopen(*cell, answer);
    }
    Ok(may)
}

// Whether a read of an image may have this reply, after a script over an empty pool with these replies.
fn is_allowed(
    alloc: Global,
    commands: &[Command],
    replies: &str,
    answer: &str,
) -> Result<bool, AllocError> {
    is_allowed_from(alloc, Cell::Absent, commands, replies, answer)
}

// Plays a script over the disks of one pool.
fn run_over(alloc: Global, words: &str, disk: MemDisks, commands: &[Command]) -> Result<Run, Fail>
    requires aside { InEachWorld (⟦<MemDisks as PoolDisks>⟧.worlds disk) DraftsAside }
{
    let words = words_of(alloc, words)?;
    let disks = only(alloc, disk)?;
    let mut script = String::new(alloc);
    for command in commands {
        script.push_str(command.text())?;
    }
    let mut source = MemSource::make(script.into_bytes());
    let mut sink = MemSink::make(alloc);
    let run = play(alloc, words.as_slice(), disks, &mut source, &mut sink);
    Ok(Run {
        status: run.status,
        replies: String::from_utf8(sink.bytes().to_vec(alloc)?)?,
        disks: run.disks,
    })
}

// Empty disks that fail from one call on.
fn failing_from(alloc: Global, volumes: u8, call: Call, nth: u64) -> Result<MemDisks, AllocError>
    requires some { 1 ≤ volumes }
    requires limit { volumes ≤ 64 }
    ensures volumes { IfOk result (λ disk. ⟦<MemDisks as PoolDisks>⟧.volume_count disk ≡ volumes) }
    ensures aside { IfOk result (λ disk. InEachWorld (⟦<MemDisks as PoolDisks>⟧.worlds disk) DraftsAside) }
{
    let mut disk = MemDisks::empty(alloc, volumes)?;
    disk.fail(FailRule {
        call,
        nth,
        forever: true,
    })?;
    Ok(disk)
}

// An image of the disks, with five bytes at each draft's path.
fn image_of(alloc: Global, disk: &MemDisks, done: bool) -> Result<MemDisks, AllocError>
    ensures aside { IfOk result (λ image. InEachWorld (⟦<MemDisks as PoolDisks>⟧.worlds image) DraftsAside) }
{
    disk.image(alloc, done, b'x', 5)
}

#[test]
fn images_read_as_the_cells_allow(rt: HostRuntime) -> Result<(), Fail> {
    let alloc = rt.alloc();
    let short = [Command::Write];
    let whole = [Command::Write, Command::Delete];
    let told = [
        Command::Write,
        Command::Read,
        Command::Delete,
        Command::Read,
    ];
    for (commands, call, reached) in [
        (short.as_slice(), Call::Create, 2u64),
        (short.as_slice(), Call::Publish, 2),
        (short.as_slice(), Call::Remove, 0),
        (whole.as_slice(), Call::Create, 2),
        (whole.as_slice(), Call::Publish, 2),
        (whole.as_slice(), Call::Remove, 2),
        (told.as_slice(), Call::Create, 2),
        (told.as_slice(), Call::Publish, 2),
        (told.as_slice(), Call::Remove, 2),
    ] {
        for nth in 1..=reached + 1 {
            let mut run = run_over(alloc, WORDS, failing_from(alloc, 1, call, nth)?, commands)?;
            let Some(disk) = run.disks.pop() else {
                panic!(rt; "no disks");
            };
            assert_eq!(rt; run.status, 0);
            assert_eq!(rt; disk.faults() > 0, nth <= reached, "of {call:?} {nth}");
            for done in [false, true] {
                let image = image_of(alloc, &disk, done)?;
                let read = run_over(alloc, WORDS, image, &[Command::Read])?;
                let answer = read.replies.trim_end();
                let may = is_allowed(alloc, commands, &run.replies, answer)?;
                assert_eq!(rt; may, true, "of {call:?} {nth} {done}: {answer}");
            }
        }
    }
    Ok(())
}

// What a run over disks that fail came to: its status, whether a call failed, and whether a read of each image has a reply
// that the cells allow.
#[derive(Clone, Copy, Debug, PartialEq, Eq)]
struct Crash {
    status: u8,
    failed: bool,
    allowed: bool,
}

// Whether a read of each image of two volumes may have its reply, after a script from this cell on with these replies.
fn images_are_allowed(
    alloc: Global,
    disk: &MemDisks,
    cell: Cell,
    commands: &[Command],
    replies: &str,
) -> Result<bool, Fail> {
    let mut allowed = true;
    for done in [false, true] {
        let image = image_of(alloc, disk, done)?;
        let read = run_over(alloc, TWO, image, &[Command::Read])?;
        let answer = read.replies.trim_end();
        let may = is_allowed_from(alloc, cell, commands, replies, answer)?;
        allowed = allowed && may;
    }
    Ok(allowed)
}

// Plays a script over two volumes that fail, where block 5 has this cell; a run that ends at the opening carried out nothing.
fn crashed(alloc: Global, disk: MemDisks, cell: Cell, commands: &[Command]) -> Result<Crash, Fail>
    requires aside { InEachWorld (⟦<MemDisks as PoolDisks>⟧.worlds disk) DraftsAside }
{
    let mut run = run_over(alloc, TWO, disk, commands)?;
    let status = run.status;
    let carried_out = if status == 0 { commands } else { &[] };
    let Some(disk) = run.disks.pop() else {
        return Ok(Crash {
            status,
            failed: false,
            allowed: false,
        });
    };
    Ok(Crash {
        status,
        failed: disk.faults() > 0,
        allowed: images_are_allowed(alloc, &disk, cell, carried_out, &run.replies)?,
    })
}

// The volumes are chosen in turn, so block 5 is on volume 1 in the first script and on volume 2 in the second.
#[test]
fn images_of_two_volumes_read_as_the_cells_allow(rt: HostRuntime) -> Result<(), Fail> {
    let alloc = rt.alloc();
    let first = [Command::Write, Command::WriteOther, Command::Delete];
    let second = [
        Command::WriteOther,
        Command::Write,
        Command::Read,
        Command::Delete,
    ];
    for (commands, call, reached) in [
        (first.as_slice(), Call::Create, 4u64),
        (first.as_slice(), Call::Publish, 4),
        (first.as_slice(), Call::Remove, 2),
        (second.as_slice(), Call::Create, 4),
        (second.as_slice(), Call::Publish, 4),
        (second.as_slice(), Call::Remove, 2),
    ] {
        for nth in 1..=reached + 1 {
            let disk = failing_from(alloc, 2, call, nth)?;
            let crash = crashed(alloc, disk, Cell::Absent, commands)?;
            let wanted = Crash {
                status: 0,
                failed: nth <= reached,
                allowed: true,
            };
            assert_eq!(rt; crash, wanted, "of {call:?} {nth}");
        }
    }
    Ok(())
}

// Two volumes with a copy of block 5 on each, of which an opening keeps that on volume 2; removals fail from one on.
fn failing_twins(alloc: Global, nth: u64) -> Result<MemDisks, AllocError>
    ensures aside { IfOk result (λ disk. InEachWorld (⟦<MemDisks as PoolDisks>⟧.worlds disk) DraftsAside) }
{
    let block = "current/finalized/subdir0/subdir0/blk_5";
    let meta = [0, 1, 0, 0, 0, 2, 0];
    let mut disk = failing_from(alloc, 2, Call::Remove, nth)?;
    put_on(&mut disk, 1, block, b"longer")?;
    put_on(
        &mut disk,
        1,
        "current/finalized/subdir0/subdir0/blk_5_1000.meta",
        &meta,
    )?;
    put_on(&mut disk, 2, block, b"old")?;
    put_on(
        &mut disk,
        2,
        "current/finalized/subdir0/subdir0/blk_5_1001.meta",
        &meta,
    )?;
    Ok(disk)
}

// The opening removes the two files of the lesser copy, and the delete those of the other one.
#[test]
fn images_of_two_copies_read_as_the_kept_one(rt: HostRuntime) -> Result<(), Fail> {
    let alloc = rt.alloc();
    let commands = [Command::Read, Command::Delete, Command::Read];
    for (nth, status, failed) in [
        (1, 6, true),
        (2, 6, true),
        (3, 0, true),
        (4, 0, true),
        (5, 0, false),
    ] {
        let disk = failing_twins(alloc, nth)?;
        let crash = crashed(alloc, disk, Cell::Final, &commands)?;
        let wanted = Crash {
            status,
            failed,
            allowed: true,
        };
        assert_eq!(rt; crash, wanted, "of {nth}");
    }
    Ok(())
}

#[test]
fn other_answers_are_not_allowed(rt: HostRuntime) -> Result<(), Fail> {
    let alloc = rt.alloc();
    let commands = [Command::Write, Command::Delete];
    for (replies, data, none, waiting) in [
        ("ok\nok\n", false, true, false),
        ("ok\nfailed\n", true, true, true),
        ("failed\nok\n", false, true, false),
        ("failed\nnone\n", false, true, false),
        ("failed\nfailed\n", true, true, true),
        ("ok\nnone\n", false, false, false),
        ("ok\n", false, false, false),
    ] {
        assert_eq!(rt;
            is_allowed(alloc, &commands, replies, DATA)?,
            data,
            "of {replies}"
        );
        assert_eq!(rt;
            is_allowed(alloc, &commands, replies, "none")?,
            none,
            "of {replies}"
        );
        assert_eq!(rt;
            is_allowed(alloc, &commands, replies, "waiting")?,
            waiting,
            "of {replies}"
        );
        assert_eq!(rt;
            is_allowed(alloc, &commands, replies, "data 1001 6f")?,
            false
        );
    }
    let write = [Command::Write];
    assert_eq!(rt; is_allowed(alloc, &write, "ok\n", DATA)?, true);
    assert_eq!(rt; is_allowed(alloc, &write, "ok\n", "none")?, false);
    assert_eq!(rt; is_allowed(alloc, &write, "ok\n", "waiting")?, false);
    Ok(())
}
