//! The disks over real directories, which the tests make in the folder that they run in.
ghost use Rattle.std.specs.Prelude.{◌≡◌, ◌≤◌, IfOk, length};

use super::*;
use disk_model::{Draft, Reader};
use std::os::unix::fs::symlink;
use std::test::Fail;
use std::{fs, io};

/// Disks under the locks of their volumes.
fn open_disks(rt: &HostRuntime, dirs: &[&str]) -> Result<OsDisks, AllocError>
    requires some { 1 ≤ length dirs.now }
    requires limit { length dirs.now ≤ 64 }
    ensures volumes { IfOk result (λ disks. ⟦<OsDisks as PoolDisks>⟧.volume_count disks ≡ length dirs.now) }
{
    let locks = VolumeLocks::take(rt, dirs)?;
    OsDisks::open(rt.clone()?, "bp1", dirs, &locks)
}

/// Writes a file through a draft.
fn write_file(
    alloc: Global,
    disks: &mut OsDisks,
    draft_path: &str,
    target: &str,
    bytes: &[u8],
) -> Result<(), DiskError>
    requires { 1 ≤ ⟦<OsDisks as PoolDisks>⟧.volume_count disks.old }
    ensures { ⟦<OsDisks as PoolDisks>⟧.volume_count disks.new ≡ ⟦<OsDisks as PoolDisks>⟧.volume_count disks.old }
{
    let mut draft = disks.create(alloc, 1, draft_path)?;
    draft.append(bytes)?;
    draft.append(b"")?;
    let Ok(sealed) = draft.seal() else {
        return Err(DiskError::Failed);
    };
    match disks.publish(sealed, target) {
        Ok(()) => Ok(()),
        Err(Failed) => Err(DiskError::Failed),
    }
}

#[test]
fn files_are_written_listed_lent_and_removed(rt: HostRuntime) -> Result<(), Fail> {
    let alloc = rt.alloc();
    let _absent = fs::remove_dir_all(&rt, "disks_of_files");
    let dirs = ["disks_of_files/v1", "disks_of_files/v2"];
    let mut disks = open_disks(&rt, &dirs)?;
    let block = "current/finalized/subdir0/subdir0/blk_5";
    assert_eq!(rt; disks.volumes(), 2);
    assert_eq!(rt; disks.list(alloc, 1, "current/rbw")?.len(), 0);

    write_file(alloc, &mut disks, "current/rbw/blk_5", block, b"hello")?;
    write_file(
        alloc,
        &mut disks,
        "tmp/blk_51",
        "current/finalized/subdir0/subdir0/blk_51",
        b"",
    )?;
    let real = "disks_of_files/v1/current/bp1/current/finalized/subdir0/subdir0/blk_5";
    assert_eq!(rt; fs::read(&rt, real)?.as_slice(), b"hello".as_slice());
    assert_eq!(rt; disks.size(1, block), Ok(Some(5)));
    assert_eq!(rt; disks.absences, 0);
    assert_eq!(rt; disks.size(2, block), Ok(None));
    assert_eq!(rt; disks.size(1, "current/rbw/blk_5"), Ok(None));
    assert_eq!(rt; disks.absences, 2);

    fs::create_dir(
        &rt,
        "disks_of_files/v1/current/bp1/current/finalized/subdir0/subdir0/blk_50",
    )?;
    let names = disks.list(alloc, 1, "current/finalized/subdir0/subdir0")?;
    assert_eq!(rt; names.len(), 2);
    assert_eq!(rt; names.get(0), "blk_5");
    assert_eq!(rt; names.get(1), "blk_51");

    // a reader goes on after its file was replaced and removed
    let Some(mut reader) = disks.lend_reader(alloc, 1, block)? else {
        panic!(rt; "no reader");
    };
    write_file(alloc, &mut disks, "current/rbw/blk_5", block, b"again")?;
    let mut out = [0; 4];
    assert_eq!(rt; reader.read(0, &mut out), Ok(4));
    assert_eq!(rt; out.as_slice(), b"hell".as_slice());
    assert_eq!(rt; fs::read(&rt, real)?.as_slice(), b"again".as_slice());
    disks.remove(1, block)?;
    disks.remove(1, block)?;
    disks.remove(2, block)?;
    assert_eq!(rt; disks.size(1, block), Ok(None));
    assert_eq!(rt;
        disks
            .list(alloc, 1, "current/finalized/subdir0/subdir0")?
            .len(),
        1
    );
    assert_eq!(rt; reader.read(3, &mut out), Ok(2));
    assert_eq!(rt; out.as_slice(), b"loll".as_slice());
    assert_eq!(rt; reader.read(5, &mut out), Ok(0));
    assert_eq!(rt; reader.read(u64::MAX, &mut out), Ok(0));
    assert!(rt; disks.lend_reader(alloc, 1, block)?.is_none());
    assert_eq!(rt; disks.faults, 0);
    fs::remove_dir_all(&rt, "disks_of_files")?;
    Ok(())
}

#[test]
fn calls_that_fail_are_counted(rt: HostRuntime) -> Result<(), Fail> {
    let alloc = rt.alloc();
    let _absent = fs::remove_dir_all(&rt, "disks_of_faults");
    fs::create_dir(&rt, "disks_of_faults")?;
    fs::create_dir(&rt, "disks_of_faults/v1")?;
    fs::write(
        &rt,
        "disks_of_faults/v1/current",
        b"no directory".as_slice(),
    )?;
    let mut disks = open_disks(&rt, &["disks_of_faults/v1"])?;
    fs::remove_file(&rt, "disks_of_faults/v1/current")?;
    assert_eq!(rt; disks.volumes(), 1);

    // only the first listing tells of the directory that was not made
    assert!(rt; disks.list(alloc, 1, "tmp").is_err());
    assert_eq!(rt; disks.faults, 1);
    assert_eq!(rt; disks.list(alloc, 1, "tmp")?.len(), 0);
    fs::create_dir(&rt, "disks_of_faults/v1/current")?;
    fs::create_dir(&rt, "disks_of_faults/v1/current/bp1")?;

    let long =
        "a/23456789012345678901234567890123456789012345678901234567890123456789012345678901234567890123456";
    assert_eq!(rt; long.len(), 97);
    assert_eq!(rt; disks.size(1, long), Err(Failed));
    assert_eq!(rt; disks.faults, 2);
    assert_eq!(rt; disks.size(1, &long[..96]), Ok(None));

    write_file(alloc, &mut disks, "tmp/last", "tmp/settled", b"1")?;
    assert_eq!(rt; disks.size(1, "tmp/settled/below"), Err(Failed));
    disks.next_number = u64::MAX;
    assert!(rt; disks.create(alloc, 1, "tmp/more").is_err());
    assert!(rt; disks.lend_reader(alloc, 1, "tmp/settled").is_err());
    assert_eq!(rt; disks.faults, 5);
    fs::remove_dir_all(&rt, "disks_of_faults")?;
    Ok(())
}

#[test]
fn listed_sizes_stand_until_a_change(rt: HostRuntime) -> Result<(), Fail> {
    let alloc = rt.alloc();
    let _absent = fs::remove_dir_all(&rt, "disks_of_sizes");
    let mut disks = open_disks(&rt, &["disks_of_sizes/v1"])?;
    for (name, bytes) in [("blk_7", "seven"), ("blk_70", ""), ("blk_8", "8")] {
        write_file(
            alloc,
            &mut disks,
            "tmp/draft",
            format!(in alloc; "tmp/{name}")?.as_str(),
            bytes.as_bytes(),
        )?;
    }
    assert_eq!(rt; disks.list(alloc, 1, "tmp")?.len(), 3);

    // a change that breaks the rule of the locks shows what comes from the listing, and what is asked
    let real = "disks_of_sizes/v1/current/bp1/tmp";
    fs::rename(&rt, real, "disks_of_sizes/aside")?;
    assert_eq!(rt; disks.size(1, "tmp/blk_7"), Ok(Some(5)));
    assert_eq!(rt; disks.size(1, "tmp/blk_70"), Ok(Some(0)));
    assert_eq!(rt; disks.size(1, "tmp/blk_8"), Ok(Some(1)));
    assert_eq!(rt; disks.absences, 0);
    assert_eq!(rt; disks.size(1, "tmp/blk_"), Ok(None));
    assert_eq!(rt; disks.size(1, "tmp/blk_9"), Ok(None));
    assert_eq!(rt; disks.absences, 2);
    disks.remove(1, "current/rbw/blk_1")?;
    assert_eq!(rt; disks.size(1, "tmp/blk_7"), Ok(None));
    fs::remove_dir_all(&rt, "disks_of_sizes")?;
    Ok(())
}

/// Which calls fail in a directory: its listing, and of a name in it the size, a reader, a creation, a publish and a
/// removal.
fn failed_calls(alloc: Global, disks: &mut OsDisks, dir: &str) -> Result<[bool; 6], AllocError>
    requires { 1 ≤ ⟦<OsDisks as PoolDisks>⟧.volume_count disks.old }
    ensures { ⟦<OsDisks as PoolDisks>⟧.volume_count disks.new ≡ ⟦<OsDisks as PoolDisks>⟧.volume_count disks.old }
{
    let path = format!(in alloc; "{dir}/f")?;
    let path = path.as_str();
    let is_unlisted = disks.list(alloc, 1, dir).is_err();
    let is_unsized = disks.size(1, path).is_err();
    let is_unlent = disks.lend_reader(alloc, 1, path).is_err();
    let is_uncreated = disks.create(alloc, 1, path).is_err();
    let is_unpublished = write_file(alloc, disks, "aside/draft", path, b"new").is_err();
    let is_unremoved = disks.remove(1, path).is_err();
    Ok([
        is_unlisted,
        is_unsized,
        is_unlent,
        is_uncreated,
        is_unpublished,
        is_unremoved,
    ])
}

/// Whether disks of these volumes are refused, as their locks can't be taken.
fn are_refused(rt: &HostRuntime, dirs: &[&str]) -> Result<bool, AllocError>
    requires some { 1 ≤ length dirs.now }
    requires limit { length dirs.now ≤ 64 }
{
    let mut disks = open_disks(rt, dirs)?;
    let failed = failed_calls(rt.alloc(), &mut disks, "tmp")?;
    Ok(failed == [true; 6] && disks.faults >= 6)
}

#[test]
fn nothing_is_touched_without_the_locks(rt: HostRuntime) -> Result<(), Fail> {
    let _absent = fs::remove_dir_all(&rt, "disks_of_locks");
    let mut held = open_disks(&rt, &["disks_of_locks/v1"])?;
    assert_eq!(rt; held.list(rt.alloc(), 1, "tmp")?.len(), 0);

    // the first volume is locked already, by other disks of this process
    assert!(rt; are_refused(&rt, &["disks_of_locks/v1", "disks_of_locks/v2"])?);
    assert!(rt; !fs::exists(&rt, "disks_of_locks/v2")?);
    assert!(rt; are_refused(&rt, &["disks_of_locks/v2", "disks_of_locks/v1"])?);
    assert!(rt; !fs::exists(&rt, "disks_of_locks/v2/current")?);

    // a lock's file that is a link is not opened
    fs::remove_file(&rt, "disks_of_locks/v2/in_use.lock")?;
    symlink(&rt, "outside", "disks_of_locks/v2/in_use.lock")?;
    assert!(rt; are_refused(&rt, &["disks_of_locks/v2"])?);
    assert!(rt; !fs::exists(&rt, "disks_of_locks/v2/outside")?);
    fs::remove_dir_all(&rt, "disks_of_locks")?;
    Ok(())
}

#[test]
fn pools_share_a_lock_that_ends_with_the_last(rt: HostRuntime) -> Result<(), Fail> {
    let _absent = fs::remove_dir_all(&rt, "disks_of_pools");
    let dirs = ["disks_of_pools/v1"];
    let locks = VolumeLocks::take(&rt, &dirs)?;
    let first = OsDisks::open(rt.clone()?, "bp1", &dirs, &locks)?;
    let mut second = OsDisks::open(rt.clone()?, "bp2", &dirs, &locks)?;
    drop(locks);
    drop(first);
    assert_eq!(rt; second.list(rt.alloc(), 1, "tmp")?.len(), 0);
    assert!(rt; are_refused(&rt, &dirs)?);
    drop(second);
    assert!(rt; !are_refused(&rt, &dirs)?);
    assert_eq!(rt;
        fs::metadata(&rt, "disks_of_pools/v1/in_use.lock")?.len(),
        0
    );
    fs::remove_dir_all(&rt, "disks_of_pools")?;
    Ok(())
}

/// What may stand at a name in place of a file that the disks made.
#[derive(Clone, Copy)]
enum Thing {
    LinkToFile,
    LinkToDirectory,
    DanglingLink,
    Directory,
    HardLink,
}

/// Puts a thing at a name, in place of what stands there. Links lead outside of the volume.
fn put(rt: &HostRuntime, thing: Thing, outside: &str, path: &str) -> io::Result<()> {
    let _absent = fs::remove_file(rt, path);
    let _absent = fs::remove_dir(rt, path);
    let real = fs::canonicalize(rt, outside)?;
    let real = real.as_str();
    match thing {
        Thing::LinkToFile => symlink(rt, format!(in rt.alloc(); "{real}/file")?, path),
        Thing::LinkToDirectory => symlink(rt, format!(in rt.alloc(); "{real}/empty")?, path),
        Thing::DanglingLink => symlink(rt, format!(in rt.alloc(); "{real}/absent")?, path),
        Thing::Directory => fs::create_dir(rt, path),
        Thing::HardLink => fs::hard_link(rt, format!(in rt.alloc(); "{real}/file")?, path),
    }
}

/// Which calls are answered Ok over a thing at a name: its size, a reader, a creation, a publish and a removal.
fn answered(
    rt: &HostRuntime,
    disks: &mut OsDisks,
    thing: Thing,
    path: &str,
) -> io::Result<[bool; 5]>
    requires { 1 ≤ ⟦<OsDisks as PoolDisks>⟧.volume_count disks.old }
    ensures { ⟦<OsDisks as PoolDisks>⟧.volume_count disks.new ≡ ⟦<OsDisks as PoolDisks>⟧.volume_count disks.old }
{
    let alloc = rt.alloc();
    let outside = "disks_of_things/outside";
    let real = format!(in alloc; "disks_of_things/v1/current/bp1/{path}")?;
    put(rt, thing, outside, real.as_str())?;
    let has_size = disks.size(1, path).is_ok();
    let is_lent = disks.lend_reader(alloc, 1, path).is_ok();
    let is_created = disks.create(alloc, 1, path).is_ok();
    put(rt, thing, outside, real.as_str())?;
    let is_published = write_file(alloc, disks, "tmp/draft", path, b"new").is_ok();
    put(rt, thing, outside, real.as_str())?;
    let is_removed = disks.remove(1, path).is_ok();
    Ok([has_size, is_lent, is_created, is_published, is_removed])
}

/// Makes what stands outside of a volume: a file, and a directory without files.
fn make_outside(rt: &HostRuntime, outside: &str) -> io::Result<()> {
    fs::create_dir_all(rt, format!(in rt.alloc(); "{outside}/empty")?)?;
    fs::write(
        rt,
        format!(in rt.alloc(); "{outside}/file")?,
        b"outside".as_slice(),
    )
}

/// Whether it stands as it was made.
fn is_kept(rt: &HostRuntime, outside: &str) -> io::Result<bool> {
    let file = fs::read(rt, format!(in rt.alloc(); "{outside}/file")?)?;
    // a directory that isn't empty can't be removed
    let empty = format!(in rt.alloc(); "{outside}/empty")?;
    fs::remove_dir(rt, empty.as_str())?;
    fs::create_dir(rt, empty.as_str())?;
    let is_absent = !fs::exists(rt, format!(in rt.alloc(); "{outside}/absent")?)?;
    Ok(is_absent && file.as_slice() == b"outside".as_slice())
}

#[test]
fn other_things_at_names_of_files_are_not_followed(rt: HostRuntime) -> Result<(), Fail> {
    let _absent = fs::remove_dir_all(&rt, "disks_of_things");
    let outside = "disks_of_things/outside";
    make_outside(&rt, outside)?;
    let mut disks = open_disks(&rt, &["disks_of_things/v1"])?;
    let pool = "disks_of_things/v1/current/bp1";
    for dir in ["tmp", "current/rbw", "current/finalized/subdir0/subdir0"] {
        fs::create_dir_all(&rt, format!(in rt.alloc(); "{pool}/{dir}")?)?;
    }
    let names = [
        "current/finalized/subdir0/subdir0/blk_5",
        "current/finalized/subdir0/subdir0/blk_5_1001.meta",
        "current/rbw/blk_5",
        "current/rbw/blk_5_1001.meta",
        "tmp/blk_5",
    ];
    let links = [
        Thing::LinkToFile,
        Thing::LinkToDirectory,
        Thing::DanglingLink,
    ];
    for name in names {
        for link in links {
            let of_link = answered(&rt, &mut disks, link, name)?;
            assert_eq!(rt; of_link, [false, false, true, true, true]);
        }
        assert_eq!(rt;
            answered(&rt, &mut disks, Thing::Directory, name)?,
            [false; 5]
        );
        assert_eq!(rt;
            answered(&rt, &mut disks, Thing::HardLink, name)?,
            [true; 5]
        );
        assert!(rt; is_kept(&rt, outside)?);
    }
    fs::remove_dir_all(&rt, "disks_of_things")?;
    Ok(())
}

#[test]
fn only_files_are_listed(rt: HostRuntime) -> Result<(), Fail> {
    let _absent = fs::remove_dir_all(&rt, "disks_of_names");
    let outside = "disks_of_names/outside";
    make_outside(&rt, outside)?;
    let mut disks = open_disks(&rt, &["disks_of_names/v1"])?;
    fs::create_dir(&rt, "disks_of_names/v1/current/bp1/tmp")?;
    put(
        &rt,
        Thing::LinkToFile,
        outside,
        "disks_of_names/v1/current/bp1/tmp/blk_1",
    )?;
    put(
        &rt,
        Thing::LinkToDirectory,
        outside,
        "disks_of_names/v1/current/bp1/tmp/blk_2",
    )?;
    put(
        &rt,
        Thing::DanglingLink,
        outside,
        "disks_of_names/v1/current/bp1/tmp/blk_3",
    )?;
    put(
        &rt,
        Thing::HardLink,
        outside,
        "disks_of_names/v1/current/bp1/tmp/blk_4",
    )?;
    put(
        &rt,
        Thing::Directory,
        outside,
        "disks_of_names/v1/current/bp1/tmp/blk_5",
    )?;
    let listed = disks.list(rt.alloc(), 1, "tmp")?;
    assert_eq!(rt; listed.len(), 1);
    assert_eq!(rt; listed.get(0), "blk_4");
    fs::remove_dir_all(&rt, "disks_of_names")?;
    Ok(())
}

/// Whether each call fails in a directory of the pool in whose place a link to another one stands.
fn is_link_refused(rt: &HostRuntime, disks: &mut OsDisks, dir: &str) -> io::Result<bool>
    requires { 1 ≤ ⟦<OsDisks as PoolDisks>⟧.volume_count disks.old }
    ensures { ⟦<OsDisks as PoolDisks>⟧.volume_count disks.new ≡ ⟦<OsDisks as PoolDisks>⟧.volume_count disks.old }
{
    let real = format!(in rt.alloc(); "disks_of_links/v1/current/bp1/{dir}")?;
    fs::create_dir_all(rt, real.as_str())?;
    put(
        rt,
        Thing::LinkToDirectory,
        "disks_of_links/outside",
        real.as_str(),
    )?;
    let failed = failed_calls(rt.alloc(), disks, dir)?;
    fs::remove_file(rt, real.as_str())?;
    Ok(failed == [true; 6] && is_kept(rt, "disks_of_links/outside")?)
}

#[test]
fn links_in_place_of_directories_are_not_followed(rt: HostRuntime) -> Result<(), Fail> {
    let _absent = fs::remove_dir_all(&rt, "disks_of_links");
    let outside = "disks_of_links/outside";
    make_outside(&rt, outside)?;
    let mut disks = open_disks(&rt, &["disks_of_links/v1"])?;
    let dirs = [
        "current",
        "current/rbw",
        "current/finalized",
        "current/finalized/subdir0",
        "current/finalized/subdir0/subdir0",
        "tmp",
    ];
    for dir in dirs {
        assert!(rt; is_link_refused(&rt, &mut disks, dir)?);
    }

    fs::create_dir(&rt, "disks_of_links/v2")?;
    put(
        &rt,
        Thing::LinkToDirectory,
        outside,
        "disks_of_links/v2/current",
    )?;
    let mut disks = open_disks(&rt, &["disks_of_links/v2"])?;
    assert!(rt; disks.list(rt.alloc(), 1, "tmp").is_err());
    assert!(rt; is_kept(&rt, outside)?);
    fs::remove_dir_all(&rt, "disks_of_links")?;
    Ok(())
}
