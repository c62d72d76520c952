//! Many tenures of three threads under one lock.
ghost use Rattle.std.specs.Prelude.{◌<◌};
ghost use Rattle.turn_lock.specs.Views.{with_one_less, split_off, with_joined};
ghost use Rattle.turn_lock.specs.Seats.{view, IsSeatOf, IsSeat, IsIdle};

use super::*;
use std::alloc::{AllocError, Global};
use std::process::Abort;
use std::test::Fail;
use std::thread::{Threads, join};

// So many items of one of three threads. Their remainder by 3 is the thread.
fn items_of(alloc: Global, thread: u32, count: u16) -> Result<Vec<u32>, AllocError>
    requires { thread < 3 }
{
    let mut items = Vec::new(alloc);
    for n in 0..count {
        items.push(u32::from(n) * 3 + thread)?;
    }
    Ok(items)
}

// Those items of all that are of this thread, in order.
fn found_of(alloc: Global, all: &[u32], thread: u32) -> Result<Vec<u32>, AllocError> {
    let mut items = Vec::new(alloc);
    for item in all {
        if *item % 3 == thread {
            items.push(*item)?;
        }
    }
    Ok(items)
}

#[test]
fn three_threads_add_in_the_order_of_each(rt: HostRuntime) -> Result<(), Fail> {
    let alloc = rt.alloc();
    for [one, two, three] in [[0, 0, 0], [1, 0, 2], [1000, 700, 1300]] {
        let first = items_of(alloc, 0, one)?;
        let second = items_of(alloc, 1, two)?;
        let third = items_of(alloc, 2, three)?;
        let Ok(all) = add_in_three(&rt, alloc, &first, &second, &third) else {
            panic!(rt; "memory");
        };
        assert_eq!(rt;
            all.len(),
            usize::from(one) + usize::from(two) + usize::from(three)
        );
        assert_eq!(rt; found_of(alloc, &all, 0)?.as_slice(), first.as_slice());
        assert_eq!(rt; found_of(alloc, &all, 1)?.as_slice(), second.as_slice());
        assert_eq!(rt; found_of(alloc, &all, 2)?.as_slice(), third.as_slice());
    }
    Ok(())
}

// One thread splits a seat while another joins two, at a lock over any value that may cross threads.
fn split_beside_join<T: Kept + Send, R: Threads + Sync>(
    rt: &R,
    lock: &TurnLock<T>,
    mut one: Seat<T>,
    mut two: Seat<T>,
    three: Seat<T>,
) -> ((Seat<T>, Seat<T>), Seat<T>)
    requires one { IsSeatOf lock.now one × IsIdle one × (0 < (view one).spare) }
    requires two { IsSeatOf lock.now two × IsIdle two }
    requires three { IsSeatOf lock.now three × IsIdle three }
    ensures split { (IsSeatOf lock.now result.0.0 × IsSeat (with_one_less (view one)) result.0.0) × (IsSeatOf lock.now result.0.1 × IsSeat (split_off (view one)) result.0.1) }
    ensures joined { IsSeatOf lock.now result.1 × IsSeat (with_joined (view two) (view three)) result.1 }
{
    join(
        rt,
        move || -> (Seat<T>, Seat<T>)
            requires { IsSeatOf lock.now one × IsIdle one × (0 < (view one).spare) }
            ensures { (IsSeatOf lock.entry.now result.0 × IsSeat (with_one_less (view one)) result.0) × (IsSeatOf lock.entry.now result.1 × IsSeat (split_off (view one)) result.1) }
        {
            let four = lock.split(&mut one);
            (one, four)
        },
        move || -> Seat<T>
            requires { IsSeatOf lock.now two × IsIdle two × IsSeatOf lock.now three × IsIdle three }
            ensures { IsSeatOf lock.entry.now result × IsSeat (with_joined (view two) (view three)) result }
        {
            lock.join(&mut two, three);
            two
        },
    )
}

#[test]
fn seats_are_split_and_joined_at_once(rt: HostRuntime) -> Result<(), Fail> {
    let alloc = rt.alloc();
    let notes = Notes {
        items: Vec::new(alloc),
    };
    let Ok((lock, mut one)) = TurnLock::make(alloc, notes, 4) else {
        panic!(rt; "memory");
    };
    let two = lock.split(&mut one);
    let three = lock.split(&mut one);
    let ((mut one, four), two) = split_beside_join(&rt, &lock, one, two, three);
    lock.join(&mut one, four);
    lock.join(&mut one, two);
    assert!(rt; add_item(&rt, &lock, &mut one, 7));
    assert_eq!(rt; lock.close(one).items.as_slice(), [7].as_slice());
    Ok(())
}
