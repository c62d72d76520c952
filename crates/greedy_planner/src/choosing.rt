//! The volumes of a turn.
ghost use Rattle.std.specs.Prelude.{◌≡◌, ◌≤◌, ◌+◌, ◌<◌, ◌*◌, ◌^◌, ℕ, true, false, not, count_by, length, MatchOption, slice_index_or};
ghost use Rattle.std.specs.List.{list_any};
ghost use Rattle.greedy_planner.specs.Volumes.{comes_before, IsFirst, IsFound, volume_at};
ghost use Rattle.greedy_planner.specs.Greedy.{is_open_past, goes_on};
ghost use Rattle.greedy_planner.specs.Sound.{AreSound, IsSound};
ghost use Rattle.greedy_planner.specs.declared.volume.Side.TheVariants.{Low, High};

use crate::volume::{Side, Totals, Turn, Volume};
use density::is_past;

/// Whether a volume's share of used bytes is smaller than another's.
fn is_emptier(v: &Volume, w: &Volume) -> bool
    ensures { result ≡ comes_before Low v.now w.now }
{
    u128::from(v.used) * u128::from(w.capacity) < u128::from(w.used) * u128::from(v.capacity)
}

/// Whether a volume comes before another on a side.
fn comes_before(side: Side, v: &Volume, w: &Volume) -> bool
    ensures { result ≡ comes_before side v.now w.now }
{
    match side {
        Side::Low => is_emptier(v, w),
        Side::High => is_emptier(w, v),
    }
}

/// The first on a side of the volumes up to the one at `i`, from the first of those below it.
fn first_with(side: Side, volumes: &[Volume], first: Option<usize>, i: usize) -> Option<usize>
    requires capacities { (k : ℕ) → k < length volumes.now → 0 < (volume_at volumes.now k).capacity }
    requires inside { i < length volumes.now }
    requires found { IsFound side volumes.now i first }
    ensures { IsFound side volumes.now (i + 1) result }
{
    if volumes[i].skipped {
        return first;
    }
    match first {
        Some(best) => {
            if comes_before(side, &volumes[i], &volumes[best]) {
                Some(i)
            } else {
                Some(best)
            }
        }
        None => Some(i),
    }
}

/// The first volume on a side of those that aren't skipped.
fn first_on(side: Side, volumes: &[Volume]) -> Option<usize>
    requires { (k : ℕ) → k < length volumes.now → 0 < (volume_at volumes.now k).capacity }
    ensures { IsFound side volumes.now (length volumes.now) result }
{
    let mut first = None;
    for i in 0..volumes.len() {
        first = first_with(side, volumes, first, i);
    }
    first
}

/// How many volumes aren't skipped.
fn open_count(volumes: &[Volume]) -> usize
    ensures { result ≡ count_by (λ v. not v.skipped) volumes.now }
{
    volumes.iter().filter(|v| !v.skipped).count()
}

/// Whether a volume isn't skipped and is past the threshold.
fn is_open_past(totals: &Totals, threshold: u8, v: &Volume) -> bool
    requires capacity { totals.now.capacity ≤ 2 ^ 60 }
    requires used { totals.now.used ≤ 2 ^ 60 }
    requires sound { IsSound totals.now v.now }
    requires threshold { threshold ≤ 100 }
    ensures { result ≡ is_open_past totals.now threshold v.now }
{
    !v.skipped && is_past(totals.capacity, totals.used, v.capacity, v.used, threshold)
}

/// Whether one of the volumes isn't skipped and is past the threshold.
fn some_open_past(totals: &Totals, threshold: u8, volumes: &[Volume]) -> bool
    requires sound { AreSound totals.now volumes.now }
    requires threshold { threshold ≤ 100 }
    ensures { result ≡ list_any (is_open_past totals.now threshold) volumes.now }
{
    for v in volumes {
        if is_open_past(totals, threshold, v) {
            return true;
        }
    }
    false
}

/// Whether the plan goes on.
fn goes_on(totals: &Totals, threshold: u8, volumes: &[Volume]) -> bool
    requires sound { AreSound totals.now volumes.now }
    requires threshold { threshold ≤ 100 }
    ensures { result ≡ goes_on totals.now threshold volumes.now }
{
    2 <= open_count(volumes) && some_open_past(totals, threshold, volumes)
}

/// The volumes of the next turn, where the plan goes on.
pub fn next_turn(totals: &Totals, threshold: u8, volumes: &[Volume]) -> Option<Turn>
    requires sound { AreSound totals.now volumes.now }
    requires threshold { threshold ≤ 100 }
    ensures { MatchOption result (goes_on totals.now threshold volumes.now ≡ false)
        (λ turn. (goes_on totals.now threshold volumes.now ≡ true) × IsFirst Low volumes.now turn.low × IsFirst High volumes.now turn.high) }
{
    if !goes_on(totals, threshold, volumes) {
        return None;
    }
    let Some(low) = first_on(Side::Low, volumes) else {
        unreachable!()
    };
    let Some(high) = first_on(Side::High, volumes) else {
        unreachable!()
    };
    Some(Turn { low, high })
}
