//! One turn of a plan.
ghost use Rattle.std.specs.Prelude.{◌≡◌, ◌≤◌, ◌+◌, ◌-◌, ◌<◌, ◌^◌, length, true, false, MatchOption, OnOk, ◌++◌};
ghost use Rattle.std.specs.Option.{option_to_list};
ghost use Rattle.greedy_planner.specs.Volumes.{volume_at, room_in, surplus_in};
ghost use Rattle.greedy_planner.specs.Greedy.{skip_at, use_at, moved, is_skip, step_of, both_skipped, steps_in, volumes_after};
ghost use Rattle.greedy_planner.specs.Sound.{AreSound, IsSound};

use crate::volume::{Step, Totals, Turn, Volume};
use density::target_bytes;
use std::alloc::AllocError;

/// What a volume can take until it is at its target.
fn room(totals: &Totals, v: &Volume) -> u64
    requires { IsSound totals.now v.now }
    ensures { result ≡ room_in totals.now v.now }
{
    target_bytes(totals.capacity, totals.used, v.capacity).saturating_sub(v.used)
}

/// What a volume can give until it is at its target.
fn surplus(totals: &Totals, v: &Volume) -> u64
    requires { IsSound totals.now v.now }
    ensures { result ≡ surplus_in totals.now v.now }
{
    v.used
        .saturating_sub(target_bytes(totals.capacity, totals.used, v.capacity))
}

/// Skips a volume.
fn skip(volumes: &mut [Volume], i: usize)
    requires { i < length volumes.old }
    ensures { volumes.new ≡ skip_at i volumes.old }
{
    volumes[i].skipped = true;
}

/// Says how many bytes a volume holds.
fn set_used(volumes: &mut [Volume], i: usize, used: u64)
    requires { i < length volumes.old }
    ensures { volumes.new ≡ use_at i used volumes.old }
{
    volumes[i].used = used;
}

/// Makes a step.
fn make_step(volumes: &mut [Volume], step: Step)
    requires from { step.from < length volumes.old }
    requires to { step.to < length volumes.old }
    requires gives { step.bytes ≤ (volume_at volumes.old step.from).used }
    requires takes { (volume_at volumes.old step.to).used + step.bytes < 2 ^ 64 }
    ensures { volumes.new ≡ moved step volumes.old }
{
    let left = volumes[step.from].used - step.bytes;
    let filled = volumes[step.to].used + step.bytes;
    set_used(volumes, step.from, left);
    set_used(volumes, step.to, filled);
}

/// Skips those of the two volumes of a turn that can take or give nothing.
fn skip_both(totals: &Totals, turn: Turn, volumes: &mut [Volume])
    requires sound { AreSound totals.now volumes.old }
    requires low { turn.low < length volumes.old }
    requires high { turn.high < length volumes.old }
    ensures { volumes.new ≡ both_skipped totals.now turn volumes.old }
{
    let no_room = room(totals, &volumes[turn.low]) == 0;
    let no_surplus = surplus(totals, &volumes[turn.high]) == 0;
    if no_room {
        skip(volumes, turn.low);
    }
    if no_surplus {
        skip(volumes, turn.high);
    }
}

/// The step of a turn, unless one of its volumes can take or give nothing.
fn step_in(totals: &Totals, turn: Turn, volumes: &[Volume]) -> Option<Step>
    requires sound { AreSound totals.now volumes.now }
    requires low { turn.low < length volumes.now }
    requires high { turn.high < length volumes.now }
    ensures { MatchOption result (is_skip totals.now turn volumes.now ≡ true)
        (λ step. (is_skip totals.now turn volumes.now ≡ false) × (step ≡ step_of totals.now turn volumes.now)) }
{
    let taken = room(totals, &volumes[turn.low]);
    let given = surplus(totals, &volumes[turn.high]);
    if taken == 0 || given == 0 {
        return None;
    }
    Some(Step {
        from: turn.high,
        to: turn.low,
        bytes: taken.min(given),
    })
}

/// Takes a turn, and answers the step that it makes.
pub fn take_turn(totals: &Totals, turn: Turn, volumes: &mut [Volume]) -> Option<Step>
    requires sound { AreSound totals.now volumes.old }
    requires low { turn.low < length volumes.old }
    requires high { turn.high < length volumes.old }
    ensures volumes { volumes.new ≡ volumes_after totals.now turn volumes.old }
    ensures step { option_to_list result ≡ steps_in totals.now turn volumes.old }
{
    match step_in(totals, turn, volumes) {
        Some(step) => {
            make_step(volumes, step);
            Some(step)
        }
        None => {
            skip_both(totals, turn, volumes);
            None
        }
    }
}

/// Takes a turn, and adds the step that it makes.
pub fn add_turn(
    totals: &Totals,
    turn: Turn,
    volumes: &mut [Volume],
    steps: &mut Vec<Step>,
) -> Result<(), AllocError>
    requires sound { AreSound totals.now volumes.old }
    requires low { turn.low < length volumes.old }
    requires high { turn.high < length volumes.old }
    ensures volumes { volumes.new ≡ volumes_after totals.now turn volumes.old }
    ensures steps { OnOk result (steps.new.items ≡ steps.old.items ++ steps_in totals.now turn volumes.old) }
{
    if let Some(step) = take_turn(totals, turn, volumes) {
        steps.push(step)?;
    }
    Ok(())
}
