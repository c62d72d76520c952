//! A plan, turn by turn.
ghost use Rattle.std.specs.Prelude.{◌≡◌, ◌≤◌, length, sum, IfOk};
ghost use Rattle.density.specs.Reports.{total_used};
ghost use Rattle.greedy_planner.specs.Volumes.{volumes_of};
ghost use Rattle.greedy_planner.specs.Greedy.{IsPlanOf, IsGreedyPlan};
ghost use Rattle.greedy_planner.specs.Sound.{AreSound};
ghost use Rattle.greedy_planner.specs.Steps.{AllKeepTargets, AllNearer, targets_of, uses_of, uses_after};

use crate::choosing::next_turn;
use crate::turning::add_turn;
use crate::volume::{Step, Totals, Volume};
use density::{Report, VolumeUse};
use std::alloc::{AllocError, Global};

/// The volumes of some rows.
fn volumes_of(alloc: Global, rows: &[VolumeUse]) -> Result<Vec<Volume>, AllocError>
    ensures { IfOk result (λ volumes. volumes.items ≡ volumes_of rows.now) }
{
    rows.iter()
        .map(|row| Volume {
            capacity: row.capacity,
            used: row.used,
            skipped: false,
        })
        .collect(alloc)
}

/// The steps of the turns from these volumes on.
fn steps_from(
    alloc: Global,
    totals: &Totals,
    threshold: u8,
    volumes: &mut [Volume],
) -> Result<Vec<Step>, AllocError>
    requires sound { AreSound totals.now volumes.old }
    requires threshold { threshold ≤ 100 }
    ensures { IfOk result (λ steps. IsPlanOf totals.now threshold volumes.old steps.items) }
{
    let mut steps = Vec::new(alloc);
    'turns: while let Some(turn) = next_turn(totals, threshold, volumes) {
        add_turn(totals, turn, volumes, &mut steps)?;
    }
    Ok(steps)
}

/// The steps of the greedy run over the volumes of a report.
fn greedy_steps(alloc: Global, report: &Report, threshold: u8) -> Result<Vec<Step>, AllocError>
    requires { threshold ≤ 100 }
    ensures { IfOk result (λ steps. IsGreedyPlan report.now threshold steps.items) }
{
    let totals = Totals {
        capacity: report.total_capacity(),
        used: report.total_used(),
    };
    let mut volumes = volumes_of(alloc, report.rows())?;
    let steps = steps_from(alloc, &totals, threshold, &mut volumes)?;
    Ok(steps)
}

/// The greedy plan over the volumes of a report, with a threshold in percent.
///
/// While two volumes take part and one of them is past the threshold, the one of greatest density takes from the one of
/// least density, the lower row of several such, as much as brings one of them to the node's mean, rounded down. One that
/// can take or give nothing takes no part any more.
#[tactic(auto, using(crate::proofs::Plans::plan_few, crate::proofs::Plans::plan_targets, crate::proofs::Plans::plan_kept, crate::proofs::Plans::plan_nearer))]
pub fn plan(alloc: Global, report: &Report, threshold: u8) -> Result<Vec<Step>, AllocError>
    requires { threshold ≤ 100 }
    // The steps are those of the greedy run to its end.
    ensures greedy { IfOk result (λ steps. IsGreedyPlan report.now threshold steps.items) }
    ensures few { IfOk result (λ steps. length steps.items ≤ length report.now) }
    // None leads a volume past its target, so none takes more than there is.
    ensures targets { IfOk result (λ steps. AllKeepTargets (targets_of report.now) (uses_of report.now) steps.items) }
    ensures kept { IfOk result (λ steps. sum (uses_after steps.items (uses_of report.now)) ≡ total_used report.now) }
    ensures nearer { IfOk result (λ steps. AllNearer (targets_of report.now) (uses_of report.now) (uses_after steps.items (uses_of report.now))) }
{
    let steps = greedy_steps(alloc, report, threshold)?;
    Ok(steps)
}
