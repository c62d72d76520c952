//! The report of a node's volumes.
ghost use Rattle.std.specs.Prelude.{◌≡◌, ◌≤◌, ◌<◌, ◌^◌, ◌*◌, ◌⊎◌, Some, Err, List, length, sum_by, slice_get, not, position, true};
ghost use Rattle.std.specs.List.{AllPass};
ghost use Rattle.density.specs.declared.volume_use.VolumeUse.{VolumeUse};
ghost use Rattle.density.specs.declared.report_fault.ReportFault.TheVariants.{Memory};
ghost use Rattle.density.specs.Reports.{is_in_limits, report_of, total_capacity, total_used};

use crate::report_fault::ReportFault;
use crate::volume_use::VolumeUse;
use crate::{MOST_BYTES, MOST_ROWS};
use std::alloc::{AllocError, Global};
use std::marker::Model;

/// The rows of a node's volumes, 1 to 64 of them, all within the limits.
#[derive(Drop)]
pub struct Report {
    rows: Vec<VolumeUse>,
    capacity: u64,
    used: u64,
}

impl Model for Report {
    ghost Value = { List VolumeUse };

    ghost view = { λ r. r.rows.items };

    ghost invariant = { λ r. AllPass is_in_limits r.rows.items × (0 < length r.rows.items) × (length r.rows.items ≤ 64)
        × (r.capacity ≡ total_capacity r.rows.items) × (r.used ≡ total_used r.rows.items) };
}

/// Whether a row is within the limits.
fn is_in_limits(row: VolumeUse) -> bool
    ensures { result ≡ is_in_limits row }
{
    1 <= row.capacity && row.capacity <= MOST_BYTES && row.used <= MOST_BYTES
}

/// The first row that is out of the limits.
fn first_out_of_range(rows: &[VolumeUse]) -> Option<usize>
    ensures { result ≡ position (λ row. not (is_in_limits row)) rows.now }
{
    rows.iter().position(|row| !is_in_limits(*row))
}

/// The capacities together.
fn sum_of_capacities(rows: &[VolumeUse]) -> u64
    requires { total_capacity rows.now < 2 ^ 64 }
    ensures { result ≡ total_capacity rows.now }
{
    rows.iter().map(|row| row.capacity).sum()
}

/// The used bytes together.
fn sum_of_uses(rows: &[VolumeUse]) -> u64
    requires { total_used rows.now < 2 ^ 64 }
    ensures { result ≡ total_used rows.now }
{
    rows.iter().map(|row| row.used).sum()
}

impl Report {
    /// The report of these rows, which it copies.
    pub fn make(alloc: Global, rows: &[VolumeUse]) -> Result<Report, ReportFault>
        ensures { (result ≡ Err Memory) ⊎ (result ≡ report_of rows.now) }
    {
        if rows.is_empty() {
            return Err(ReportFault::Empty);
        }
        if rows.len() > MOST_ROWS {
            return Err(ReportFault::Many { n: rows.len() });
        }
        if let Some(row) = first_out_of_range(rows) {
            return Err(ReportFault::Range { row });
        }
        let Ok(copied) = Vec::from_slice(alloc, rows) else {
            return Err(ReportFault::Memory);
        };
        Ok(Report {
            capacity: sum_of_capacities(rows),
            used: sum_of_uses(rows),
            rows: copied,
        })
    }

    /// The rows, lent.
    pub fn rows(&self) -> &[VolumeUse]
        ensures rows { result.now ≡ self.now }
        ensures limits { AllPass is_in_limits self.now }
        ensures some { 0 < length self.now }
        ensures few { length self.now ≤ 64 }
    {
        &self.rows
    }

    /// How many rows there are.
    pub fn len(&self) -> usize
        ensures { result ≡ length self.now }
    {
        self.rows.len()
    }

    /// A row, from 0.
    pub fn row(&self, i: usize) -> VolumeUse
        requires { i < length self.now }
        ensures row { slice_get self.now i ≡ Some result }
        ensures limits { is_in_limits result ≡ true }
        ensures part { result.capacity ≤ total_capacity self.now }
    {
        self.rows[i]
    }

    /// The capacities of all volumes together: at most 2^60.
    pub fn total_capacity(&self) -> u64
        ensures total { result ≡ total_capacity self.now }
        ensures limit { result ≤ 2 ^ 60 }
    {
        self.capacity
    }

    /// The used bytes of all volumes together: at most 2^60.
    pub fn total_used(&self) -> u64
        ensures total { result ≡ total_used self.now }
        ensures limit { result ≤ 2 ^ 60 }
    {
        self.used
    }
}
