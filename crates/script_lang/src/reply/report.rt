//! The report of a node.
ghost use Rattle.std.specs.Prelude.{◌≡◌, Some, [], ◌∷◌, ◌++◌, IfOk, OnOk, string_bytes};
ghost use Rattle.script_lang.specs.NodeReport.{volume_row_text, report_text};

use std::alloc::{AllocError, Global};
use std::fmt;

/// The use of a volume over all pools.
#[derive(Clone, Copy, Debug, PartialEq, Eq)]
pub struct VolumeRow {
    /// The number of the volume.
    pub i: u64,
    /// In bytes.
    pub capacity: u64,
    /// In bytes.
    pub used: u64,
    /// How many replicas stand on it.
    pub replicas: u64,
}

impl fmt::Display for VolumeRow {
    ghost output = { λ row. Some (volume_row_text row) };

    fn fmt<W: fmt::Write>(&self, f: &mut fmt::Formatter<W>) -> fmt::Result {
        let VolumeRow {
            i,
            capacity,
            used,
            replicas,
        } = *self;
        write!(f, "volume {i} {capacity} {used} {replicas}")
    }
}

/// Writes a line feed, and then the line of a volume behind lines, without a line feed of its own.
fn append_volume(lines: &mut String, row: &VolumeRow) -> Result<(), AllocError>
    ensures { OnOk result (string_bytes lines.new ≡ string_bytes lines.old ++ 10 ∷ volume_row_text row.now) }
{
    write!(lines, "\n{row}")
}

/// The lines of a report.
pub fn write_report(
    alloc: Global,
    volumes: u64,
    leftovers: u64,
    rows: &[VolumeRow],
) -> Result<Vec<u8>, AllocError>
    ensures { IfOk result (λ lines. lines.items ≡ report_text volumes leftovers rows.now ++ 10 ∷ []) }
{
    let mut lines = format!(in alloc; "report {volumes} {leftovers}")?;
    for row in rows {
        append_volume(&mut lines, row)?;
    }
    lines.push('\n')?;
    Ok(lines.into_bytes())
}
