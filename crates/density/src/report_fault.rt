//! Why rows make no report.

/// Why rows make no report: the first of these that holds.
#[derive(Clone, Copy, Debug, PartialEq, Eq)]
pub enum ReportFault {
    /// There is no row.
    Empty,
    /// There are more than 64 rows.
    Many { n: usize },
    /// This row, from 0, is the first that is out of the limits.
    Range { row: usize },
    /// There is no memory for the report.
    Memory,
}
