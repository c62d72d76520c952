//! What a plan is made of.

/// A volume while a plan is made.
#[derive(Clone, Copy, Debug, PartialEq, Eq)]
pub struct Volume {
    /// The bytes that it may hold.
    pub capacity: u64,
    /// The bytes that it holds once the steps so far are made.
    pub used: u64,
    /// It takes no part any more.
    pub skipped: bool,
}

/// What the volumes of a node hold together.
#[derive(Clone, Copy, Debug, PartialEq, Eq)]
pub struct Totals {
    /// The bytes that they may hold.
    pub capacity: u64,
    /// The bytes that they hold.
    pub used: u64,
}

/// The two ends of the order of density.
#[derive(Clone, Copy, Debug, PartialEq, Eq)]
pub enum Side {
    /// The greatest density: the smallest share of used bytes.
    Low,
    /// The least density: the greatest share of used bytes.
    High,
}

/// The volumes that one turn of a plan is about, by their places from 0.
#[derive(Clone, Copy, Debug, PartialEq, Eq)]
pub struct Turn {
    /// The one of greatest density.
    pub low: usize,
    /// The one of least density.
    pub high: usize,
}

/// A step of a plan: that many bytes go from one volume to another. Volumes are named by their rows in the report, from 0.
#[derive(Clone, Copy, Debug, PartialEq, Eq)]
pub struct Step {
    pub from: usize,
    pub to: usize,
    pub bytes: u64,
}
