//! How a step of the submitted plan ended.
ghost use Rattle.std.specs.Prelude.{Some};
ghost use Rattle.script_lang.specs.StepEnd.{step_end_text};

use std::fmt;

/// How a step of the submitted plan ended.
#[derive(Clone, Copy, Debug, PartialEq, Eq)]
pub enum StepEnd {
    /// `open`: it hasn't.
    Open,
    /// `done`: enough was moved.
    Done,
    /// `cancelled`: the plan was cancelled.
    Cancelled,
    /// `errorlimit`: there were too many errors.
    ErrorLimit,
    /// `noblock`: no block was left that fits.
    NoBlock,
}

impl fmt::Display for StepEnd {
    ghost output = { λ part. Some (step_end_text part) };

    fn fmt<W: fmt::Write>(&self, f: &mut fmt::Formatter<W>) -> fmt::Result {
        f.write_str(match self {
            StepEnd::Open => "open",
            StepEnd::Done => "done",
            StepEnd::Cancelled => "cancelled",
            StepEnd::ErrorLimit => "errorlimit",
            StepEnd::NoBlock => "noblock",
        })
    }
}
