//! The steps of a plan, which contracts see as a list.
ghost use Rattle.std.specs.Prelude.{◌≡◌, List, length};
ghost use Rattle.plan_json.specs.declared.step.PlanStep.{PlanStep};

use crate::step::PlanStep;
use std::marker::Model;

/// Steps in the order in which they are carried out.
#[derive(Drop)]
pub struct Steps {
    steps: Vec<PlanStep>,
}

impl Model for Steps {
    ghost Value = { List PlanStep };

    ghost view = { λ s. s.steps.items };
}

impl Steps {
    /// The steps of a vector. It takes no memory.
    pub fn new(steps: Vec<PlanStep>) -> Steps
        ensures { result ≡ steps.items }
    {
        Steps { steps }
    }

    /// The steps, lent.
    pub fn as_slice(&self) -> &[PlanStep]
        ensures { result.now ≡ self.now }
    {
        self.steps.as_slice()
    }

    /// How many steps there are.
    pub fn len(&self) -> usize
        ensures { result ≡ length self.now }
    {
        self.steps.len()
    }

    /// The steps, given away. It takes no memory.
    pub fn into_vec(self) -> Vec<PlanStep>
        ensures { result.items ≡ self }
    {
        self.steps
    }
}
