//! A disk balancer's plan: its JSON text, its id, and the checks that a submitted plan goes through.
#![tactic(auto)]

mod check;
mod fault;
mod id;
mod members;
mod plan;
mod read;
mod step;
mod steps;
mod text;
mod write;

pub use check::read_plan;
pub use fault::{PlanFault, PlanMember};
pub use id::{PlanId, plan_id};
pub use plan::Plan;
pub use step::PlanStep;
pub use steps::Steps;
pub use text::Text;
pub use write::write_plan;

#[cfg(test)]
mod tests;
