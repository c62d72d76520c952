//! The disk balancer's work: the plan that was submitted last, how far each of its steps is, and what is to be done next.
//! Every call is an entry of the table's history, and the table is what the history says.
#![tactic(auto)]

mod answers;
mod entry;
mod laws;
mod places;
mod plan_state;
mod states;
mod step_end;
mod step_work;
mod step_works;
mod table;
mod work;

pub use answers::{CountEnd, Counted, NoSuchPlan, SubmitFault, TaskEnd};
pub use entry::{TableEntry, VolumeNames};
pub use laws::cancelled_while_open;
pub use plan_state::PlanState;
pub use step_end::StepEnd;
pub use step_work::StepWork;
pub use step_works::StepWorks;
pub use table::WorkTable;
pub use work::Work;

#[cfg(test)]
mod tests;
