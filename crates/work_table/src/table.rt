//! The table.
ghost use Rattle.std.specs.Prelude.{◌≡◌, ◌⊎◌, ◌+◌, ◌≤◌, ◌<◌, ◌^◌, Some, Err, IfOk, IfErr, All, List, [], length, map, string_bytes};
ghost use Rattle.plan_json.specs.Forms.{IsInForm};
ghost use Rattle.plan_json.specs.Checks.{IsOn};
ghost use Rattle.work_table.specs.declared.entry.TableEntry.TheVariants.{Submit, Cancel, Task, Count};
ghost use Rattle.work_table.specs.declared.answers.SubmitFault.TheVariants.{Memory};
ghost use Rattle.work_table.specs.Answers.{submit_answer, cancel_answer, task_answer, count_answer};
ghost use Rattle.work_table.specs.Assigned.{assignments, AreVolumes, IsOfWork};
ghost use Rattle.work_table.specs.Standing.{made, StandsFor, Adds};

use crate::answers::{CountEnd, Counted, NoSuchPlan, SubmitFault, TaskEnd};
use crate::places::fresh_steps;
use crate::plan_state::PlanState;
use crate::states::{first_open, state_of, task_for};
use crate::step_works::StepWorks;
use crate::work::{Work, cancel_steps, put_step};
use plan_json::{Plan, PlanId, PlanStep};
use std::alloc::Global;
use std::marker::Model;

/// The plan that was submitted last, and how far it is.
#[derive(Drop)]
pub struct WorkTable {
    work: Work,
    planned: Vec<PlanStep>,
}

impl Model for WorkTable {
    ghost use Rattle.work_table.specs.Standing.{TableView};
    ghost use Rattle.work_table.specs.Whole.{IsWhole};

    ghost Value = { TableView };

    ghost view = { λ t. record { work = t.work; planned = t.planned.items } };

    ghost invariant = { λ t. IsWhole (record { work = t.work; planned = t.planned.items }) };
}

impl WorkTable {
    /// A table without a plan. It takes no memory.
    pub fn make(alloc: Global) -> WorkTable
        ensures made { result ≡ made }
        ensures stands { StandsFor result [] }
    {
        WorkTable {
            work: Work {
                plan_no: 0,
                state: PlanState::NoPlan,
                id: None,
                steps: StepWorks::new(Vec::new(alloc)),
            },
            planned: Vec::new(alloc),
        }
    }

    /// Submits a plan with its id, for a node with these volumes: at most 64 names, which are distinct. On either fault
    /// nothing has changed.
    pub fn submit(
        &mut self,
        alloc: Global,
        plan: Plan,
        id: PlanId,
        volumes: &[String],
    ) -> Result<(), SubmitFault>
        requires in_form { IsInForm plan }
        requires on_node { IsOn (map string_bytes volumes.now) plan }
        requires few { length volumes.now ≤ 64 }
        requires plans { self.old.work.plan_no < 2 ^ 63 }
        ensures answer { (result ≡ Err Memory) ⊎ (result ≡ submit_answer self.old.work) }
        ensures stands { Adds self.old (Submit plan id (map string_bytes volumes.now) result) self.new }
        ensures unchanged { IfErr result (λ _. self.new ≡ self.old) }
        ensures number { IfOk result (λ _. self.new.work.plan_no ≡ self.old.work.plan_no + 1) }
        ensures volumes { IfOk result (λ _. All (AreVolumes (length volumes.now)) (assignments self.new.work)) }
    {
        if self.work.state == PlanState::UnderProgress {
            return Err(SubmitFault::InProgress);
        }
        let planned = plan.steps.into_vec();
        let steps = fresh_steps(alloc, volumes, planned.as_slice())?;
        self.work = Work {
            plan_no: self.work.plan_no + 1,
            state: state_of(steps.as_slice()),
            id: Some(id),
            steps: StepWorks::new(steps),
        };
        self.planned = planned;
        Ok(())
    }

    /// The work, lent.
    pub fn query(&self) -> &Work
        ensures { result.now ≡ self.now.work }
    {
        &self.work
    }

    /// Cancels the plan of this id: each of its steps that has no end is ended. A plan that has ended stays as it is.
    pub fn cancel(&mut self, id: &str) -> Result<(), NoSuchPlan>
        ensures answer { result ≡ cancel_answer id.now self.old.work }
        ensures stands { Adds self.old (Cancel id.now result) self.new }
        ensures number { self.new.work.plan_no ≡ self.old.work.plan_no }
        ensures steps { length self.new.work.steps ≡ length self.old.work.steps }
        ensures assigned { assignments self.new.work ≡ assignments self.old.work }
    {
        match &self.work.id {
            Some(held) if held.as_str() == id => {}
            _ => return Err(NoSuchPlan {}),
        }
        cancel_steps(&mut self.work);
        Ok(())
    }

    /// What is to be done next, for the first step that has no end. A step that is close enough to what it plans, or has
    /// more errors than its limit, ends by this call.
    pub fn task(&mut self) -> TaskEnd
        ensures answer { result ≡ task_answer self.old.work self.old.planned }
        ensures of_work { IsOfWork self.old.work result }
        ensures stands { Adds self.old (Task result) self.new }
        ensures number { self.new.work.plan_no ≡ self.old.work.plan_no }
        ensures steps { length self.new.work.steps ≡ length self.old.work.steps }
        ensures assigned { assignments self.new.work ≡ assignments self.old.work }
    {
        let Some(i) = first_open(self.work.steps.as_slice()) else {
            return TaskEnd::Idle;
        };
        let step = self.work.steps.as_slice()[i];
        let task = task_for(self.work.plan_no, i as u32 + 1, step, &self.planned[i]);
        if let TaskEnd::StepEnd { end, .. } = task {
            put_step(&mut self.work, i, step.ended(end));
        }
        task
    }

    /// Counts what came of a task for the step of this number, from 1, of the plan of this number. What is of another plan
    /// than the table's isn't counted.
    pub fn count(&mut self, plan_no: u64, step: u32, what: Counted) -> CountEnd
        requires first { plan_no ≡ self.old.work.plan_no → 1 ≤ step }
        requires last { plan_no ≡ self.old.work.plan_no → step ≤ length self.old.work.steps }
        ensures answer { result ≡ count_answer plan_no self.old.work }
        ensures stands { Adds self.old (Count plan_no step what result) self.new }
        ensures number { self.new.work.plan_no ≡ self.old.work.plan_no }
        ensures steps { length self.new.work.steps ≡ length self.old.work.steps }
        ensures assigned { assignments self.new.work ≡ assignments self.old.work }
    {
        if plan_no != self.work.plan_no {
            return CountEnd::Stale {
                want: plan_no,
                have: self.work.plan_no,
            };
        }
        let i = step as usize - 1;
        let counted = self.work.steps.as_slice()[i].counted(what);
        put_step(&mut self.work, i, counted);
        CountEnd::Counted
    }
}
