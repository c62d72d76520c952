//! What is answered to lines about the disk balancer's plan.
ghost use Rattle.std.specs.Prelude.{◌≡◌, [], ◌∷◌, ◌++◌, IfOk};
ghost use Rattle.script_lang.specs.BalancerReply.{balancer_reply_text};

use crate::listed::Listed;
use crate::reply::plan::{StepRow, write_plan};
use crate::reply::plan_refusal::{PlanRefusal, write_plan_refusal};
use crate::reply::plan_state::PlanState;
use crate::text::Text;
use std::alloc::{AllocError, Global};

/// What is answered to lines about the disk balancer's plan.
#[derive(Drop)]
pub enum BalancerReply {
    /// `ok ID`: the plan of this id is submitted.
    Submitted {
        id: Text,
    },
    /// A plan isn't submitted.
    Refused {
        refusal: PlanRefusal,
    },
    /// `nosuchplan ID`: no plan of this id is held.
    NoSuchPlan {
        id: Text,
    },
    /// `plan NUMBER STATE ID`, and a line for each step. ID is `-` without a plan.
    Plan {
        number: u64,
        state: PlanState,
        id: Option<Text>,
        steps: Listed<StepRow>,
    },
}

/// The line that it prints, with its line feed.
pub fn write_balancer_reply(alloc: Global, reply: &BalancerReply) -> Result<Vec<u8>, AllocError>
    ensures { IfOk result (λ line. line.items ≡ balancer_reply_text reply.now ++ 10 ∷ []) }
{
    let line = match reply {
        BalancerReply::Submitted { id } => {
            let id = id.as_str();
            format!(in alloc; "ok {id}\n")?
        }
        BalancerReply::Refused { refusal } => return write_plan_refusal(alloc, refusal),
        BalancerReply::NoSuchPlan { id } => {
            let id = id.as_str();
            format!(in alloc; "nosuchplan {id}\n")?
        }
        BalancerReply::Plan {
            number,
            state,
            id,
            steps,
        } => return write_plan(alloc, *number, *state, id, steps.as_slice()),
    };
    Ok(line.into_bytes())
}
