//! The checks that a submitted plan goes through.
ghost use Rattle.std.specs.Prelude.{◌≡◌, ◌⊎◌, ◌≤◌, Err, IfOk, option_map, length, map, string_bytes};
ghost use Rattle.plan_json.specs.Forms.{IsInForm};
ghost use Rattle.plan_json.specs.Checks.{is_among, strange_volume, idle_step, checked, accepted, IsOn};

use crate::fault::PlanFault;
use crate::id::plan_id;
use crate::plan::Plan;
use crate::read::plan_in;
use crate::step::PlanStep;
use crate::text::Text;
use std::alloc::Global;

/// The version that plans have.
const VERSION: u64 = 1;

/// How long a plan is valid, in milliseconds: a day.
const VALID_MS: u64 = 86_400_000;

/// Whether the node has a volume.
fn is_among(volumes: &[String], uuid: &str) -> bool
    ensures { result ≡ is_among (map string_bytes volumes.now) uuid.now }
{
    for volume in volumes {
        if uuid == volume.as_str() {
            return true;
        }
    }
    false
}

/// The first volume of the steps that the node hasn't.
fn strange_volume<'a>(steps: &'a [PlanStep], volumes: &[String]) -> Option<&'a str>
    ensures { option_map (λ uuid. uuid.now) result ≡ strange_volume (map string_bytes volumes.now) steps.now }
{
    for step in steps {
        if !is_among(volumes, step.from.as_str()) {
            return Some(step.from.as_str());
        }
        if !is_among(volumes, step.to.as_str()) {
            return Some(step.to.as_str());
        }
    }
    None
}

/// The number, from 1, of the first step whose source is its destination.
fn idle_step(steps: &[PlanStep]) -> Option<u32>
    requires { length steps.now ≤ 1024 }
    ensures { result ≡ idle_step steps.now }
{
    let mut number = 0u32;
    for step in steps {
        number += 1;
        if step.from.as_str() == step.to.as_str() {
            return Some(number);
        }
    }
    None
}

/// The plan, where it passes the checks of its time, its node and its volumes.
fn check_plan(
    alloc: Global,
    plan: Plan,
    force: bool,
    now: u64,
    node: &str,
    volumes: &[String],
) -> Result<Plan, PlanFault>
    requires { IsInForm plan }
    ensures plan { (result ≡ Err PlanFault.Memory)
        ⊎ (result ≡ checked force now node.now (map string_bytes volumes.now) plan) }
    ensures in_form { IfOk result IsInForm }
    ensures on_node { IfOk result (IsOn (map string_bytes volumes.now)) }
{
    let age = now.saturating_sub(plan.time_ms);
    if !force && age > VALID_MS {
        return Err(PlanFault::OldPlan { age });
    }
    if plan.node.as_str() != node {
        return Err(PlanFault::NodeMismatch);
    }
    if let Some(uuid) = strange_volume(plan.steps.as_slice(), volumes) {
        let uuid = Text::from_text(alloc, uuid)?;
        return Err(PlanFault::InvalidVolume { uuid });
    }
    if let Some(step) = idle_step(plan.steps.as_slice()) {
        return Err(PlanFault::InvalidMove { step });
    }
    Ok(plan)
}

/// Reads a plan that was submitted to a node with its id and version at the moment `now`, in milliseconds since 1970.
/// `volumes` are the UUIDs of the node's volumes. It refuses by the first of these checks that fails: the version is 1;
/// the id is the SHA-1 of the text, letters compared without case; the text and its members are in form; the plan isn't
/// older than a day, unless forced; it is this node's; each of its volumes is the node's; and no step moves from a
/// volume to itself. Members that aren't used are passed over unread. A member `bandwidth`, `tolerancePercent` or
/// `maxDiskErrors` that is absent or 0 has its default: 10 MiB a second, 10 percent, 5 errors.
pub fn read_plan(
    alloc: Global,
    text: &[u8],
    id: &str,
    version: u64,
    force: bool,
    now: u64,
    node: &str,
    volumes: &[String],
) -> Result<Plan, PlanFault>
    ensures plan { (result ≡ Err PlanFault.Memory) ⊎ (result ≡ accepted (record {
      text = text.now;
      id = id.now;
      version = version;
      force = force;
      now = now;
      node = node.now;
      volumes = map string_bytes volumes.now;
    })) }
    ensures in_form { IfOk result IsInForm }
    ensures on_node { IfOk result (IsOn (map string_bytes volumes.now)) }
{
    if version != VERSION {
        return Err(PlanFault::InvalidVersion { v: version });
    }
    let have = plan_id(text);
    if !id.eq_ignore_ascii_case(have.as_str()) {
        return Err(PlanFault::HashMismatch { have });
    }
    let plan = plan_in(alloc, text)?;
    check_plan(alloc, plan, force, now, node, volumes)
}
