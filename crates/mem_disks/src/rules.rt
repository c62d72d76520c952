//! Which calls fail.
ghost use Rattle.std.specs.Prelude.{◌≡◌, OnOk, OnErr, ◌++◌, ◌∷◌, []};

use std::alloc::{AllocError, Global};

/// A call of the outside.
#[derive(Clone, Copy, Debug, PartialEq, Eq)]
pub enum Call {
    List,
    Size,
    Lend,
    Create,
    Publish,
    Remove,
    /// Each append to a draft.
    Append,
    /// Each seal of a draft.
    Seal,
    /// Each read of a reader.
    Read,
    /// Any of the first six.
    Any,
}

/// Which call fails.
///
/// For the first six and `Any` it is the `nth` such call since the disks were made, counted from 1 on, and with
/// `forever` all later calls of the disks too. For `Append`, `Seal` and `Read` it is each such call on the `nth` draft
/// or reader that is made, and with `forever` on each later one too.
#[derive(Clone, Copy, Debug, PartialEq, Eq)]
pub struct FailRule {
    pub call: Call,
    pub nth: u64,
    pub forever: bool,
}

/// How many calls of each kind were begun, and how many drafts and readers were made.
#[derive(Clone, Copy)]
pub struct Counts {
    pub list: u64,
    pub size: u64,
    pub lend: u64,
    pub create: u64,
    pub publish: u64,
    pub remove: u64,
    pub any: u64,
    pub drafts: u64,
    pub readers: u64,
}

/// The rules, and what was counted.
#[derive(Drop)]
pub struct Rules {
    list: Vec<FailRule>,
    counts: Counts,
}

// How often a call was begun, or how many drafts or readers were made.
fn count_of(counts: &Counts, call: Call) -> u64 {
    match call {
        Call::List => counts.list,
        Call::Size => counts.size,
        Call::Lend => counts.lend,
        Call::Create => counts.create,
        Call::Publish => counts.publish,
        Call::Remove => counts.remove,
        Call::Append | Call::Seal => counts.drafts,
        Call::Read => counts.readers,
        Call::Any => counts.any,
    }
}

// The counts after one more call of the disks.
fn counted(counts: Counts, call: Call) -> Counts {
    let mut after = counts;
    after.any = counts.any.saturating_add(1);
    match call {
        Call::List => after.list = counts.list.saturating_add(1),
        Call::Size => after.size = counts.size.saturating_add(1),
        Call::Lend => after.lend = counts.lend.saturating_add(1),
        Call::Create => after.create = counts.create.saturating_add(1),
        Call::Publish => after.publish = counts.publish.saturating_add(1),
        Call::Remove => after.remove = counts.remove.saturating_add(1),
        Call::Append | Call::Seal | Call::Read | Call::Any => {}
    }
    after
}

// Whether a rule lets a call of the disks fail, which was counted last.
fn fails_call(rule: &FailRule, counts: &Counts, call: Call) -> bool {
    match rule.call {
        Call::Append | Call::Seal | Call::Read => false,
        _ => {
            let count = count_of(counts, rule.call);
            let is_named = rule.call == call || rule.call == Call::Any;
            (is_named && count == rule.nth) || (rule.forever && rule.nth <= count)
        }
    }
}

// Whether a rule lets each such call on this draft or reader fail.
fn fails_one(rule: &FailRule, call: Call, order: u64) -> bool {
    rule.call == call && (order == rule.nth || (rule.forever && rule.nth <= order))
}

impl Rules {
    /// No rules.
    pub fn none(alloc: Global) -> Rules
        ensures { result.list.items ≡ [] }
    {
        Rules {
            list: Vec::new(alloc),
            counts: Counts {
                list: 0,
                size: 0,
                lend: 0,
                create: 0,
                publish: 0,
                remove: 0,
                any: 0,
                drafts: 0,
                readers: 0,
            },
        }
    }

    /// One more rule. Want of memory changes nothing.
    pub fn add(&mut self, rule: FailRule) -> Result<(), AllocError>
        ensures ok { OnOk result (self.new.list.items ≡ self.old.list.items ++ rule ∷ []) }
        ensures err { OnErr result (self.new.list.items ≡ self.old.list.items) }
        ensures counts { self.new.counts ≡ self.old.counts }
    {
        self.list.push(rule)?;
        Ok(())
    }

    /// Counts a call of the disks, and says whether it fails.
    pub fn begin(&mut self, call: Call) -> bool
        ensures { self.new.list.items ≡ self.old.list.items }
    {
        self.counts = counted(self.counts, call);
        let counts = self.counts;
        let mut fails = false;
        for rule in &self.list {
            if fails_call(rule, &counts, call) {
                fails = true;
            }
        }
        fails
    }

    // Whether each such call on the draft or reader of this order fails.
    fn names_one(&self, call: Call, order: u64) -> bool {
        let mut fails = false;
        for rule in &self.list {
            if fails_one(rule, call, order) {
                fails = true;
            }
        }
        fails
    }

    /// Counts a draft that is made, and says whether its appends and its seals fail.
    pub fn next_draft(&mut self) -> (bool, bool)
        ensures { self.new.list.items ≡ self.old.list.items }
    {
        self.counts.drafts = self.counts.drafts.saturating_add(1);
        let order = self.counts.drafts;
        (
            self.names_one(Call::Append, order),
            self.names_one(Call::Seal, order),
        )
    }

    /// Counts a reader that is lent, and says whether its reads fail.
    pub fn next_reader(&mut self) -> bool
        ensures { self.new.list.items ≡ self.old.list.items }
    {
        self.counts.readers = self.counts.readers.saturating_add(1);
        self.names_one(Call::Read, self.counts.readers)
    }
}
