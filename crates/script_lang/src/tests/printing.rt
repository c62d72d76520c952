//! What a reply prints.
ghost use Rattle.std.specs.Prelude.{◌≡◌};

use crate::reply::{Reply, write_reply};
use std::alloc::Global;

// Whether a reply that is lent prints a front and behind it this text.
fn prints(alloc: Global, reply: &Reply, front: &str, want: &str) -> bool {
    match write_reply(alloc, reply) {
        Ok(line) => line.as_slice().strip_prefix(front.as_bytes()) == Some(want.as_bytes()),
        Err(_) => false,
    }
}

/// Whether a reply prints this text.
pub fn is_printed(alloc: Global, reply: Reply, want: &str) -> bool {
    prints(alloc, &reply, "", want)
}

/// Whether a reply prints this text behind `execute`.
pub fn is_printed_of_job(alloc: Global, reply: Reply, want: &str) -> bool {
    prints(alloc, &reply, "execute ", want)
}
