//! Operations of clients as a whole, over the calls of a pool.
#![tactic(auto)]

mod reading;
mod writing;

pub use reading::{ReadEnd, read_all};
pub use writing::{
    FillFault, Filled, Op, OpReply, op_end, op_fill, write_is_one_step, write_start,
};

#[cfg(test)]
mod tests;
