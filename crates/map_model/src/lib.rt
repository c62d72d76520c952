//! What a client sees of a block, and when the files of a disk stand for it: definitions, and the laws that
//! tie them together. Each law is the contract of a function that does nothing.
#![tactic(auto)]

mod images;
mod steps;
mod tenures;

pub use images::{
    block_allows, block_is_sound, files_have_one_reading, other_blocks_stand, stands_allows,
    stands_is_sound,
};
pub use steps::{
    appends_are_read_back, first_refusal_is_answered, only_own_cells_change,
    pushes_keep_the_writer, reads_change_nothing, reads_give_the_content, refused_changes_nothing,
    reopenings_allow_nothing_else, steps_allow_nothing_else, steps_are_between,
    writes_are_read_back,
};
pub use tenures::{
    begin_move_stands, delete_final_stands, delete_unsure_stands, delete_waiting_stands,
    drop_append_stands, drop_move_stands, drop_write_stands, finish_append_stands,
    finish_write_is_between, finish_write_stands, nothing_stands, publish_move_stands,
    removal_stands, start_append_stands, start_write_is_quiet, start_write_stands,
};
