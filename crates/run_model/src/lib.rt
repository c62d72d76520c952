//! What a run is, as definitions: its state, what each command and each line of a script does to it, and what the images
//! that a crash can leave hold meanwhile. They cite no session and no program, so that each program of the node can stand on
//! them.
#![tactic(auto)]
