//! The languages at single lines, replies and command lines.
mod client_replies;
mod columns;
mod command_lines;
mod hostile_lines;
mod job_replies;
mod lines;
mod move_replies;
mod mover_replies;
mod node_replies;
mod plan_replies;
mod printing;
mod refusal_replies;
mod said;
mod scan_replies;
mod serve_lines;
