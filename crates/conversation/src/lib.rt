//! `whatif console`: what a person says line by line, and what is answered.
//!
//! What a line says is read by `step_words`. Its steps are answered by the server of `serve_script`, as those of a script are; what is
//! no step is told of the version at which session 1 stands.
#![tactic(auto)]

mod answer;
mod edit_text;
mod helping;
mod listening;
mod mistaken;
mod printing;
mod served;
mod setting;
mod step_text;
mod talk;
mod telling;
mod versions;

pub use listening::run_console;
