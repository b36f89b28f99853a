//! All that the program does, over any files and any sink: the words of the command line, the answer, the write and the saying.
//!
//! The definitions stand in `specs/`: the commands in `Commands.antt`, what each answers in `Answers.antt`, and what each status leaves in `Runs.antt`.
#![tactic(auto)]

mod command_line;
mod output;
mod status;
mod top;

pub use status::Status;
pub use top::run;
