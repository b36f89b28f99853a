//! Tests of the program's top: the commands over files and sinks in memory, and the verdicts on whole files.
#![tactic(auto)]

#[cfg(test)]
mod commands;
#[cfg(test)]
mod example;
#[cfg(test)]
mod plain;
#[cfg(test)]
mod verdicts;
