//! What the code of a line without an event does, as a theorem: where the line is defined, the machine of the module goes through the line's code, and then holds what the program's machine holds.
//!
//! The function does nothing: its contract states the theorem. When one machine holds what the other does stands in `specs/Held.antt`, what is asked of a line in `specs/Ready.antt`, and the statement in `specs/Done.antt`.
#![tactic(auto)]

ghost use Rattle.line_runs.specs.Done.{LinesRun};

/// Each line without an event is undefined, or its code does what it does.
pub fn lines_run()
    ensures { LinesRun }
{}
