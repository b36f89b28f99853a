//! What the code of the regions of a program does, as a theorem: each block stands behind its site, and from its end the machine of the module comes to the site of the block that its terminator goes to.
//!
//! The function does nothing: its contract states the theorem. What is asked of a module, and the statement, stand in `specs/Standing.antt`; how a block is left stands in `specs/Exits.antt` of line_runs.
#![tactic(auto)]

ghost use Rattle.region_runs.specs.Standing.{RegionsRun};

/// The code of the regions of every program leads each block to its next blocks.
pub fn regions_run()
    ensures { RegionsRun }
{}
