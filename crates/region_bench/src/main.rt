//! Does a piece of work on the branch graph of a program many times over, so that it can be timed from outside.
//!
//! The first line of the input is the work and how often it is done. Each further line has the blocks to which a block branches, from block 0 on. What is printed are
//! counts of what was made, so that it doesn't depend on the time.
#![tactic(auto)]

mod input;
mod reduce;
mod work;

use input::read_task;

fn main(rt: HostRuntime) -> anyhow::Result<()> {
    let alloc = rt.alloc();
    let task = read_task(alloc, rt.reader())?;
    let counts = work::repeat(alloc, &task)?;
    println!(rt; "{} blocks, {}", task.targets.len(), counts)?;
    Ok(())
}
