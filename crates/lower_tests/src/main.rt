//! Lowers programs, and says of the module of each how many words it has that `check` accepts. With the word `words` on the command line, it writes the words themselves.
#![tactic(auto)]

mod counted;
mod graphs;
mod lines;
mod lists;
mod maker;
mod ops;
mod random;
mod samples;
mod shapes;
mod swap;
mod words;

use crate::graphs::{Exit, Node, Sample, random_sample};
use crate::words::{Trouble, lowered};
use dx_base::{OutOfMemory, Words};
use spv_form::Version;
use std::alloc::AllocError;
use std::{env, io};

/// How many programs there are of each graph.
const ROUNDS: u32 = 50;

fn name_of(version: Version) -> &'static str {
    match version {
        Version::V13 => "1.3",
        Version::V16 => "1.6",
    }
}

/// Writes the words of a module in one line, behind its name.
fn print_words(rt: &HostRuntime, name: &str, version: Version, words: &Words) -> io::Result<()> {
    print!(rt; "{name} {}", name_of(version))?;
    for word in words.as_slice() {
        print!(rt; " {word:x}")?;
    }
    println!(rt; "")
}

/// The words of the module of a sample in a version; where they are not accepted, a line says why.
fn words_of(
    rt: &HostRuntime,
    name: &str,
    sample: &Sample,
    version: Version,
) -> io::Result<Option<Words>> {
    let made = lowered(
        rt.alloc(),
        &sample.program,
        sample.regions.as_slice(),
        &sample.slots,
        sample.bindings.as_slice(),
        version,
    );
    match made {
        Ok(words) => Ok(Some(words)),
        Err(Trouble::Memory) => Err(AllocError.into()),
        Err(trouble) => {
            println!(rt; "{name} {}: {trouble:?}", name_of(version))?;
            Ok(None)
        }
    }
}

/// Says of a sample's modules how many words they have, or writes the words.
fn show(
    rt: &HostRuntime,
    all: bool,
    name: &str,
    made: Result<Sample, OutOfMemory>,
) -> io::Result<()> {
    let sample = match made {
        Ok(sample) => sample,
        Err(OutOfMemory) => return Err(AllocError.into()),
    };
    for version in [Version::V16, Version::V13] {
        if let Some(words) = words_of(rt, name, &sample, version)? {
            if all {
                print_words(rt, name, version, &words)?;
            } else {
                println!(rt; "{name} {}: {} words", name_of(version), words.len())?;
            }
        }
    }
    Ok(())
}

/// Says of the random programs of a graph how many words their modules have together, or writes the words.
fn show_random(
    rt: &HostRuntime,
    all: bool,
    name: &str,
    exits: &[Exit],
    nodes: &[Node],
) -> io::Result<()> {
    let mut total: u64 = 0;
    for round in 0..ROUNDS {
        let most = round % 12;
        let sample = match random_sample(rt.alloc(), round, exits, nodes, most) {
            Ok(sample) => sample,
            Err(OutOfMemory) => return Err(AllocError.into()),
        };
        for version in [Version::V16, Version::V13] {
            if let Some(words) = words_of(rt, name, &sample, version)? {
                total = total.wrapping_add(words.len() as u64);
                if all {
                    print_words(rt, name, version, &words)?;
                }
            }
        }
    }
    if !all {
        println!(rt; "{name}, {} programs: {total} words", ROUNDS)?;
    }
    Ok(())
}

fn show_samples(rt: &HostRuntime, all: bool) -> io::Result<()> {
    let alloc = rt.alloc();
    show(rt, all, "empty", samples::empty_sample(alloc))?;
    show(rt, all, "thread-number", samples::thread_sample(alloc))?;
    show(rt, all, "ring", samples::ring_sample(alloc))?;
    show(rt, all, "phi-swap", swap::swap_sample(alloc))?;
    show(
        rt,
        all,
        "switch-16383",
        samples::switch_sample(alloc, 16_383),
    )?;
    show(
        rt,
        all,
        "switch-16384",
        samples::switch_sample(alloc, 16_384),
    )?;
    show(rt, all, "chain-400", samples::chain_sample(alloc, 400))?;
    show(
        rt,
        all,
        "dispatch-401",
        samples::dispatch_sample(alloc, 401),
    )
}

fn main(rt: HostRuntime) -> io::Result<()> {
    let mut args = env::args(&rt)?;
    let all = args.any(|word| word.as_str() == "words");
    show_samples(&rt, all)?;
    shapes::show_shapes(&rt, all)
}
