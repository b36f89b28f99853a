use crate::graphs::Exit::{Go, If, Ret, Switch, Unreachable};
use crate::graphs::Node::{Arm, Arms, Dispatch, Leaf, Loop, Then};
use crate::show_random;
use std::io;

/// Shows random programs of graphs that have no loop.
fn show_forward(rt: &HostRuntime, all: bool) -> io::Result<()> {
    show_random(rt, all, "one-block", &[Ret], &[Leaf(0)])?;
    show_random(
        rt,
        all,
        "straight",
        &[Go(1), Unreachable],
        &[Leaf(0), Leaf(1), Arm(0, 1, 1)],
    )?;
    show_random(
        rt,
        all,
        "diamond",
        &[If(1, 2), Go(3), Go(3), Ret],
        &[
            Leaf(0),
            Leaf(1),
            Leaf(2),
            Leaf(3),
            Arms(0, 1, 1, 2, 2),
            Then(4, 3, 3),
        ],
    )?;
    show_random(
        rt,
        all,
        "switch",
        &[Switch(1, 2, 3), Go(3), Go(3), Ret],
        &[
            Leaf(0),
            Leaf(1),
            Leaf(2),
            Leaf(3),
            Arm(0, 1, 1),
            Then(4, 2, 2),
            Then(5, 3, 3),
        ],
    )?;
    show_random(
        rt,
        all,
        "early-return",
        &[If(1, 2), Ret, If(3, 4), Go(5), Unreachable, Ret],
        &[
            Leaf(0),
            Leaf(1),
            Leaf(2),
            Leaf(3),
            Leaf(4),
            Leaf(5),
            Arm(3, 5, 5),
            Arms(2, 3, 6, 4, 4),
            Arms(0, 1, 1, 2, 7),
        ],
    )
}

/// Shows random programs of graphs with rings.
fn show_rings(rt: &HostRuntime, all: bool) -> io::Result<()> {
    show_random(
        rt,
        all,
        "loop",
        &[Go(1), If(2, 3), Go(1), Ret],
        &[
            Leaf(0),
            Leaf(1),
            Leaf(2),
            Leaf(3),
            Arm(1, 2, 2),
            Loop(4, 1),
            Then(0, 5, 1),
            Then(6, 3, 3),
        ],
    )?;
    show_random(
        rt,
        all,
        "self-loop",
        &[Go(1), Switch(1, 2, 1), Ret],
        &[
            Leaf(0),
            Leaf(1),
            Leaf(2),
            Loop(1, 1),
            Then(0, 3, 1),
            Then(4, 2, 2),
        ],
    )?;
    show_random(
        rt,
        all,
        "nested-loops",
        &[Go(1), Go(2), If(2, 3), Switch(1, 4, 5), Ret, Go(4)],
        &[
            Leaf(0),
            Leaf(1),
            Leaf(2),
            Leaf(3),
            Leaf(4),
            Leaf(5),
            Loop(2, 2),
            Then(1, 6, 2),
            Then(7, 3, 3),
            Loop(8, 1),
            Then(0, 9, 1),
            Then(10, 5, 5),
            Then(11, 4, 4),
        ],
    )
}

/// Shows random programs under one dispatch.
fn show_dispatches(rt: &HostRuntime, all: bool) -> io::Result<()> {
    show_random(
        rt,
        all,
        "two-entrances",
        &[If(1, 2), Go(2), If(1, 3), Ret],
        &[Leaf(0), Leaf(1), Leaf(2), Leaf(3), Dispatch(4)],
    )?;
    show_random(
        rt,
        all,
        "mixed-dispatch",
        &[If(1, 3), If(2, 3), Go(1), Switch(1, 4, 2), Ret],
        &[Leaf(0), Leaf(1), Leaf(2), Leaf(3), Leaf(4), Dispatch(5)],
    )
}

/// Shows random programs of each graph.
pub fn show_shapes(rt: &HostRuntime, all: bool) -> io::Result<()> {
    show_forward(rt, all)?;
    show_rings(rt, all)?;
    show_dispatches(rt, all)
}
