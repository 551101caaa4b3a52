//! Coverage by definition.
ghost use Rattle.std.specs.Prelude.{◌≤◌, length, IfOk};

use cov_history::coverage_by_definition;
use cov_tree::{Memory, Name};
use design_data::BinKind;
use std::alloc::Global;
use ucis_model::{Node, NodeKind};

/// A node right below the coverpoint, but for the coverpoint itself.
fn node(alloc: Global, kind: NodeKind, first_bin: u32, bins: u32) -> Result<Node, Memory> {
    Ok(Node {
        kind,
        name: Name::of(alloc, b"n")?,
        parent: 0,
        first_bin,
        bins,
        weight: 1,
        type_weight: 1,
        goal: 100,
        at_least: 1,
        merge: false,
    })
}

/// A coverpoint with two bins.
fn point(alloc: Global) -> Result<Vec<Node>, Memory>
    ensures { IfOk result (λ nodes. length nodes.items ≤ 3) }
{
    let mut nodes = Vec::new(alloc);
    nodes.push(node(alloc, NodeKind::CoverPoint, 0, 2)?)?;
    nodes.push(node(alloc, NodeKind::Bin(BinKind::CvgBin), 0, 1)?)?;
    nodes.push(node(alloc, NodeKind::Bin(BinKind::CvgBin), 1, 1)?)?;
    Ok(nodes)
}

#[test]
fn covers_a_half(rt: HostRuntime) {
    let alloc = rt.alloc();
    let nodes = point(alloc).expect(&rt, "memory");
    for (excluded, part) in [(false, 500_000), (true, 1_000_000)] {
        let flags = [false, false, excluded];
        let given = coverage_by_definition(alloc, nodes.as_slice(), &[1, 0], &flags, 0);
        assert_eq!(rt; given.expect(&rt, "memory"), part);
    }
}
