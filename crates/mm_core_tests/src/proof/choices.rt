//! Choices in small graphs, whose symbols and labels are numbers.

use mm_base::Seed;
use mm_frame::{Book, Hypothesis, LabelId, Part, Sym};
use mm_shorten::{Aim, BYTE, Budget, Edge, Goal, Graph, Origin, choose_text, goals_of, step_price};
use std::alloc::{AllocError, Global};
use std::test::Fail;

/// The nodes of `stairs`: a hypothesis, two conclusions over it, and what is proved of both.
const GROUND: u32 = 0;

const LEFT: u32 = 1;

const RIGHT: u32 = 2;

const TOP: u32 = 3;

/// A hypothesis without more than its label.
fn hypothesis(label: u32) -> Hypothesis {
    Hypothesis {
        id: LabelId(label),
        typing: None,
        pattern: Part { start: 0, end: 0 },
    }
}

/// Adds an edge.
fn join(
    alloc: Global,
    graph: &mut Graph,
    node: u32,
    label: u32,
    children: &[u32],
) -> Result<bool, AllocError> {
    let children = Vec::from_slice(alloc, children)?;
    let origin = Origin::Proof;
    graph.add(
        node,
        Edge {
            label,
            children,
            origin,
        },
    )
}

/// The hypothesis 0; the assertion 1 over it; the assertion 2 over this twice; the assertion 3 over
/// both.
fn stairs(alloc: Global) -> Result<Graph, AllocError> {
    let mut graph = Graph::new(alloc, Seed::known());
    for number in 0..4 {
        graph.node(&[Sym(number)])?;
    }
    if let Some(ground) = graph.hypotheses.get_mut(GROUND as usize) {
        *ground = Some(0);
    }
    join(alloc, &mut graph, LEFT, 1, &[GROUND])?;
    join(alloc, &mut graph, RIGHT, 2, &[LEFT, LEFT])?;
    join(alloc, &mut graph, TOP, 3, &[LEFT, RIGHT])?;
    Ok(graph)
}

/// The text of the proof of the top that is chosen. All labels are those of mandatory hypotheses,
/// so none is listed.
fn text_of(
    alloc: Global,
    graph: &Graph,
    budget: &mut Budget,
) -> Result<Option<Vec<u8>>, AllocError> {
    let book = match Book::new(alloc, Seed::known()) {
        Ok(book) => book,
        Err(_) => return Err(AllocError),
    };
    let own = [hypothesis(0), hypothesis(1), hypothesis(2), hypothesis(3)];
    let aim = Aim {
        root: TOP,
        step: BYTE,
        most_steps: 6,
    };
    choose_text(alloc, &book, &own, graph, aim, budget)
}

#[test]
fn an_edge_stands_once(rt: HostRuntime) -> Result<(), Fail> {
    let mut graph = stairs(rt.alloc())?;
    assert!(rt; graph.is_known(TOP));
    assert!(rt; graph.is_known(GROUND));
    assert!(rt; !join(rt.alloc(), &mut graph, TOP, 3, &[LEFT, RIGHT])?);
    assert!(rt; join(rt.alloc(), &mut graph, TOP, 3, &[RIGHT, LEFT])?);
    assert!(rt; !join(rt.alloc(), &mut graph, GROUND, 3, &[RIGHT, LEFT])?);
    assert!(rt; !join(rt.alloc(), &mut graph, 4, 3, &[RIGHT, LEFT])?);
    assert_eq!(rt; graph.edges_of(TOP).len(), 2);
    Ok(())
}

#[test]
fn goals_tell_steps(rt: HostRuntime) -> Result<(), Fail> {
    let graph = stairs(rt.alloc())?;
    let goals = goals_of(rt.alloc(), &graph, TOP, &mut Budget::new(1_000))?;
    let wanted = [
        Goal {
            node: TOP,
            steps: 5,
            exclusive: 5,
        },
        Goal {
            node: RIGHT,
            steps: 3,
            exclusive: 2,
        },
        Goal {
            node: LEFT,
            steps: 1,
            exclusive: 1,
        },
    ];
    assert_eq!(rt; goals.as_slice(), wanted.as_slice());
    Ok(())
}

#[test]
fn what_is_used_again_is_tagged(rt: HostRuntime) -> Result<(), Fail> {
    let graph = stairs(rt.alloc())?;
    let text = text_of(rt.alloc(), &graph, &mut Budget::new(10_000))?;
    // The left one is proved by A and B and tagged as E; the right one is C over it twice.
    assert_eq!(rt;
        text.as_deref(),
        Some(b"      ( )\n      ABZEECD\n".as_slice())
    );
    Ok(())
}

#[test]
fn a_shorter_way_is_chosen(rt: HostRuntime) -> Result<(), Fail> {
    let mut graph = stairs(rt.alloc())?;
    join(rt.alloc(), &mut graph, TOP, 2, &[LEFT, LEFT])?;
    join(rt.alloc(), &mut graph, LEFT, 3, &[TOP])?;
    let text = text_of(rt.alloc(), &graph, &mut Budget::new(10_000))?;
    assert_eq!(rt;
        text.as_deref(),
        Some(b"      ( )\n      ABZEC\n".as_slice())
    );
    Ok(())
}

#[test]
fn a_budget_ends_the_search(rt: HostRuntime) -> Result<(), Fail> {
    let graph = stairs(rt.alloc())?;
    let mut budget = Budget::new(0);
    assert!(rt; text_of(rt.alloc(), &graph, &mut budget)?.is_none());
    assert!(rt; budget.is_used_up());
    Ok(())
}

#[test]
fn a_step_costs_no_less_than_a_byte(rt: HostRuntime) {
    assert_eq!(rt; step_price(0, 0), BYTE);
    assert_eq!(rt; step_price(40, 10), 60);
    assert_eq!(rt; step_price(6, 10), BYTE);
}
