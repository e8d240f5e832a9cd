ghost use Rattle.std.specs.Prelude.{◌≡◌, ◌<◌, ◌≤◌, ◌^◌, ◌-ℤ◌, [], ◌∷◌, ◌++◌, All, IfOk, OnOk, length, pos};
ghost use Rattle.std.specs.List.{filter, flat_map};
ghost use Rattle.std.specs.List.Sorted.{IsNonDecreasingBy};
ghost use Rattle.wc_model.specs.declared.graphs.Graph.{Graph};
ghost use Rattle.wc_model.specs.Flow.Systems.{counts_some, fact_limits, stated_limit};
ghost use Rattle.wc_system.specs.declared.terms.Visit.{Visit};
ghost use Rattle.wc_system.specs.Inner.Contexts.{AreContexts};
ghost use Rattle.wc_system.specs.Inner.Terms.{some_factor, visit_factors, visit_pairs};

use crate::terms::{Visit, constant_of, times_at, visits_of};
use std::alloc::{AllocError, Global};
use wc_model::{Context, Fact, Graph, Node, SystemLimit, Table, Term};

/// The limits that the facts state, in their order.
pub fn limits_of(
    alloc: Global,
    graph: &Graph,
    facts: &[(u64, Fact)],
) -> Result<Vec<SystemLimit>, AllocError>
    requires parents { AreContexts graph.now.contexts }
    requires placed { All (λ n. n.context < length graph.now.contexts) graph.now.nodes }
    requires few { length graph.now.nodes < 2 ^ 32 }
    ensures { IfOk result (λ v. v.items ≡ flat_map (λ f. fact_limits graph.now f.1) facts.now) }
{
    let mut limits = Vec::new(alloc);
    for fact in facts {
        add_limit(alloc, graph, &fact.1, &mut limits)?;
    }
    Ok(limits)
}

/// How many limits the facts state.
pub fn limit_count(facts: &[(u64, Fact)]) -> usize
    ensures { (graph : Graph) → result ≡ length (flat_map (λ f. fact_limits graph f.1) facts.now) }
{
    let mut count = 0;
    for fact in facts {
        count += one_limit(&fact.1);
    }
    count
}

fn one_limit(fact: &Fact) -> usize
    ensures few { result ≤ 1 }
    ensures one { (graph : Graph) → result ≡ length (fact_limits graph fact.now) }
{
    match fact {
        Fact::Limit { .. } => 1,
        _ => 0,
    }
}

fn add_limit(
    alloc: Global,
    graph: &Graph,
    fact: &Fact,
    limits: &mut Vec<SystemLimit>,
) -> Result<(), AllocError>
    requires parents { AreContexts graph.now.contexts }
    requires placed { All (λ n. n.context < length graph.now.contexts) graph.now.nodes }
    requires few { length graph.now.nodes < 2 ^ 32 }
    ensures { OnOk result (limits.new.items ≡ limits.old.items ++ fact_limits graph.now fact.now) }
{
    if let Fact::Limit { left, right } = fact {
        limits.push(limit_of(alloc, graph, left.items(), right.items())?)?;
    }
    Ok(())
}

fn limit_of(
    alloc: Global,
    graph: &Graph,
    left: &[Term],
    right: &[Term],
) -> Result<SystemLimit, AllocError>
    requires parents { AreContexts graph.now.contexts }
    requires placed { All (λ n. n.context < length graph.now.contexts) graph.now.nodes }
    requires few { length graph.now.nodes < 2 ^ 32 }
    ensures { IfOk result (λ l. l ≡ stated_limit graph.now left.now right.now) }
{
    let plus = visits_of(alloc, left)?;
    let minus = visits_of(alloc, right)?;
    let factors = factors_of(
        alloc,
        graph.nodes.items(),
        graph.contexts.items(),
        plus.as_slice(),
        minus.as_slice(),
    )?;
    Ok(SystemLimit {
        constant: difference(constant_of(right), constant_of(left)),
        factors: Table::new(factors),
    })
}

// the nodes in order, without those of factor 0
fn factors_of(
    alloc: Global,
    nodes: &[Node],
    contexts: &[Context],
    plus: &[Visit],
    minus: &[Visit],
) -> Result<Vec<(u32, i128)>, AllocError>
    requires plus { IsNonDecreasingBy (λ (t : Visit). t.at) plus.now }
    requires minus { IsNonDecreasingBy (λ (t : Visit). t.at) minus.now }
    requires parents { AreContexts contexts.now }
    requires placed { All (λ n. n.context < length contexts.now) nodes.now }
    requires few { length nodes.now < 2 ^ 32 }
    ensures { IfOk result (λ v. v.items ≡ visit_factors contexts.now plus.now minus.now nodes.now) }
{
    let mut factors = Vec::new(alloc);
    for place in 0..nodes.len() {
        let factor = difference(
            times_at(plus, contexts, &nodes[place]),
            times_at(minus, contexts, &nodes[place]),
        );
        add_factor(&mut factors, place as u32, factor)?;
    }
    Ok(factors)
}

fn difference(plus: u128, minus: u128) -> i128
    requires plus { plus < 2 ^ 96 }
    requires minus { minus < 2 ^ 96 }
    ensures { result ≡ pos plus -ℤ pos minus }
{
    plus as i128 - minus as i128
}

fn add_factor(factors: &mut Vec<(u32, i128)>, node: u32, factor: i128) -> Result<(), AllocError>
    ensures { OnOk result (factors.new.items ≡ factors.old.items ++ some_factor node factor) }
{
    if factor != 0 {
        factors.push((node, factor))?;
    }
    Ok(())
}
