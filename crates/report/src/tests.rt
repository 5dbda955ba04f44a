// Texts of small networks, byte by byte.
ghost use Rattle.arch_model.specs.Name.{IsTypeName};

use crate::{
    component_line, cuts_text, edge_line, generated_text, row_line, rows_text, set_line, sets_end,
    solve_text, template_text, weigh_text,
};
use arch_model::{
    Architecture, CompId, CompSet, EdgeId, EdgeSet, Library, LinkRow, Name, Pattern, Requirement,
    Role, TypeRow, VarId, fits, is_library,
};
use binary_program::problem_of;
use incumbent::Best;
use search_core::Answer;
use sink_weight::weight;
use std::process::Abort;
use std::test::Fail;
use template::{expand, has_few_components};

// A type of at most `max` instances, each of which costs `cost` and fails `fail` times in a million.
fn row(name: &str, role: Role, max: u32, cost: u64, fail: u32) -> TypeRow
    requires { IsTypeName name.now }
{
    TypeRow {
        name: Name::new(name),
        role,
        max,
        cost,
        supply: 0,
        demand: 0,
        fail,
    }
}

// A link by the numbers of its types.
fn link(from: u32, to: u32, cost: u64) -> LinkRow {
    LinkRow {
        from,
        to,
        cost,
        fail: 0,
    }
}

// The library of some types and links, with patterns and requirements.
fn library(
    rt: &(impl Abort + AllocGlobal),
    types: &[TypeRow],
    links: &[LinkRow],
    patterns: &[Pattern],
    required: &[Requirement],
) -> Result<Library, Fail> {
    let alloc = rt.alloc();
    let types = types.to_vec(alloc)?;
    let links = links.to_vec(alloc)?;
    assert!(rt; types.len() <= 64);
    assert!(rt; has_few_components(&types));
    let template = expand(alloc, &types, &links)?;
    let patterns = patterns.to_vec(alloc)?;
    let requirements = required.to_vec(alloc)?;
    assert!(rt; is_library(&types, &links, &template, &patterns, &requirements));
    Ok(Library::new(types, links, template, patterns, requirements))
}

// A requirement of a component.
fn require(sink: u32, bound: u64) -> Requirement {
    Requirement {
        sink: CompId(sink),
        bound,
    }
}

// A source that costs 1 and fails, and a sink that must not: components 0 and 1, and one edge.
fn pair(rt: &(impl Abort + AllocGlobal), patterns: &[Pattern]) -> Result<Library, Fail> {
    let types = [
        row("s", Role::Source, 1, 1, 1000),
        row("t", Role::Sink, 1, 0, 0),
    ];
    library(rt, &types, &[link(0, 1, 0)], patterns, &[require(1, 0)])
}

// Two generators, two buses and a load, with some links. Components 0 to 4 are gen.1, gen.2, bus.1,
// bus.2 and load.1.
fn linked(rt: &(impl Abort + AllocGlobal), links: &[LinkRow], bound: u64) -> Result<Library, Fail> {
    let types = [
        row("gen", Role::Source, 2, 100, 1000),
        row("bus", Role::Middle, 2, 20, 100),
        row("load", Role::Sink, 1, 0, 0),
    ];
    library(rt, &types, links, &[], &[require(4, bound)])
}

// Edges 0 to 3 are from gen.1 to each bus and from gen.2 to each bus, edges 4 and 5 from each bus to
// the load.
fn buses(rt: &(impl Abort + AllocGlobal), bound: u64) -> Result<Library, Fail> {
    linked(rt, &[link(0, 1, 5), link(1, 2, 5)], bound)
}

// The same, with edges 6 and 7 from bus.1 to bus.2 and back.
fn joined_buses(rt: &(impl Abort + AllocGlobal), bound: u64) -> Result<Library, Fail> {
    linked(rt, &[link(0, 1, 5), link(1, 2, 5), link(1, 1, 5)], bound)
}

// A source s, component 0, that feeds the sinks t.1 and t.2, and a bound for each, that of t.2 first.
fn two_sinks(rt: &(impl Abort + AllocGlobal)) -> Result<Library, Fail> {
    let types = [
        row("s", Role::Source, 1, 7, 1000),
        row("t", Role::Sink, 2, 0, 0),
    ];
    let required = [require(2, 1_000_000_000_000_000), require(1, 0)];
    library(rt, &types, &[link(0, 1, 0)], &[], &required)
}

// A source a that feeds the sink t, and a source c that feeds it through b1 and b2. Components 0 to
// 4 are a, c, b1, b2 and t. Edges are a to t, c to b1, b1 to b2 and b2 to t.
fn bypass(rt: &(impl Abort + AllocGlobal)) -> Result<Library, Fail> {
    let types = [
        row("a", Role::Source, 1, 10, 200_000),
        row("c", Role::Source, 1, 1, 0),
        row("b1", Role::Middle, 1, 1, 600_000),
        row("b2", Role::Middle, 1, 1, 600_000),
        row("t", Role::Sink, 1, 0, 0),
    ];
    let links = [link(0, 4, 0), link(1, 2, 0), link(2, 3, 0), link(3, 4, 0)];
    library(
        rt,
        &types,
        &links,
        &[],
        &[require(4, 220_000_000_000_000_000)],
    )
}

// Four sources that fail once in a million, and a sink that each of them may feed.
fn rare(rt: &(impl Abort + AllocGlobal)) -> Result<Library, Fail> {
    let types = [
        row("s", Role::Source, 4, 0, 1),
        row("t", Role::Sink, 1, 0, 0),
    ];
    library(rt, &types, &[link(0, 1, 0)], &[], &[require(4, 0)])
}

// Some components and edges.
fn architecture(components: &[u32], edges: &[u32]) -> Architecture {
    let mut comps = CompSet::new();
    for c in components {
        if *c < 64 {
            comps.put(CompId(*c));
        }
    }
    let mut set = EdgeSet::new();
    for e in edges {
        if *e < 512 {
            set.put(EdgeId(*e));
        }
    }
    Architecture::new(comps, set)
}

// Whether some bytes are a text.
pub fn is(bytes: &[u8], text: &str) -> bool {
    bytes == text.as_bytes()
}

// What an architecture comes to, with the weight of the one required sink.
fn weighing(
    rt: &(impl Abort + AllocGlobal),
    lib: &Library,
    arch: &Architecture,
    sink: u32,
) -> Result<Vec<u8>, Fail> {
    assert!(rt; fits(lib, arch));
    let weights = [weight(rt.alloc(), lib, arch, CompId(sink))];
    let mut text = Vec::new(rt.alloc());
    assert!(rt; weights.len() == lib.requirements().len());
    weigh_text(lib, arch, &weights, None, &mut text)?;
    Ok(text)
}

// A bound is met also where it is reached, not one above it, and a longer chain may weigh more.
#[test]
fn a_longer_way_may_break_a_bound(rt: HostRuntime) -> Result<(), Fail> {
    let lib = bypass(&rt)?;
    let short = weighing(&rt, &lib, &architecture(&[0, 4], &[0]), 4)?;
    assert!(rt;
        is(
            &short,
            "cost 10
patterns meet
weight t.1 200000000000000000 of 220000000000000000 meets
admissible yes
"
        )
    );
    let both = architecture(&[0, 1, 2, 3, 4], &[0, 1, 2, 3]);
    let both = weighing(&rt, &lib, &both, 4)?;
    assert!(rt;
        is(
            &both,
            "cost 13
patterns meet
weight t.1 240000000000000000 of 220000000000000000 breaks
admissible no
"
        )
    );
    Ok(())
}

#[test]
fn products_are_rounded_up(rt: HostRuntime) -> Result<(), Fail> {
    let lib = rare(&rt)?;
    let four = weighing(&rt, &lib, &architecture(&[0, 1, 2, 3, 4], &[0, 1, 2, 3]), 4)?;
    assert!(rt;
        is(
            &four,
            "cost 0
patterns meet
weight t.1 1 of 0 breaks
admissible no
"
        )
    );
    let three = weighing(&rt, &lib, &architecture(&[0, 1, 2, 4], &[0, 1, 2]), 4)?;
    assert!(rt; three.as_slice() == four.as_slice());
    Ok(())
}

#[test]
fn a_round_of_buses_weighs_as_a_chain(rt: HostRuntime) -> Result<(), Fail> {
    let lib = joined_buses(&rt, 1_000_000_000_000_000_000)?;
    let text = weighing(&rt, &lib, &architecture(&[0, 2, 3, 4], &[0, 5, 6, 7]), 4)?;
    assert!(rt;
        is(
            &text,
            "cost 160
patterns meet
weight load.1 1200000000000000 of 1000000000000000000 meets
admissible yes
"
        )
    );
    Ok(())
}

#[test]
fn requirements_are_judged_in_order(rt: HostRuntime) -> Result<(), Fail> {
    let lib = two_sinks(&rt)?;
    let all = architecture(&[0, 1, 2], &[0, 1]);
    assert!(rt; fits(&lib, &all));
    assert!(rt; lib.requirements().len() == 2);
    let weights = [1_000_000_000_000_000, 1];
    let mut text = Vec::new(rt.alloc());
    weigh_text(&lib, &all, &weights, None, &mut text)?;
    assert!(rt;
        is(
            &text,
            "cost 7
patterns meet
weight t.2 1000000000000000 of 1000000000000000 meets
weight t.1 1 of 0 breaks
admissible no
"
        )
    );
    Ok(())
}

#[test]
fn weights_are_reported_in_order(rt: HostRuntime) -> Result<(), Fail> {
    let lib = two_sinks(&rt)?;
    let best = Best {
        cost: 7,
        architecture: architecture(&[0, 1, 2], &[0, 1]),
    };
    assert!(rt; fits(&lib, &best.architecture));
    assert!(rt; lib.requirements().len() == 2);
    let answer = Answer::NodeLimit { incumbent: Some(7) };
    let mut text = Vec::new(rt.alloc());
    solve_text(&lib, &answer, Some(best), &[3, 5], 4, 6, &mut text)?;
    assert!(rt;
        is(
            &text,
            "status nodelimit
cost 7
kind,from,to
component,s.1,
component,t.1,
component,t.2,
edge,s.1,t.1
edge,s.1,t.2
weight t.2 3 of 1000000000000000
weight t.1 5 of 0
branchings 4
cuts 6
"
        )
    );
    Ok(())
}

#[test]
fn a_sink_may_be_absent(rt: HostRuntime) -> Result<(), Fail> {
    let text = weighing(&rt, &pair(&rt, &[])?, &architecture(&[], &[]), 1)?;
    assert!(rt;
        is(
            &text,
            "cost 0
patterns meet
sink t.1 absent
admissible no
"
        )
    );
    Ok(())
}

// Of some source at least `min` instances.
fn at_least(min: u32) -> Pattern {
    Pattern::Count {
        of: 0,
        min,
        max: None,
    }
}

#[test]
fn the_first_broken_pattern_is_counted_from_1(rt: HostRuntime) -> Result<(), Fail> {
    let lib = pair(&rt, &[at_least(0), at_least(1)])?;
    let empty = architecture(&[], &[]);
    let mut text = Vec::new(rt.alloc());
    assert!(rt; fits(&lib, &empty));
    assert!(rt; lib.requirements().len() == 1);
    assert!(rt; lib.patterns().len() == 2);
    weigh_text(&lib, &empty, &[0], Some(1), &mut text)?;
    assert!(rt;
        is(
            &text,
            "cost 0\npattern 2 broken\nsink t.1 absent\nadmissible no\n"
        )
    );
    Ok(())
}

#[test]
fn templates_are_numbered(rt: HostRuntime) -> Result<(), Fail> {
    let mut text = Vec::new(rt.alloc());
    template_text(&pair(&rt, &[])?, &mut text)?;
    assert!(rt;
        is(
            &text,
            "component 0 s.1 source 1 0 0 1000
component 1 t.1 sink 0 0 0 0
edge 2 s.1 t.1 0
"
        )
    );
    Ok(())
}

#[test]
fn rows_have_signs(rt: HostRuntime) -> Result<(), Fail> {
    let mut text = Vec::new(rt.alloc());
    let problem = problem_of(rt.alloc(), pair(&rt, &[])?)?;
    rows_text(&problem, &mut text)?;
    assert!(rt;
        is(
            &text,
            "b0 +1*0 -1*2 >= 0
b1 +1*1 -1*2 >= 0
b2 +1*1 >= 1
"
        )
    );
    Ok(())
}

#[test]
fn lines_are_offered_alone(rt: HostRuntime) -> Result<(), Fail> {
    let lib = pair(&rt, &[])?;
    assert!(rt; lib.components().len() == 2);
    assert!(rt; lib.edges().len() == 1);
    let mut text = Vec::new(rt.alloc());
    edge_line(&lib, EdgeId(0), &mut text)?;
    component_line(&lib, CompId(1), &mut text)?;
    set_line(&lib, &[VarId(0), VarId(2)], &mut text)?;
    sets_end(4, 1_210_000_000_000, &mut text)?;
    assert!(rt;
        is(
            &text,
            "edge 2 s.1 t.1 0
component 1 t.1 sink 0 0 0 0
0 s.1 s.1-t.1
sets 4
sum 1210000000000
"
        )
    );
    Ok(())
}

#[test]
fn a_row_has_its_number(rt: HostRuntime) -> Result<(), Fail> {
    let mut text = Vec::new(rt.alloc());
    let problem = problem_of(rt.alloc(), pair(&rt, &[])?)?;
    assert!(rt; !problem.base().is_empty());
    row_line(7, &problem.base()[0], &mut text)?;
    assert!(rt; is(&text, "b7 +1*0 -1*2 >= 0\n"));
    Ok(())
}

#[test]
fn generated_libraries_are_summed_up(rt: HostRuntime) -> Result<(), Fail> {
    let lib = pair(&rt, &[])?;
    let mut text = Vec::new(rt.alloc());
    for answer in &[
        Answer::Optimal { cost: 375 },
        Answer::Infeasible,
        Answer::NodeLimit { incumbent: Some(1) },
    ] {
        generated_text(&lib, answer, &mut text)?;
    }
    assert!(rt;
        is(
            &text,
            "components 2
edges 1
status optimal
cost 375
components 2
edges 1
status infeasible
components 2
edges 1
status nodelimit
"
        )
    );
    Ok(())
}

// The lines of the minimal cut sets of a sink.
fn cuts(
    rt: &(impl Abort + AllocGlobal),
    lib: &Library,
    arch: &Architecture,
    sink: u32,
) -> Result<Vec<u8>, Fail> {
    assert!(rt; fits(lib, arch));
    let mut text = Vec::new(rt.alloc());
    cuts_text(lib, arch, CompId(sink), &mut text)?;
    Ok(text)
}

#[test]
fn cut_sets_are_listed(rt: HostRuntime) -> Result<(), Fail> {
    let lib = buses(&rt, 50_000_000_000_000)?;
    let text = cuts(&rt, &lib, &architecture(&[0, 1, 2, 3, 4], &[0, 3, 4, 5]), 4)?;
    assert!(rt;
        is(
            &text,
            "1000000000000 gen.1 gen.2
100000000000 gen.1 bus.2
100000000000 gen.2 bus.1
10000000000 bus.1 bus.2
sets 4
sum 1210000000000
"
        )
    );
    let text = cuts(&rt, &lib, &architecture(&[4], &[]), 4)?;
    assert!(rt;
        is(
            &text,
            "1000000000000000000\nsets 1\nsum 1000000000000000000\n"
        )
    );
    Ok(())
}

// The report of an answer, with the best of its search and what its required sink weighs.
fn report(
    rt: &(impl Abort + AllocGlobal),
    lib: &Library,
    answer: &Answer,
    best: Option<Best>,
) -> Result<Vec<u8>, Fail> {
    let mut text = Vec::new(rt.alloc());
    match best {
        Some(found) => {
            assert!(rt; fits(lib, &found.architecture));
            let weights = [weight(rt.alloc(), lib, &found.architecture, CompId(4))];
            assert!(rt; weights.len() == lib.requirements().len());
            solve_text(lib, answer, Some(found), &weights, 3, 0, &mut text)?;
        }
        None => solve_text(lib, answer, None, &[], 0, 0, &mut text)?,
    }
    Ok(text)
}

#[test]
fn answers_are_reported(rt: HostRuntime) -> Result<(), Fail> {
    let lib = buses(&rt, 1_000_000_000_000_000_000)?;
    let best = Best {
        cost: 0,
        architecture: architecture(&[4], &[]),
    };
    let text = report(&rt, &lib, &Answer::Optimal { cost: 0 }, Some(best))?;
    assert!(rt;
        is(
            &text,
            "status optimal
cost 0
kind,from,to
component,load.1,
weight load.1 1000000000000000000 of 1000000000000000000
branchings 3
cuts 0
"
        )
    );
    let text = report(&rt, &lib, &Answer::NodeLimit { incumbent: None }, None)?;
    assert!(rt;
        is(
            &text,
            "status nodelimit\nincumbent none\nbranchings 0\ncuts 0\n"
        )
    );
    let text = report(&rt, &lib, &Answer::Infeasible, None)?;
    assert!(rt; is(&text, "status infeasible\nbranchings 0\ncuts 0\n"));
    Ok(())
}
