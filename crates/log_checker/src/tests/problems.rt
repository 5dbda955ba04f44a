// Problems of small libraries.
ghost use Rattle.arch_model.specs.Name.{IsTypeName};

use arch_model::{
    CompId, Library, LinkRow, Memory, Name, Pattern, Requirement, Role, TypeRow, is_library,
};
use binary_program::problem_of;
use rows::Problem;
use std::process::Abort;
use template::{expand, has_few_components};

// The problem of a library.
fn problem(
    rt: &(impl Abort + AllocGlobal),
    types: &[TypeRow],
    links: &[LinkRow],
    patterns: &[Pattern],
    requirements: &[Requirement],
) -> Result<Problem, Memory> {
    let alloc = rt.alloc();
    let types = types.to_vec(alloc)?;
    let links = links.to_vec(alloc)?;
    assert!(rt; types.len() <= 64);
    assert!(rt; has_few_components(&types));
    let template = expand(alloc, &types, &links)?;
    let patterns = patterns.to_vec(alloc)?;
    let requirements = requirements.to_vec(alloc)?;
    assert!(rt; is_library(&types, &links, &template, &patterns, &requirements));
    problem_of(
        alloc,
        Library::new(types, links, template, patterns, requirements),
    )
}

// A type that fails this often, in parts per million.
fn row(name: &str, role: Role, max: u32, cost: u64, fail: u32) -> TypeRow
    requires { IsTypeName name.now }
{
    TypeRow {
        name: Name::new(name),
        role,
        max,
        cost,
        supply: 0,
        demand: 0,
        fail,
    }
}

// Some of these many instances of one type, each of this cost, of which one at least is present.
// Components are variables 0 and so on; row 0 asks for one.
pub(crate) fn one_of(
    rt: &(impl Abort + AllocGlobal),
    role: Role,
    max: u32,
    cost: u64,
) -> Result<Problem, Memory> {
    let patterns = [Pattern::Count {
        of: 0,
        min: 1,
        max: None,
    }];
    problem(rt, &[row("p", role, max, cost, 0)], &[], &patterns, &[])
}

// A source of cost 1 that fails with 1000 ppm, and a sink that it is linked to, whose weight is
// bounded. Variables are s.1, t.1 and their edge; rows 0 and 1 ask for the edge's ends, row 2 for
// the sink.
pub(crate) fn one_way(rt: &(impl Abort + AllocGlobal), bound: u64) -> Result<Problem, Memory> {
    let types = [
        row("s", Role::Source, 1, 1, 1000),
        row("t", Role::Sink, 1, 0, 0),
    ];
    let links = [LinkRow {
        from: 0,
        to: 1,
        cost: 0,
        fail: 0,
    }];
    let requirements = [Requirement {
        sink: CompId(1),
        bound,
    }];
    problem(rt, &types, &links, &[], &requirements)
}
