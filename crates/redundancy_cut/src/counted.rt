// Which members the rows of cuts count.
ghost use Rattle.std.specs.Prelude.{◌≡◌, ◌&&◌, ◌||◌, not};
ghost use Rattle.arch_model.specs.Path as path;
ghost use Rattle.arch_model.specs.Set.{has};
ghost use Rattle.redundancy_cut.specs.CutRow as row;

use arch_model::{CompId, CompSet, Edge, Library, MemberSet, VarId, is_source};

// The edge that is member v; none where v is no edge.
fn edge_of(lib: &Library, v: VarId) -> Option<Edge>
    ensures { result ≡ row.edge_of lib.now v.0 }
{
    let components = lib.components().len();
    let i = v.0 as usize;
    if i < components {
        None
    } else {
        lib.edges().get(i - components).copied()
    }
}

// Whether member v is an edge from a far component to one that is neither far nor in the set.
fn is_edge_out(lib: &Library, set: &MemberSet, far: &CompSet, v: VarId) -> bool
    ensures { result ≡ row.is_edge_where lib.now
        (λ e. has far.now e.tail.0 && not (has far.now e.head.0 || has set.now e.head.0)) v.0 }
{
    match edge_of(lib, v) {
        Some(edge) => { far.has(edge.tail) && !(far.has(edge.head) || set.has(VarId(edge.head.0))) }
        None => false,
    }
}

// Whether member v isn't in the set and leads out: a source that isn't far, or an edge from a far
// component to one that is neither far nor in the set.
pub(crate) fn leads_out(lib: &Library, set: &MemberSet, far: &CompSet, v: VarId) -> bool
    ensures { result ≡ row.leads_out lib.now set.now far.now v.0 }
{
    !set.has(v)
        && (is_source(lib, CompId(v.0)) && !far.has(CompId(v.0)) || is_edge_out(lib, set, far, v))
}

// Whether member v is an edge with its head in the cone.
fn is_edge_into(lib: &Library, cone: &CompSet, v: VarId) -> bool
    ensures { result ≡ row.is_edge_where lib.now (λ e. has cone.now e.head.0) v.0 }
{
    match edge_of(lib, v) {
        Some(edge) => cone.has(edge.head),
        None => false,
    }
}

// Whether member v is a source in the cone, or an edge with its head there.
pub(crate) fn feeds(lib: &Library, cone: &CompSet, v: VarId) -> bool
    ensures { result ≡ row.feeds lib.now cone.now v.0 }
{
    is_source(lib, CompId(v.0)) && cone.has(CompId(v.0)) || is_edge_into(lib, cone, v)
}
