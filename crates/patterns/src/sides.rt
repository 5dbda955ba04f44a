// The two sides of a component: the edges into it, and the edges out of it.
ghost use Rattle.std.specs.Prelude.{◌≡◌, ◌≤◌, ◌^◌};
ghost use Rattle.patterns.specs.Inner.Sides as sides;

use arch_model::{CompId, Edge, Library, demand, supply};

/// A side of a component.
#[derive(Clone, Copy)]
pub(crate) enum Side {
    /// The edges into it.
    In,
    /// The edges out of it.
    Out,
}

impl Side {
    // The end of an edge that is at the component.
    pub(crate) fn near(self, edge: &Edge) -> CompId
        ensures { result ≡ sides.near self edge.now }
    {
        match self {
            Side::In => edge.head,
            Side::Out => edge.tail,
        }
    }

    // Its other end.
    pub(crate) fn far(self, edge: &Edge) -> CompId
        ensures { result ≡ sides.far self edge.now }
    {
        match self {
            Side::In => edge.tail,
            Side::Out => edge.head,
        }
    }

    // What the component at the other end counts for: its supply, or its demand.
    pub(crate) fn rating(self, lib: &Library, c: CompId) -> u64
        ensures value { result ≡ sides.rated self lib.now c.0 }
        ensures small { result ≤ 10 ^ 12 }
    {
        match self {
            Side::In => supply(lib, c),
            Side::Out => demand(lib, c),
        }
    }
}
