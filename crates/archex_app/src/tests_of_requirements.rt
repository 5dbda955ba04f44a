// Networks with bounds on what their sinks weigh, solved.
use crate::Status;
use crate::tests::{SOLVE, run_on, without_counts};
use std::alloc::{AllocError, Global};
use std::test::Fail;

// Two generators, two buses and a load.
const TWO_BUSES: &str = "type = [
  {name = \"gen\", role = \"source\", max = 2, cost = 100, fail = 1000},
  {name = \"bus\", role = \"middle\", max = 2, cost = 20, fail = 100},
  {name = \"load\", role = \"sink\"},
]
link = [
  {from = \"gen\", to = \"bus\", cost = 5},
  {from = \"bus\", to = \"load\", cost = 5},
]
";

// A sink that a source feeds directly, and another by way of two buses.
const LONG_WAY: &[u8] = b"type = [
  {name = \"a\", role = \"source\", cost = 10, fail = 200000},
  {name = \"c\", role = \"source\", cost = 1},
  {name = \"b1\", role = \"middle\", cost = 1, fail = 600000},
  {name = \"b2\", role = \"middle\", cost = 1, fail = 600000},
  {name = \"t\", role = \"sink\"},
]
link = [
  {from = \"a\", to = \"t\"}, {from = \"c\", to = \"b1\"},
  {from = \"b1\", to = \"b2\"}, {from = \"b2\", to = \"t\"},
]
require = [{sink = \"t.1\", bound = 220000000000000000}]
";

// An aircraft's power network with a left, right, auxiliary (s) and emergency (e) side.
pub(crate) const AIRCRAFT: &[u8] = b"type = [
  {name = \"lgen\", role = \"source\", cost = 100, supply = 100, fail = 100},
  {name = \"rgen\", role = \"source\", cost = 100, supply = 100, fail = 100},
  {name = \"apu\", role = \"source\", cost = 60, supply = 60, fail = 500},
  {name = \"rat\", role = \"source\", cost = 30, supply = 10, fail = 2000},
  {name = \"lac\", role = \"middle\", cost = 10, fail = 10},
  {name = \"rac\", role = \"middle\", cost = 10, fail = 10},
  {name = \"sac\", role = \"middle\", cost = 10, fail = 10},
  {name = \"eac\", role = \"middle\", cost = 10, fail = 10},
  {name = \"ltru\", role = \"middle\", cost = 20, fail = 50},
  {name = \"rtru\", role = \"middle\", cost = 20, fail = 50},
  {name = \"stru\", role = \"middle\", cost = 20, fail = 50},
  {name = \"etru\", role = \"middle\", cost = 20, fail = 50},
  {name = \"ldc\", role = \"middle\", cost = 10, fail = 10},
  {name = \"rdc\", role = \"middle\", cost = 10, fail = 10},
  {name = \"sdc\", role = \"middle\", cost = 10, fail = 10},
  {name = \"edc\", role = \"middle\", cost = 10, fail = 10},
  {name = \"flight\", role = \"sink\", demand = 30},
  {name = \"avionics\", role = \"sink\", demand = 30},
  {name = \"cabin\", role = \"sink\", demand = 30},
]
link = [
  {from = \"lgen\", to = \"lac\", cost = 1}, {from = \"rgen\", to = \"rac\", cost = 1},
  {from = \"apu\", to = \"sac\", cost = 1}, {from = \"rat\", to = \"eac\", cost = 1},
  {from = \"lac\", to = \"ltru\", cost = 1}, {from = \"rac\", to = \"rtru\", cost = 1},
  {from = \"sac\", to = \"stru\", cost = 1}, {from = \"eac\", to = \"etru\", cost = 1},
  {from = \"ltru\", to = \"ldc\", cost = 1}, {from = \"rtru\", to = \"rdc\", cost = 1},
  {from = \"stru\", to = \"sdc\", cost = 1}, {from = \"etru\", to = \"edc\", cost = 1},
  {from = \"ldc\", to = \"flight\", cost = 1}, {from = \"rdc\", to = \"flight\", cost = 1},
  {from = \"sdc\", to = \"flight\", cost = 1}, {from = \"edc\", to = \"flight\", cost = 1},
  {from = \"ldc\", to = \"avionics\", cost = 1}, {from = \"rdc\", to = \"avionics\", cost = 1},
  {from = \"ldc\", to = \"cabin\", cost = 1}, {from = \"sdc\", to = \"cabin\", cost = 1},
]
pattern = [
  {kind = \"indegree\", type = \"lac\", from = \"lgen\", min = 1},
  {kind = \"indegree\", type = \"rac\", from = \"rgen\", min = 1},
  {kind = \"indegree\", type = \"sac\", from = \"apu\", min = 1},
  {kind = \"indegree\", type = \"eac\", from = \"rat\", min = 1},
  {kind = \"indegree\", type = \"ltru\", from = \"lac\", min = 1},
  {kind = \"indegree\", type = \"rtru\", from = \"rac\", min = 1},
  {kind = \"indegree\", type = \"stru\", from = \"sac\", min = 1},
  {kind = \"indegree\", type = \"etru\", from = \"eac\", min = 1},
  {kind = \"indegree\", type = \"ldc\", from = \"ltru\", min = 1},
  {kind = \"indegree\", type = \"rdc\", from = \"rtru\", min = 1},
  {kind = \"indegree\", type = \"sdc\", from = \"stru\", min = 1},
  {kind = \"indegree\", type = \"edc\", from = \"etru\", min = 1},
  {kind = \"total_supply\"},
]
require = [
  {sink = \"flight.1\", bound = 100000000},
  {sink = \"avionics.1\", bound = 50000000000000},
  {sink = \"cabin.1\", bound = 1000000000000000},
]
";

// So many sources of 1 ppm, all of which feed a sink.
const FOUR_SOURCES: &[u8] = b"type = [
  {name = \"s\", role = \"source\", max = 4, fail = 1},
  {name = \"t\", role = \"sink\"},
]
link = [{from = \"s\", to = \"t\"}]
pattern = [{kind = \"indegree\", type = \"t\", from = \"s\", min = 4}]
require = [{sink = \"t.1\", bound = 1}]
";

const THREE_SOURCES: &[u8] = b"type = [
  {name = \"s\", role = \"source\", max = 3, fail = 1},
  {name = \"t\", role = \"sink\"},
]
link = [{from = \"s\", to = \"t\"}]
pattern = [{kind = \"indegree\", type = \"t\", from = \"s\", min = 3}]
require = [{sink = \"t.1\", bound = 1}]
";

// As many branchings as are enough for the two buses: 2 to their number of components and edges.
const ENOUGH: &[&str] = &["solve", "x.toml", "x.log", "2048", "1", "0"];

// The two buses, with the requirements of a file.
fn two_buses(alloc: Global, requirements: &str) -> Result<String, AllocError> {
    let mut text = TWO_BUSES.to_string(alloc)?;
    write!(text, "require = [{requirements}]\n")?;
    Ok(text)
}

// The two buses, with this bound on the weight of the load.
pub(crate) fn bounded_buses(alloc: Global, bound: &str) -> Result<String, AllocError> {
    let mut text = TWO_BUSES.to_string(alloc)?;
    write!(text, "require = [{{sink = \"load.1\", bound = {bound}}}]\n")?;
    Ok(text)
}

// The two buses under a bound, with the first lines and the last that are due: one chain of which
// equality is admitted; one whose sum alone is above the bound; one of which the generator alone is;
// of which the bus alone is; of which three members are by their sum; bounds that nothing is within;
// and one that admits a load that nothing feeds. A load that is named twice has two bounds.
#[test]
fn bounds_on_weights_are_kept(rt: HostRuntime) -> Result<(), Fail> {
    let alloc = rt.alloc();
    let cases: [(&str, &str, &str); 9] = [
        (
            "{sink = \"load.1\", bound = 1100000000000000}",
            "status optimal\ncost 130\n",
            "\nweight load.1 1100000000000000 of 1100000000000000\n",
        ),
        (
            "{sink = \"load.1\", bound = 1099999999999999}",
            "status optimal\ncost 160\n",
            "\nweight load.1 1000010000000000 of 1099999999999999\n",
        ),
        (
            "{sink = \"load.1\", bound = 500000000000000}",
            "status optimal\ncost 235\n",
            "\nweight load.1 101000000000000 of 500000000000000\n",
        ),
        (
            "{sink = \"load.1\", bound = 50000000000000}",
            "status optimal\ncost 260\n",
            "\nweight load.1 1210000000000 of 50000000000000\n",
        ),
        (
            "{sink = \"load.1\", bound = 1100000000000}",
            "status optimal\ncost 270\n",
            "\nweight load.1 1010000000000 of 1100000000000\n",
        ),
        (
            "{sink = \"load.1\", bound = 1000000000000}",
            "status infeasible\n",
            "",
        ),
        (
            "{sink = \"load.1\", bound = 900000000000}",
            "status infeasible\n",
            "",
        ),
        (
            "{sink = \"load.1\", bound = 1000000000000000000}",
            "status optimal\ncost 0\nkind,from,to\ncomponent,load.1,\n",
            "component,load.1,\nweight load.1 1000000000000000000 of 1000000000000000000\n",
        ),
        (
            "{sink = \"load.1\", bound = 1100000000000000}, {sink = \"load.1\", bound = 500000000000000}",
            "status optimal\ncost 235\n",
            "\nweight load.1 101000000000000 of 1100000000000000\nweight load.1 101000000000000 of 500000000000000\n",
        ),
    ];
    for (requirements, front, end) in cases {
        let library = two_buses(alloc, requirements)?;
        let (ended, printed) = run_on(alloc, ENOUGH, library.as_bytes(), &[])?;
        let due = if front.starts_with("status optimal") {
            Status(0)
        } else {
            Status(1)
        };
        assert_eq!(rt; ended, due);
        assert!(rt; printed.as_slice().starts_with(front.as_bytes()));
        assert!(rt; without_counts(printed.as_slice()).ends_with(end.as_bytes()));
    }
    Ok(())
}

// A bound that all is within lets a load stand alone that nothing feeds, and asks for no cut.
#[test]
fn the_greatest_bound_needs_no_cut(rt: HostRuntime) -> Result<(), Fail> {
    let library = two_buses(
        rt.alloc(),
        "{sink = \"load.1\", bound = 1000000000000000000}",
    )?;
    let (ended, printed) = run_on(rt.alloc(), SOLVE, library.as_bytes(), &[])?;
    let report = printed.as_slice();
    assert_eq!(rt; ended, Status(0));
    assert!(rt;
        report.starts_with(
            b"status optimal\ncost 0\nkind,from,to\ncomponent,load.1,
weight load.1 1000000000000000000 of 1000000000000000000\n"
        )
    );
    assert!(rt; report.ends_with(b"\ncuts 0\n"));
    Ok(())
}

// With no branching to make, the root of the search is parked at once, and no best is found.
#[test]
fn no_branching_finds_nothing(rt: HostRuntime) -> Result<(), Fail> {
    let library = two_buses(rt.alloc(), "{sink = \"load.1\", bound = 1100000000000000}")?;
    let words = &["solve", "x.toml", "x.log", "0", "1", "0"];
    let (ended, printed) = run_on(rt.alloc(), words, library.as_bytes(), &[])?;
    assert_eq!(rt; ended, Status(2));
    let none = b"status nodelimit\nincumbent none\nbranchings 0\ncuts 0\n";
    assert_eq!(rt; printed.as_slice(), none.as_slice());
    Ok(())
}

// A weight may grow with edges; products are rounded up, so three sources weigh as much as four; and
// the aircraft, whose flight controls need left, right and emergency side.
#[test]
fn networks_with_bounds_are_solved(rt: HostRuntime) -> Result<(), Fail> {
    let alloc = rt.alloc();
    let cases: [(&[u8], &[u8], &[u8]); 4] = [
        (
            LONG_WAY,
            b"status optimal\ncost 10\nkind,from,to\ncomponent,a.1,\ncomponent,t.1,\nedge,a.1,t.1\n",
            b"edge,a.1,t.1\nweight t.1 200000000000000000 of 220000000000000000\n",
        ),
        (
            FOUR_SOURCES,
            b"status optimal\ncost 0\n",
            b"edge,s.4,t.1\nweight t.1 1 of 1\n",
        ),
        (
            THREE_SOURCES,
            b"status optimal\ncost 0\n",
            b"edge,s.3,t.1\nweight t.1 1 of 1\n",
        ),
        (
            AIRCRAFT,
            b"status optimal\ncost 365\nkind,from,to\ncomponent,lgen.1,\ncomponent,rgen.1,\ncomponent,rat.1,\n",
            b"edge,ldc.1,cabin.1
weight flight.1 59823000 of 100000000
weight avionics.1 28900000000 of 50000000000000
weight cabin.1 170000000000000 of 1000000000000000
",
        ),
    ];
    for (library, front, end) in cases {
        let (ended, printed) = run_on(alloc, SOLVE, library, &[])?;
        assert_eq!(rt; ended, Status(0));
        assert!(rt; printed.as_slice().starts_with(front));
        assert!(rt; without_counts(printed.as_slice()).ends_with(end));
    }
    Ok(())
}
