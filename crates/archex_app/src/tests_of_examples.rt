// The libraries of examples/ cost what their comments say, over a shelf and a sink in memory.
use crate::Status;
use crate::tests::{SOLVE, run_on};
use crate::tests_of_requirements::AIRCRAFT;
use std::test::Fail;

pub(crate) const DATA_HALL: &[u8] = br#"type = [
  {name = "feed_a", role = "source", cost = 40, supply = 80, fail = 700},
  {name = "feed_b", role = "source", cost = 40, supply = 80, fail = 700},
  {name = "diesel", role = "source", cost = 65, supply = 100, fail = 20000},
  {name = "ups", role = "middle", max = 2, cost = 30, fail = 150},
  {name = "rack", role = "sink", max = 2, cost = 5, demand = 60},
]
link = [
  {from = "feed_a", to = "ups", cost = 3},
  {from = "feed_b", to = "ups", cost = 3},
  {from = "diesel", to = "ups", cost = 7},
  {from = "ups", to = "rack", cost = 2},
]
pattern = [
  {kind = "count", type = "rack", min = 2},
  {kind = "indegree", type = "rack", from = "ups", min = 1},
  {kind = "indegree", type = "ups", from = "diesel", min = 1},
  {kind = "exclusive", type = "ups", a = "feed_a", b = "feed_b"},
  {kind = "in_needs_out", type = "ups", from = "diesel", to = "rack"},
  {kind = "implies", a = "feed_a", b = "diesel"},
  {kind = "forbid", from = "feed_a.1", to = "ups.2"},
  {kind = "local_supply", type = "ups"},
]
require = [
  {sink = "rack.1", bound = 20000000000000},
  {sink = "rack.2", bound = 20000000000000},
]
"#;

pub(crate) const RADIO_MAST: &[u8] = br#"type = [
  {name = "generator", role = "source", max = 2, cost = 120, supply = 60, fail = 900},
  {name = "cell", role = "source", cost = 90, supply = 25, fail = 400},
  {name = "bus", role = "middle", max = 3, cost = 20, fail = 15},
  {name = "transmitter", role = "sink", cost = 30, demand = 40},
  {name = "beacon", role = "sink", cost = 10, demand = 5},
]
link = [
  {from = "generator", to = "bus", cost = 4},
  {from = "cell", to = "bus", cost = 6},
  {from = "bus", to = "transmitter", cost = 3},
  {from = "bus", to = "beacon", cost = 2},
]
pattern = [
  {kind = "count", type = "generator", min = 1},
  {kind = "count", type = "cell", min = 1, max = 1},
  {kind = "count", type = "transmitter", min = 1},
  {kind = "count", type = "beacon", min = 1},
  {kind = "indegree", type = "transmitter", from = "bus", min = 2},
  {kind = "indegree", type = "beacon", from = "bus", min = 1},
  {kind = "indegree", type = "bus", from = "generator", min = 1},
  {kind = "indegree", type = "bus", from = "cell", min = 1},
  {kind = "total_supply"},
]
"#;

pub(crate) const SENSOR_BUS: &[u8] = br#"type = [
  {name = "tracker", role = "source", max = 3, cost = 40, fail = 2000},
  {name = "gyroscope", role = "source", max = 2, cost = 70, fail = 500},
  {name = "channel", role = "middle", max = 2, cost = 12, fail = 100},
  {name = "computer", role = "sink"},
]
link = [
  {from = "tracker", to = "channel", cost = 3},
  {from = "gyroscope", to = "channel", cost = 5},
  {from = "channel", to = "computer", cost = 1},
]
require = [{sink = "computer.1", bound = 50000000000}]
"#;

pub(crate) const SUBSTATION: &[u8] = br#"type = [
  {name = "line", role = "source", max = 2, cost = 90, fail = 800},
  {name = "transformer", role = "middle", max = 2, cost = 60, fail = 300},
  {name = "busbar", role = "middle", max = 2, cost = 15, fail = 20},
  {name = "hospital", role = "sink"},
  {name = "town", role = "sink"},
]
link = [
  {from = "line", to = "transformer", cost = 2},
  {from = "transformer", to = "busbar", cost = 2},
  {from = "busbar", to = "hospital", cost = 4},
  {from = "busbar", to = "town", cost = 4},
]
require = [
  {sink = "hospital.1", bound = 10000000000000},
  {sink = "town.1", bound = 2000000000000000},
]
"#;

// Each costs what its comment says; a data hall with both UPS units, the diesel and feed B is the one
// of its cost, so its report's architecture is known to the letter.
#[test]
fn examples_cost_what_they_say(rt: HostRuntime) -> Result<(), Fail> {
    let rows: [(&[u8], &[u8]); 5] = [
        (AIRCRAFT, b"status optimal\ncost 365\n"),
        (
            DATA_HALL,
            b"status optimal
cost 203
kind,from,to
component,feed_b.1,
component,diesel.1,
component,ups.1,
component,ups.2,
component,rack.1,
component,rack.2,
edge,feed_b.1,ups.1
edge,feed_b.1,ups.2
edge,diesel.1,ups.1
edge,diesel.1,ups.2
edge,ups.1,rack.1
edge,ups.1,rack.2
edge,ups.2,rack.1
edge,ups.2,rack.2
weight rack.1 14022500000000 of 20000000000000
weight rack.2 14022500000000 of 20000000000000
branchings ",
        ),
        (RADIO_MAST, b"status optimal\ncost 318\n"),
        (SENSOR_BUS, b"status optimal\ncost 158\n"),
        (SUBSTATION, b"status optimal\ncost 350\n"),
    ];
    for (library, front) in rows {
        let (ended, printed) = run_on(rt.alloc(), SOLVE, library, &[])?;
        assert_eq!(rt; ended, Status(0));
        assert!(rt; printed.as_slice().starts_with(front));
    }
    Ok(())
}
