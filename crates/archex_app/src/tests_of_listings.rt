//! What no clause says of `weigh`, `cuts`, `template` and `rows`: their printed texts, over files in
//! memory.
use crate::Status;
use crate::tests_of_probability::{B, CHAIN, run_on};
use std::test::Fail;

// A source, a sink that must be fed without fail, and the link between them.
const U: &[u8] = b"type = [
  {name = \"s\", role = \"source\", cost = 1, fail = 1000},
  {name = \"t\", role = \"sink\"},
]
link = [{from = \"s\", to = \"t\"}]
require = [{sink = \"t.1\", bound = 0}]
";

// A source that fails often, and a way round it over two that fail more often yet.
const Y: &[u8] = b"type = [
  {name = \"a\", role = \"source\", cost = 10, fail = 200000},
  {name = \"c\", role = \"source\", cost = 1},
  {name = \"b1\", role = \"middle\", cost = 1, fail = 600000},
  {name = \"b2\", role = \"middle\", cost = 1, fail = 600000},
  {name = \"t\", role = \"sink\"},
]
link = [
  {from = \"a\", to = \"t\"}, {from = \"c\", to = \"b1\"},
  {from = \"b1\", to = \"b2\"}, {from = \"b2\", to = \"t\"},
]
require = [{sink = \"t.1\", bound = 220000000000000000}]
";

// Two generators, two buses that may feed each other, and a load.
const RING: &[u8] = b"type = [
  {name = \"gen\", role = \"source\", max = 2, cost = 100, fail = 1000},
  {name = \"bus\", role = \"middle\", max = 2, cost = 20, fail = 100},
  {name = \"load\", role = \"sink\"},
]
link = [
  {from = \"gen\", to = \"bus\", cost = 5},
  {from = \"bus\", to = \"load\", cost = 5},
  {from = \"bus\", to = \"bus\", cost = 5},
]
require = [{sink = \"load.1\", bound = 1000000000000000000}]
";

// A source of which one is wanted, and then two.
const TWO: &[u8] = b"type = [{name = \"p\", role = \"source\", max = 2, cost = 3}]
pattern = [
  {kind = \"count\", type = \"p\", min = 1},
  {kind = \"count\", type = \"p\", min = 2},
]
";

// Two separate chains of B.
const CHAINS: &[u8] = b"kind,from,to
component,gen.1,
component,gen.2,
component,bus.1,
component,bus.2,
component,load.1,
edge,gen.1,bus.1
edge,gen.2,bus.2
edge,bus.1,load.1
edge,bus.2,load.1
";

const NOTHING: &[u8] = b"kind,from,to\n";

// What architectures come to: one without the sink that must be there; one whose sink is just fed
// well enough, and one with a way more that is worse, since each set with both ways counts; one in
// which two buses feed each other; and two that break the first pattern or the second.
#[test]
fn architectures_are_weighed(rt: HostRuntime) -> Result<(), Fail> {
    let direct = b"kind,from,to\ncomponent,a.1,\ncomponent,t.1,\nedge,a.1,t.1\n";
    let both_ways = b"kind,from,to
component,a.1,
component,c.1,
component,b1.1,
component,b2.1,
component,t.1,
edge,a.1,t.1
edge,c.1,b1.1
edge,b1.1,b2.1
edge,b2.1,t.1
";
    let ring = b"kind,from,to
component,gen.1,
component,bus.1,
component,bus.2,
component,load.1,
edge,gen.1,bus.1
edge,bus.1,bus.2
edge,bus.2,bus.1
edge,bus.2,load.1
";
    let one = b"kind,from,to\ncomponent,p.1,\n";
    let rows: [(&[u8], &[u8], &[u8]); 6] = [
        (
            U,
            NOTHING,
            b"cost 0\npatterns meet\nsink t.1 absent\nadmissible no\n",
        ),
        (
            Y,
            direct,
            b"cost 10\npatterns meet
weight t.1 200000000000000000 of 220000000000000000 meets\nadmissible yes\n",
        ),
        (
            Y,
            both_ways,
            b"cost 13\npatterns meet
weight t.1 240000000000000000 of 220000000000000000 breaks\nadmissible no\n",
        ),
        (
            RING,
            ring,
            b"cost 160\npatterns meet
weight load.1 1200000000000000 of 1000000000000000000 meets\nadmissible yes\n",
        ),
        (TWO, NOTHING, b"cost 0\npattern 1 broken\nadmissible no\n"),
        (TWO, one, b"cost 3\npattern 2 broken\nadmissible no\n"),
    ];
    for (library, architecture, text) in rows {
        let (ended, printed) = run_on(rt.alloc(), &["weigh", "l", "a"], library, architecture, 9)?;
        assert_eq!(rt; ended, Status(0));
        assert_eq!(rt; printed.as_slice(), text);
    }
    Ok(())
}

// The cut sets of two separate chains, of one chain, and of a sink without a path and one that isn't
// there, which nothing has to fail to part from the sources: the empty set has its product alone.
#[test]
fn cut_sets_are_listed(rt: HostRuntime) -> Result<(), Fail> {
    let apart: &[u8] = b"1000000000000000000\nsets 1\nsum 1000000000000000000\n";
    let rows: [(&[u8], &[u8]); 4] = [
        (
            CHAINS,
            b"1000000000000 gen.1 gen.2
100000000000 gen.1 bus.2
100000000000 gen.2 bus.1
10000000000 bus.1 bus.2
sets 4
sum 1210000000000
",
        ),
        (
            CHAIN,
            b"1000000000000000 gen.1\n100000000000000 bus.1\nsets 2\nsum 1100000000000000\n",
        ),
        (b"kind,from,to\ncomponent,load.1,\n", apart),
        (b"kind,from,to\ncomponent,gen.1,\n", apart),
    ];
    for (architecture, text) in rows {
        let words = &["cuts", "l", "a", "load.1"];
        let (ended, printed) = run_on(rt.alloc(), words, B, architecture, 9)?;
        assert_eq!(rt; ended, Status(0));
        assert_eq!(rt; printed.as_slice(), text);
    }
    Ok(())
}

// The template and the rows of a library, and those of one without a component.
#[test]
fn templates_and_rows_are_listed(rt: HostRuntime) -> Result<(), Fail> {
    let rows: [(&str, &[u8], &[u8]); 4] = [
        (
            "template",
            U,
            b"component 0 s.1 source 1 0 0 1000
component 1 t.1 sink 0 0 0 0
edge 2 s.1 t.1 0
",
        ),
        (
            "rows",
            U,
            b"b0 +1*0 -1*2 >= 0\nb1 +1*1 -1*2 >= 0\nb2 +1*1 >= 1\n",
        ),
        ("template", b"", b""),
        ("rows", b"", b""),
    ];
    for (command, library, text) in rows {
        let (ended, printed) = run_on(rt.alloc(), &[command, "l"], library, b"", 9)?;
        assert_eq!(rt; ended, Status(0));
        assert_eq!(rt; printed.as_slice(), text);
    }
    Ok(())
}

// The first cause is printed: the words, the library, the architecture, the sink.
#[test]
fn what_is_wrong_is_printed(rt: HostRuntime) -> Result<(), Fail> {
    let fault = b"refused library L3 UnknownKey library 0 zz\n";
    let bad: &[u8] = b"zz = 1";
    let header: &[u8] = b"kind,from\n";
    let rows: [(&[&str], &[u8], &[u8], u8, &[u8]); 25] = [
        (&["weigh", "l", "a"], bad, header, 3, fault),
        (&["cuts", "l", "a", "bus.1"], bad, header, 3, fault),
        (&["template", "l"], bad, b"", 3, fault),
        (&["rows", "l"], bad, b"", 3, fault),
        (
            &["weigh", "l", "a"],
            B,
            header,
            9,
            b"refused architecture 1 Fields\n",
        ),
        (
            &["cuts", "l", "a", "bus.1"],
            B,
            header,
            9,
            b"refused architecture 1 Fields\n",
        ),
        (
            &["cuts", "l", "a", "bus.1"],
            B,
            CHAIN,
            4,
            b"refused words 4\n",
        ),
        (&["weigh"], B, CHAIN, 4, b"refused words 2\n"),
        (&["weigh", ""], B, CHAIN, 4, b"refused words 3\n"),
        (&["weigh", "l", "a", ""], B, CHAIN, 4, b"refused words 4\n"),
        (&["weigh", "", ""], B, CHAIN, 4, b"refused words 2\n"),
        (&["weigh", "l", ""], B, CHAIN, 4, b"refused words 3\n"),
        (&["cuts"], B, CHAIN, 4, b"refused words 2\n"),
        (&["cuts", "l"], B, CHAIN, 4, b"refused words 3\n"),
        (&["cuts", "l", "a"], B, CHAIN, 4, b"refused words 4\n"),
        (&["cuts", "l", "a", ""], B, CHAIN, 4, b"refused words 4\n"),
        (&["cuts", "", "a", "s"], B, CHAIN, 4, b"refused words 2\n"),
        (&["cuts", "l", "", "s"], B, CHAIN, 4, b"refused words 3\n"),
        (
            &["cuts", "l", "a", "s", "x"],
            B,
            CHAIN,
            4,
            b"refused words 5\n",
        ),
        (&["template"], B, CHAIN, 4, b"refused words 2\n"),
        (&["template", ""], B, CHAIN, 4, b"refused words 2\n"),
        (&["template", "l", "a"], B, CHAIN, 4, b"refused words 3\n"),
        (&["rows"], B, CHAIN, 4, b"refused words 2\n"),
        (&["rows", "a", "b"], B, CHAIN, 4, b"refused words 3\n"),
        (&["rows", ""], B, CHAIN, 4, b"refused words 2\n"),
    ];
    for (words, library, architecture, status, text) in rows {
        let (ended, printed) = run_on(rt.alloc(), words, library, architecture, 9)?;
        assert_eq!(rt; ended, Status(status));
        assert_eq!(rt; printed.as_slice(), text);
    }
    Ok(())
}

// Each file is read in two calls, of its bytes and of its end. Whichever fails, the run ends with a
// read fault and nothing printed.
#[test]
fn each_failing_read_ends_a_listing(rt: HostRuntime) -> Result<(), Fail> {
    let rows: [(&[&str], u64); 4] = [
        (&["weigh", "l", "a"], 4),
        (&["cuts", "l", "a", "load.1"], 4),
        (&["template", "l"], 2),
        (&["rows", "l"], 2),
    ];
    for (words, calls) in rows {
        for call in 0..calls {
            let (ended, printed) = run_on(rt.alloc(), words, B, CHAIN, call)?;
            assert_eq!(rt; ended, Status(5));
            assert_eq!(rt; printed.len(), 0);
        }
    }
    Ok(())
}
