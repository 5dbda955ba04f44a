// Architecture files of a small network, read and written.
ghost use Rattle.std.specs.Prelude.{◌≡◌};
ghost use Rattle.arch_model.specs.Name.{IsTypeName};

use crate::{ArchError, read_architecture, write_architecture};
use arch_model::{Library, LinkRow, Name, Role, TypeRow, is_library};
use std::alloc::Global;
use std::process::Abort;
use std::test::Fail;
use template::{expand, has_few_components};

// A type that costs, supplies and demands nothing and never fails.
fn row(name: &str, role: Role, max: u32) -> TypeRow
    requires { IsTypeName name.now }
    ensures { result
        ≡ record { name = name.now; role = role; max = max; cost = 0; supply = 0; demand = 0; fail = 0 } }
{
    TypeRow {
        name: Name::new(name),
        role,
        max,
        cost: 0,
        supply: 0,
        demand: 0,
        fail: 0,
    }
}

// A free link between two types.
fn link(from: u32, to: u32) -> LinkRow {
    LinkRow {
        from,
        to,
        cost: 0,
        fail: 0,
    }
}

// Two generators, two buses and a load: each generator may feed each bus, and each bus the load.
fn library(rt: &(impl Abort + AllocGlobal)) -> Result<Library, Fail> {
    let alloc = rt.alloc();
    let types = [
        row("gen", Role::Source, 2),
        row("bus", Role::Middle, 2),
        row("load", Role::Sink, 1),
    ];
    let types = Vec::from_array(alloc, types)?;
    let links = Vec::from_array(alloc, [link(0, 1), link(1, 2)])?;
    assert!(rt; types.len() <= 64);
    assert!(rt; has_few_components(&types));
    let template = expand(alloc, &types, &links)?;
    let (patterns, requirements) = (Vec::new(alloc), Vec::new(alloc));
    assert!(rt; is_library(&types, &links, &template, &patterns, &requirements));
    Ok(Library::new(types, links, template, patterns, requirements))
}

// What a file is: its architecture's text, or its fault's record and class.
fn reading(alloc: Global, lib: &Library, bytes: &[u8]) -> Result<String, Fail> {
    match read_architecture(alloc, lib, bytes) {
        Ok(arch) => {
            let mut text = Vec::new(alloc);
            write_architecture(lib, &arch, &mut text)?;
            match str::from_utf8(&text) {
                Ok(text) => Ok(text.to_string(alloc)?),
                Err(_) => Ok(String::from_str(alloc, "no text")?),
            }
        }
        Err(ArchError::Memory) => Ok(String::from_str(alloc, "out of memory")?),
        Err(ArchError::Fault(fault)) => {
            let (place, class) = (fault.place, fault.class);
            Ok(format!(in alloc; "{place} {class:?}")?)
        }
    }
}

#[test]
fn files_are_read(rt: HostRuntime) -> Result<(), Fail> {
    let lib = library(&rt)?;
    let chain = "kind,from,to
component,gen.1,
component,bus.2,
component,load.1,
edge,gen.1,bus.2
edge,bus.2,load.1
";
    let mixed = "kind,from,to
edge,bus.2,load.1
component,load.1,
component,bus.2,
edge,gen.1,bus.2
component,gen.1,
";
    let alone = "kind,from,to\ncomponent,gen.1,\n";
    for (file, text) in [
        ("kind,from,to\n", "kind,from,to\n"),
        (chain, chain),
        (mixed, chain),
        // the last line without an end, and lines that end in CR LF or in CR alone
        ("kind,from,to\ncomponent,gen.1,", alone),
        ("kind,from,to\r\ncomponent,gen.1,\r\n", alone),
        ("kind,from,to\rcomponent,gen.1,\r", alone),
        // a byte order mark, blank lines
        ("\u{feff}kind,from,to\ncomponent,gen.1,\n", alone),
        ("\n\nkind,from,to\n\r\n\ncomponent,gen.1,\n\n", alone),
        // quotes
        ("\"kind\",from,to\ncomponent,\"gen.1\",\"\"\n", alone),
        ("kind,from,to\ncomponent,\"gen\".1,\n", alone),
        ("kind,from,to\ncomponent,gen.1,\"", alone),
    ] {
        let read = reading(rt.alloc(), &lib, file.as_bytes())?;
        assert_eq!(rt; read.as_str(), text, "{file}");
    }
    Ok(())
}

#[test]
fn faulty_files_are_refused(rt: HostRuntime) -> Result<(), Fail> {
    let lib = library(&rt)?;
    for (file, fault) in [
        // no record
        ("", "1 Fields"),
        ("\n\r\n\r", "1 Fields"),
        ("\u{feff}", "1 Fields"),
        // the header
        ("kind,from\n", "1 Fields"),
        ("kind,from,to,\n", "1 Fields"),
        ("kind,to,from\n", "1 Header"),
        ("component,gen.1,\n", "1 Header"),
        // each class, and the least of a record's
        ("kind,from,to\ncomponent,gen.1\n", "2 Fields"),
        ("kind,from,to\ncomponents,gen.1,\n", "2 Kind"),
        ("kind,from,to\nkind,from,to\n", "2 Kind"),
        ("kind,from,to\ncomponent,gen.3,\n", "2 UnknownName"),
        ("kind,from,to\ncomponent, gen.1,\n", "2 UnknownName"),
        ("kind,from,to\ncomponent,\u{feff}gen.1,\n", "2 UnknownName"),
        ("kind,from,to\ncomponent,gen.1,gen.2\n", "2 UnknownName"),
        ("kind,from,to\nedge,bus.1,gen.1\n", "2 UnknownName"),
        (
            "kind,from,to\ncomponent,gen.1,\ncomponent,gen.1,\n",
            "3 Duplicate",
        ),
        (
            "kind,from,to\nedge,gen.1,bus.1\nedge,gen.1,bus.1\n",
            "3 Duplicate",
        ),
        (
            "kind,from,to\ncomponent,gen.1,\nedge,gen.1,bus.1\n",
            "3 MissingEnd",
        ),
        // the first of two ends, and a later record's fault before an end
        (
            "kind,from,to\nedge,gen.2,bus.1\nedge,gen.1,bus.1\ncomponent,bus.1,\n",
            "2 MissingEnd",
        ),
        ("kind,from,to\nedge,gen.1,bus.1\nbus.1,,\n", "3 Kind"),
        // the first record at fault, whatever its class
        (
            "kind,from,to\ncomponent,gen.3,\ncomponent\n",
            "2 UnknownName",
        ),
        ("kind,from,to\ncomponents,gen.1,\nbus,,,\n", "2 Kind"),
        // two faults in one record: the earlier class
        ("name,from\n", "1 Fields"),
        ("kind,from,to\nbus,gen.3,gen.1\n", "2 Kind"),
        (
            "kind,from,to\ncomponent,gen.1,\ncomponent,gen.1,gen.2\n",
            "3 UnknownName",
        ),
        // blank lines aren't counted
        ("\nkind,from,to\n\n\nbus,,\n", "2 Kind"),
        // a quote that isn't closed
        (
            "kind,from,to\ncomponent,\"gen.1,\nedge,gen.1,bus.1\n",
            "2 Fields",
        ),
        ("kind,from,to\ncomponent,gen.1,\"\n", "2 UnknownName"),
    ] {
        let read = reading(rt.alloc(), &lib, file.as_bytes())?;
        assert_eq!(rt; read.as_str(), fault, "{file}");
    }
    Ok(())
}

// Bytes that aren't text, and files of the greatest size and of one byte more.
#[test]
fn bytes_are_told_apart(rt: HostRuntime) -> Result<(), Fail> {
    let lib = library(&rt)?;
    let header: &[u8] = b"kind,from,t\xff\n";
    let kind: &[u8] = b"kind,from,to\n\xff,gen.1,\n";
    let name: &[u8] = b"kind,from,to\ncomponent,gen.\xff,\n";
    for (file, fault) in [
        (header, "1 Header"),
        (kind, "2 Kind"),
        (name, "2 UnknownName"),
    ] {
        assert_eq!(rt; reading(rt.alloc(), &lib, file)?.as_str(), fault);
    }
    let mut blank = Vec::new(rt.alloc());
    blank.resize(1_048_576, b'\n')?;
    assert_eq!(rt; reading(rt.alloc(), &lib, &blank)?.as_str(), "1 Fields");
    blank.push(b'\n')?;
    assert_eq!(rt; reading(rt.alloc(), &lib, &blank)?.as_str(), "0 TooLarge");
    Ok(())
}
