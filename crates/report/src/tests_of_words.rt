// Lines that need no network, byte by byte.
use crate::tests::is;
use crate::{
    mass_text, no_text, refused_architecture_text, refused_library_text, words_line, yes_text,
};
use arch_csv::{ArchClass, ArchFault};
use arch_model::KeyText;
use lib_read::{LibClass, LibFault, TableName};
use search_core::{Answer, Rule};
use std::process::Abort;
use std::test::Fail;

#[test]
fn answers_are_told(rt: HostRuntime) -> Result<(), Fail> {
    let answers = [
        Answer::Optimal { cost: 3 },
        Answer::Infeasible,
        Answer::NodeLimit { incumbent: Some(0) },
        Answer::NodeLimit { incumbent: None },
    ];
    let mut text = Vec::new(rt.alloc());
    for answer in &answers {
        yes_text(answer, &mut text)?;
    }
    assert!(rt;
        is(
            &text,
            "yes optimal 3
yes infeasible
yes nodelimit 0
yes nodelimit none
"
        )
    );
    Ok(())
}

// The rules, in the order in which they are judged.
const RULES: [Rule; 24] = [
    Rule::TooLarge,
    Rule::TooLong,
    Rule::End,
    Rule::Form,
    Rule::Number,
    Rule::Order,
    Rule::After,
    Rule::Header,
    Rule::Worker,
    Rule::Node,
    Rule::Cuts,
    Rule::Bound,
    Rule::Row,
    Rule::Step,
    Rule::Free,
    Rule::Limit,
    Rule::Reason,
    Rule::Full,
    Rule::Broken,
    Rule::Weight,
    Rule::Cost,
    Rule::Cut,
    Rule::Refute,
    Rule::Answer,
];

#[test]
fn rules_have_words(rt: HostRuntime) -> Result<(), Fail> {
    let mut text = Vec::new(rt.alloc());
    for rule in &RULES {
        no_text(12, *rule, &mut text)?;
    }
    assert!(rt;
        is(
            &text,
            "no 12 TooLarge
no 12 TooLong
no 12 End
no 12 Form
no 12 Number
no 12 Order
no 12 After
no 12 Header
no 12 Worker
no 12 Node
no 12 Cuts
no 12 Bound
no 12 Row
no 12 Step
no 12 Free
no 12 Limit
no 12 Reason
no 12 Full
no 12 Broken
no 12 Weight
no 12 Cost
no 12 Cut
no 12 Refute
no 12 Answer
"
        )
    );
    Ok(())
}

#[test]
fn bounds_of_a_mass_are_told(rt: HostRuntime) -> Result<(), Fail> {
    let mut text = Vec::new(rt.alloc());
    mass_text(0, 1, &mut text)?;
    mass_text(0, 18_446_744_073_709_551_615, &mut text)?;
    assert!(rt; is(&text, "mass 0 1\nmass 0 18446744073709551615\n"));
    Ok(())
}

#[test]
fn words_are_refused(rt: HostRuntime) {
    assert!(rt; words_line(4).as_str() == "refused words 4\n");
    assert!(rt; words_line(4_294_967_295).as_str() == "refused words 4294967295\n");
}

// Appends the line that refuses a library for a fault.
fn refuse(
    rt: &(impl Abort + AllocGlobal),
    class: LibClass,
    table: TableName,
    position: u32,
    key: &str,
    out: &mut Vec<u8>,
) -> Result<(), Fail> {
    let key = KeyText::new(Vec::from_slice(rt.alloc(), key.as_bytes())?);
    let fault = LibFault {
        class,
        table,
        position,
        key,
    };
    refused_library_text(&fault, out)?;
    Ok(())
}

#[test]
fn libraries_are_refused(rt: HostRuntime) -> Result<(), Fail> {
    use LibClass as C;
    use TableName as T;
    let faults = [
        (C::TooLarge, T::Library, 0, "-"),
        (C::NotToml, T::Library, 0, "-"),
        (C::UnknownKey, T::Types, 2, "colour"),
        (C::MissingKey, T::Patterns, 4, "kind"),
        (C::WrongKind, T::Types, 4_294_967_295, "max"),
        (C::BadName, T::Types, 1, "name"),
        (C::Duplicate, T::Links, 2, "to"),
        (C::UnknownName, T::Requires, 1, "sink"),
        (C::Range, T::Requires, 1, "bound"),
        (C::TooMany, T::Library, 0, "type"),
    ];
    let mut text = Vec::new(rt.alloc());
    for (class, table, position, key) in faults {
        refuse(&rt, class, table, position, key, &mut text)?;
    }
    assert!(rt;
        is(
            &text,
            "refused library L1 TooLarge library 0 -
refused library L2 NotToml library 0 -
refused library L3 UnknownKey type 2 colour
refused library L4 MissingKey pattern 4 kind
refused library L5 WrongKind type 4294967295 max
refused library L6 BadName type 1 name
refused library L7 Duplicate link 2 to
refused library L8 UnknownName require 1 sink
refused library L9 Range require 1 bound
refused library L10 TooMany library 0 type
"
        )
    );
    Ok(())
}

// A key's first 40 characters are printed, each outside the visible ASCII ones as one sign.
#[test]
fn keys_are_printed_visibly(rt: HostRuntime) -> Result<(), Fail> {
    let mut text = Vec::new(rt.alloc());
    for key in [
        "",
        "k\u{fc}r\u{1f600}s a\n!~\u{7f}",
        "012345678901234567890123456789012345678\u{e9}rest",
    ] {
        refuse(
            &rt,
            LibClass::UnknownKey,
            TableName::Links,
            1,
            key,
            &mut text,
        )?;
    }
    assert!(rt;
        is(
            &text,
            "refused library L3 UnknownKey link 1 \n\
refused library L3 UnknownKey link 1 k?r?s?a?!~?\n\
refused library L3 UnknownKey link 1 012345678901234567890123456789012345678?\n"
        )
    );
    Ok(())
}

#[test]
fn architecture_files_are_refused(rt: HostRuntime) -> Result<(), Fail> {
    let faults = [
        (ArchClass::TooLarge, 0),
        (ArchClass::Fields, 1),
        (ArchClass::Header, 1),
        (ArchClass::Kind, 4),
        (ArchClass::UnknownName, 2),
        (ArchClass::Duplicate, 3),
        (ArchClass::MissingEnd, 1_000_000),
    ];
    let mut text = Vec::new(rt.alloc());
    for (class, place) in faults {
        refused_architecture_text(&ArchFault { class, place }, &mut text)?;
    }
    assert!(rt;
        is(
            &text,
            "refused architecture 0 TooLarge
refused architecture 1 Fields
refused architecture 1 Header
refused architecture 4 Kind
refused architecture 2 UnknownName
refused architecture 3 Duplicate
refused architecture 1000000 MissingEnd
"
        )
    );
    Ok(())
}
