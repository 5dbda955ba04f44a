// The lines that refuse what was asked for.
ghost use Rattle.std.specs.Prelude.{◌≡◌, ◌++◌, OnOk, OnErr, string_bytes};
ghost use Rattle.report.specs.Refusal as spec;

use arch_csv::{ArchClass, ArchFault};
use arch_model::Memory;
use arrayvec::ArrayString;
use itoa::Buffer;
use lib_read::{LibClass, LibFault, TableName};

/// How many characters of a key are printed.
const SHOWN: usize = 40;

/// The line that refuses words for the one at a place. It takes no memory.
pub fn words_line(place: u32) -> ArrayString<64>
    ensures { result.bytes ≡ spec.refused_words_text place }
{
    let mut digits = Buffer::new();
    let mut line = ArrayString::new();
    line.push_str("refused words ");
    line.push_str(digits.format(place));
    line.push_str("\n");
    line
}

// A class's number and word.
fn class_text(class: LibClass) -> &'static str
    ensures { result.now ≡ spec.class_text class }
{
    match class {
        LibClass::TooLarge => "L1 TooLarge",
        LibClass::NotToml => "L2 NotToml",
        LibClass::UnknownKey => "L3 UnknownKey",
        LibClass::MissingKey => "L4 MissingKey",
        LibClass::WrongKind => "L5 WrongKind",
        LibClass::BadName => "L6 BadName",
        LibClass::Duplicate => "L7 Duplicate",
        LibClass::UnknownName => "L8 UnknownName",
        LibClass::Range => "L9 Range",
        LibClass::TooMany => "L10 TooMany",
    }
}

// A table's word.
fn table_text(table: TableName) -> &'static str
    ensures { result.now ≡ spec.table_text table }
{
    match table {
        TableName::Library => "library",
        TableName::Types => "type",
        TableName::Links => "link",
        TableName::Patterns => "pattern",
        TableName::Requires => "require",
    }
}

// Whether a byte of a UTF-8 text is the first of its character.
fn starts_character(byte: u8) -> bool
    ensures { result ≡ spec.starts_character byte }
{
    !(128 <= byte && byte < 192)
}

// How a character is printed, by its first byte.
fn shown(byte: u8) -> u8
    ensures { result ≡ spec.shown byte }
{
    if 33 <= byte && byte <= 126 {
        byte
    } else {
        b'?'
    }
}

// Appends the first characters of a key.
fn push_key(text: &mut String, key: &[u8]) -> Result<(), Memory>
    ensures { OnOk result (string_bytes text.new ≡ string_bytes text.old ++ spec.key_text key.now) }
{
    let mut count = 0;
    for byte in key {
        if count < SHOWN && starts_character(*byte) {
            text.push(char::from(shown(*byte)))?;
            count += 1;
        }
    }
    Ok(())
}

// Appends the line that refuses a library.
fn push_library_fault(text: &mut String, fault: &LibFault) -> Result<(), Memory>
    ensures { OnOk result
        (string_bytes text.new ≡ string_bytes text.old ++ spec.refused_library_text fault.now) }
{
    let class = class_text(fault.class);
    let table = table_text(fault.table);
    let position = fault.position;
    write!(text, "refused library {class} {table} {position} ")?;
    push_key(text, fault.key.bytes())?;
    text.push_str("\n")?;
    Ok(())
}

// The word of a class of faults of an architecture file.
fn arch_class_text(class: ArchClass) -> &'static str
    ensures { result.now ≡ spec.arch_class_text class }
{
    match class {
        ArchClass::TooLarge => "TooLarge",
        ArchClass::Fields => "Fields",
        ArchClass::Header => "Header",
        ArchClass::Kind => "Kind",
        ArchClass::UnknownName => "UnknownName",
        ArchClass::Duplicate => "Duplicate",
        ArchClass::MissingEnd => "MissingEnd",
    }
}

// Appends the line that refuses an architecture file.
fn push_architecture_fault(text: &mut String, fault: &ArchFault) -> Result<(), Memory>
    ensures { OnOk result
        (string_bytes text.new ≡ string_bytes text.old ++ spec.refused_architecture_text fault.now) }
{
    let class = arch_class_text(fault.class);
    let place = fault.place;
    write!(text, "refused architecture {place} {class}\n")?;
    Ok(())
}

/// Appends the line that refuses a library for a fault: its class, its table, its position there,
/// counted from 1, and the first 40 characters of its key. Where memory is wanting, nothing is
/// appended.
pub fn refused_library_text(fault: &LibFault, out: &mut Vec<u8>) -> Result<(), Memory>
    ensures text { OnOk result (out.new.items ≡ out.old.items ++ spec.refused_library_text fault.now) }
    ensures err { OnErr result (out.new.items ≡ out.old.items) }
{
    let mut text = String::new(*out.allocator());
    push_library_fault(&mut text, fault)?;
    out.extend_from_slice(text.as_bytes())
}

/// Appends the line that refuses an architecture file for a fault: its record, counted from 1, and
/// its class. Where memory is wanting, nothing is appended.
pub fn refused_architecture_text(fault: &ArchFault, out: &mut Vec<u8>) -> Result<(), Memory>
    ensures text { OnOk result
        (out.new.items ≡ out.old.items ++ spec.refused_architecture_text fault.now) }
    ensures err { OnErr result (out.new.items ≡ out.old.items) }
{
    let mut text = String::new(*out.allocator());
    push_architecture_fault(&mut text, fault)?;
    out.extend_from_slice(text.as_bytes())
}
