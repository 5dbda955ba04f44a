// What is known of a file after some of its records.
ghost use Rattle.std.specs.Prelude.{◌≡◌, ◌+◌, ◌^◌, ◌<◌, [], ◌∷◌, ◌++◌, length, List, OnOk, IfOk, IfErr, Ok, Err};
ghost use Rattle.arch_model.specs.Library.{IsLibrary};
ghost use Rattle.arch_model.specs.Architecture.{IsArchitecture};
ghost use Rattle.arch_model.specs.declared.limits.TheConstants.{COMPONENTS, EDGES};
ghost use Rattle.csv.specs.Records.{fields_of};
ghost use Rattle.arch_csv.specs.Records as spec;
ghost use Rattle.arch_csv.specs.ArchitectureOf.{added, architecture_of_records, with_item, has_item, has_ends};
ghost use Rattle.arch_csv.specs.Inner.Draft.{IsDraft, TakesRecord, draft_members, FileFault, IsItem, edges_of_item};

use crate::fault::{ArchClass, ArchError};
use crate::item::{Item, header_fault, item_of};
use arch_model::{Architecture, CompSet, EdgeId, EdgeSet, Library, Memory};
use csv::ByteRecord;
use std::alloc::Global;

/// The components and edges of the records that were read, none of which is at fault. The ends of
/// edges aren't judged yet, so each edge stands beside its record's number.
#[derive(Drop)]
pub(crate) struct Draft {
    pub(crate) records: u64,
    comps: CompSet,
    edges: EdgeSet,
    edge_records: Vec<(u64, EdgeId)>,
}

impl Draft {
    /// That of no record, with room for all edges.
    pub(crate) fn new(alloc: Global, lib: &Library) -> Result<Draft, Memory>
        ensures empty { IfOk result (IsDraft lib.now []) }
        ensures library { IsLibrary lib.now }
    {
        let edge_records = Vec::with_capacity(alloc, lib.edges().len())?;
        Ok(Draft {
            records: 0,
            comps: CompSet::new(),
            edges: EdgeSet::new(),
            edge_records,
        })
    }

    // Whether a component or an edge stands in an earlier record.
    fn has(&self, item: Item) -> bool
        ensures { result ≡ has_item (draft_members self.now) item }
    {
        match item {
            Item::Component(component) => self.comps.has(component),
            Item::Edge(edge) => self.edges.has(edge),
        }
    }

    // The component or edge that a record after the header adds, or the record's first fault.
    fn added(&self, lib: &Library, row: &ByteRecord) -> Result<Item, ArchClass>
        requires { IsLibrary lib.now }
        ensures { result ≡ added (draft_members self.now) (spec.item_of lib.now (fields_of row.now)) }
    {
        match item_of(lib, row) {
            Ok(item) => {
                if self.has(item) {
                    Err(ArchClass::Duplicate)
                } else {
                    Ok(item)
                }
            }
            Err(class) => Err(class),
        }
    }

    // Puts in the component or edge of a record.
    fn put(&mut self, item: Item, place: u64) -> Result<(), Memory>
        requires { IsItem COMPONENTS EDGES item }
        ensures members { OnOk result (draft_members self.new ≡ with_item (draft_members self.old) item) }
        ensures edges { OnOk result (self.new.edge_records.items
            ≡ self.old.edge_records.items ++ edges_of_item place item) }
        ensures records { self.new.records ≡ self.old.records }
    {
        match item {
            Item::Component(component) => self.comps.put(component),
            Item::Edge(edge) => {
                self.edge_records.push((place, edge))?;
                self.edges.put(edge);
            }
        }
        Ok(())
    }

    // Takes the header.
    fn take_header(&mut self, lib: &Library, row: &ByteRecord) -> Result<(), ArchError>
        requires { self.old.records ≡ 0 }
        ensures { TakesRecord lib.now (fields_of row.now) self.old self.new result }
    {
        let _ = lib;
        if let Some(class) = header_fault(row) {
            return Err(ArchError::at(class, 1));
        }
        self.records = 1;
        Ok(())
    }

    // Takes a record after the header.
    fn take_item(&mut self, lib: &Library, row: &ByteRecord) -> Result<(), ArchError>
        requires library { IsLibrary lib.now }
        requires later { 0 < self.old.records }
        requires few { self.old.records < 2 ^ 32 }
        ensures { TakesRecord lib.now (fields_of row.now) self.old self.new result }
    {
        let place = self.records + 1;
        match self.added(lib, row) {
            Ok(item) => self.put(item, place)?,
            Err(class) => return Err(ArchError::at(class, place)),
        }
        self.records = place;
        Ok(())
    }

    /// Takes the next record.
    pub(crate) fn take(&mut self, lib: &Library, row: &ByteRecord) -> Result<(), ArchError>
        requires library { IsLibrary lib.now }
        requires few { self.old.records < 2 ^ 32 }
        ensures { TakesRecord lib.now (fields_of row.now) self.old self.new result }
    {
        if self.records == 0 {
            self.take_header(lib, row)
        } else {
            self.take_item(lib, row)
        }
    }

    // Whether both ends of an edge are components of the file.
    fn has_ends(&self, lib: &Library, edge: EdgeId) -> bool
        requires { edge.0 < length lib.now.edges }
        ensures { result ≡ has_ends lib.now (draft_members self.now) edge }
    {
        let row = lib.edges()[edge.0 as usize];
        self.comps.has(row.tail) && self.comps.has(row.head)
    }

    /// The architecture of all records of a file.
    pub(crate) fn finish(self, lib: &Library) -> Result<Architecture, ArchError>
        requires { (rows : List spec.Record) × IsDraft lib.now rows self }
        ensures ok { IfOk result (λ arch. (rows : List spec.Record) → IsDraft lib.now rows self
            → architecture_of_records lib.now rows ≡ Ok arch) }
        ensures fits { IfOk result (λ arch. IsArchitecture lib.now arch) }
        ensures err { IfErr result (λ e. (rows : List spec.Record) → IsDraft lib.now rows self
            → FileFault lib.now rows e) }
    {
        if self.records == 0 {
            return Err(ArchError::at(ArchClass::Fields, 1));
        }
        for (place, edge) in &self.edge_records {
            if !self.has_ends(lib, *edge) {
                return Err(ArchError::at(ArchClass::MissingEnd, *place));
            }
        }
        Ok(Architecture::new(self.comps, self.edges))
    }
}
