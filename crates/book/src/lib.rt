// Reading the bytes of a book: its scheme, where its rows stand, and why it is refused.
#![tactic(auto)]

ghost use Rattle.std.specs.Prelude.{◌≡◌, [], ◌<◌, ◌≤◌, length, drop};
ghost use Rattle.refusals.specs.Refusals.{number_of, number_of_any, number_of_check};
ghost use Rattle.sets.specs.Sets.{count, ATTRIBUTES, OBJECTS};
ghost use Rattle.scheme.specs.OfScheme.{maximal_of};
ghost use Rattle.records.specs.Checks.{first_of};
ghost use Rattle.records.specs.Records.{masks_of};
ghost use Rattle.book.specs.Faults.{some_non_zero, some_outside, wrong_cells, SixAtMost, row_checks};
ghost use Rattle.book.specs.Faults.{maximal_checks, fault_of};
ghost use Rattle.book.specs.Declaring.{nothing_declared, with_attribute, with_object, with_dependency, with_maximal};
ghost use Rattle.book.specs.Declaring.{with_table, with_declared, with_removed, with_only, with_masks, declare};
ghost use Rattle.book.specs.Reading.{is_row, records, walked_of, last_number, last_fault};
ghost use Rattle.book.specs.Reading.{read, book_with, book_of, stored};

use records::{BookRecord, Owner, Reading, Record};
use refusals::Refusal;
use scheme::{MAXIMALS, MaximalRecords, Scheme, TableOfMasks};
use sets::{ATTRIBUTES, AttributeSet, Mask, OBJECTS, ObjectSet};

// One value kind for each attribute.
const KINDS: usize = ATTRIBUTES as usize;

// Whether the cells from a place on are not all zero.
fn some_nonzero(cells: [u32; 6], from: usize) -> bool
    ensures { result ≡ some_non_zero (drop from cells) }
{
    for i in from..6 {
        if cells[i] != 0 {
            return true;
        }
    }
    false
}

// Whether some attribute of the set has a cell outside the range of its kind. The attributes of the set below one are
// counted to find its cell.
fn some_outside(kinds: [u8; KINDS], set: AttributeSet, cells: [u32; 6]) -> bool
    requires { count ATTRIBUTES set ≤ 6 }
    ensures { result ≡ some_outside kinds set cells ATTRIBUTES }
{
    for a in 0..KINDS {
        if set.has(a as u32) {
            let place = sets::rank(set, a as u32) as usize;
            if !values::in_range(kinds[a], cells[place]) {
                return true;
            }
        }
    }
    false
}

// Whether a row of an object with this set has a non-zero cell that is not needed or one outside its range.
fn wrong_cells(kinds: [u8; KINDS], set: AttributeSet, cells: [u32; 6]) -> bool
    requires { count ATTRIBUTES set ≤ 6 }
    ensures { result ≡ wrong_cells kinds set cells }
{
    if some_nonzero(cells, set.count() as usize) {
        return true;
    }
    some_outside(kinds, set, cells)
}

// The faults of kinds 1 to 6, 13 and 15, each by the paper's order.
fn attribute_fault(s: Scheme, id: u8, kind: u8) -> Result<(), Refusal>
    ensures { number_of_check result ≡ fault_of s (Record.OfBook (BookRecord.Attribute id kind)) }
{
    if id as u32 >= ATTRIBUTES {
        return Err(Refusal::OutOfRange);
    }
    if kind > 3 {
        return Err(Refusal::OutOfRange);
    }
    if s.attributes.has(u32::from(id)) {
        return Err(Refusal::DeclaredAlready);
    }
    Ok(())
}

fn object_fault(s: Scheme, number: u8, set: AttributeSet) -> Result<(), Refusal>
    ensures { number_of_check result ≡ fault_of s (Record.OfBook (BookRecord.Object number set)) }
{
    if number as u32 >= OBJECTS {
        return Err(Refusal::OutOfRange);
    }
    if set.is_empty() {
        return Err(Refusal::OutOfRange);
    }
    if set.count() > 6 {
        return Err(Refusal::OutOfRange);
    }
    if s.objects.has(u32::from(number)) {
        return Err(Refusal::DeclaredAlready);
    }
    if !set.within(s.attributes) {
        return Err(Refusal::NotDeclared);
    }
    Ok(())
}

fn dependency_fault(s: Scheme, left: AttributeSet, right: AttributeSet) -> Result<(), Refusal>
    ensures { number_of_check result ≡ fault_of s (Record.OfBook (BookRecord.Dependency left right)) }
{
    if s.dependencies >= 64 {
        return Err(Refusal::TooManyOfItsKind);
    }
    if left.is_empty() {
        return Err(Refusal::OutOfRange);
    }
    if right.is_empty() {
        return Err(Refusal::OutOfRange);
    }
    if !left.within(s.attributes) {
        return Err(Refusal::NotDeclared);
    }
    if !right.within(s.attributes) {
        return Err(Refusal::NotDeclared);
    }
    Ok(())
}

fn row_fault(s: Scheme, object: u8, cells: [u32; 6]) -> Result<(), Refusal>
    requires { SixAtMost s }
    ensures { number_of_check result ≡ first_of (row_checks s object cells) }
{
    if object as u32 >= OBJECTS {
        return Err(Refusal::OutOfRange);
    }
    if !s.objects.has(u32::from(object)) {
        return Err(Refusal::NotDeclared);
    }
    let k = object as usize;
    let set = s.sets[k];
    if wrong_cells(s.kinds, set, cells) {
        return Err(Refusal::OutOfRange);
    }
    Ok(())
}

// The fault of a kind 5 or 6 of which the book has n before it.
fn maximal_fault(s: Scheme, n: usize, set: ObjectSet) -> Result<(), Refusal>
    ensures { number_of_check result ≡ first_of (maximal_checks s n set) }
{
    if n >= 8 {
        return Err(Refusal::TooManyOfItsKind);
    }
    if set.is_empty() {
        return Err(Refusal::OutOfRange);
    }
    if !set.within(s.objects) {
        return Err(Refusal::NotDeclared);
    }
    Ok(())
}

// The fault of a comparison table: one more than its bound, or one that breaks the rules.
fn table_fault(s: Scheme, names: u32, lengths: u32, angles: u32, dates: u32) -> Result<(), Refusal>
    ensures { number_of_check result ≡ fault_of s (Record.OfBook (BookRecord.ComparisonTable names lengths angles dates)) }
{
    if s.table.given >= 1 {
        return Err(Refusal::TooManyOfItsKind);
    }
    if !values::keeps_rules(records::masks_of(names, lengths, angles, dates)) {
        return Err(Refusal::WrongComparisonTable);
    }
    Ok(())
}

// The fault of a whole record of a book.
fn book_fault(s: Scheme, r: BookRecord) -> Result<(), Refusal>
    requires { SixAtMost s }
    ensures { number_of_check result ≡ fault_of s (Record.OfBook r) }
{
    match r {
        BookRecord::Attribute { id, kind } => attribute_fault(s, id, kind),
        BookRecord::Object { number, set } => object_fault(s, number, set),
        BookRecord::Dependency { left, right } => dependency_fault(s, left, right),
        BookRecord::Row {
            object,
            c0,
            c1,
            c2,
            c3,
            c4,
            c5,
        } => { row_fault(s, object, [c0, c1, c2, c3, c4, c5]) }
        BookRecord::Declared { set } => maximal_fault(s, s.maximal.declarations, u64::from(set)),
        BookRecord::Removed { set } => maximal_fault(s, s.maximal.removals, u64::from(set)),
        BookRecord::ComparisonTable {
            names,
            lengths,
            angles,
            dates,
        } => { table_fault(s, names, lengths, angles, dates) }
        BookRecord::OnlyDeclared => Ok(()),
        BookRecord::DeclaredWide { set } => maximal_fault(s, s.maximal.declarations, set),
    }
}

// The fault of a whole record: a query's may not stand in a book.
fn fault(s: Scheme, r: Record) -> Result<(), Refusal>
    requires { SixAtMost s }
    ensures { number_of_check result ≡ fault_of s r }
{
    match r {
        Record::OfBook(record) => book_fault(s, record),
        Record::OfQuery(_) => Err(Refusal::KindNotAllowed),
    }
}

// The scheme that nothing is declared in.
fn nothing_declared() -> Scheme
    ensures { result ≡ nothing_declared }
{
    let masks = values::built_in();
    let maximal = MaximalRecords {
        declared: [0; 8],
        declarations: 0,
        removed: [0; 8],
        removals: 0,
        only: false,
    };
    let table = TableOfMasks { masks, given: 0 };
    Scheme {
        kinds: [0u8; KINDS],
        attributes: 0,
        sets: [0u32; OBJECTS as usize],
        objects: 0,
        left: [0u32; 64],
        right: [0u32; 64],
        dependencies: 0,
        maximal,
        table,
    }
}

// What kinds 1, 2, 3, 5, 6, 13, 14 and 15 add to a scheme.
fn with_attribute(mut s: Scheme, id: u8, kind: u8) -> Scheme
    requires { id < ATTRIBUTES }
    ensures { result ≡ with_attribute s id kind }
{
    let i = id as usize;
    s.kinds[i] = kind;
    s.attributes = s.attributes.insert(u32::from(id));
    s
}

fn with_object(mut s: Scheme, number: u8, set: AttributeSet) -> Scheme
    requires { number < OBJECTS }
    ensures { result ≡ with_object s number set }
{
    let i = number as usize;
    s.sets[i] = set;
    s.objects = s.objects.insert(u32::from(number));
    s
}

fn with_dependency(mut s: Scheme, left: AttributeSet, right: AttributeSet) -> Scheme
    requires { s.dependencies < 64 }
    ensures { result ≡ with_dependency s left right }
{
    let i = s.dependencies;
    s.left[i] = left;
    s.right[i] = right;
    s.dependencies = i + 1;
    s
}

fn with_declared(mut s: Scheme, set: ObjectSet) -> Scheme
    requires { s.maximal.declarations < 8 }
    ensures { result ≡ with_maximal s (with_declared s.maximal set) }
{
    let mut m = s.maximal;
    let i = m.declarations;
    m.declared[i] = set;
    m.declarations = i + 1;
    s.maximal = m;
    s
}

fn with_removed(mut s: Scheme, set: ObjectSet) -> Scheme
    requires { s.maximal.removals < 8 }
    ensures { result ≡ with_maximal s (with_removed s.maximal set) }
{
    let mut m = s.maximal;
    let i = m.removals;
    m.removed[i] = set;
    m.removals = i + 1;
    s.maximal = m;
    s
}

fn with_table(mut s: Scheme, names: u32, lengths: u32, angles: u32, dates: u32) -> Scheme
    requires { s.table.given < 1 }
    ensures { result ≡ with_table s (with_masks s.table (masks_of names lengths angles dates)) }
{
    let masks = records::masks_of(names, lengths, angles, dates);
    let given = s.table.given + 1;
    let table = TableOfMasks { masks, given };
    s.table = table;
    s
}

fn with_only(mut s: Scheme) -> Scheme
    ensures { result ≡ with_maximal s (with_only s.maximal) }
{
    s.maximal.only = true;
    s
}

// What a record of a book without a fault adds to a scheme.
fn declare_record(s: Scheme, r: BookRecord) -> Scheme
    requires { fault_of s (Record.OfBook r) ≡ 0 }
    ensures { result ≡ declare s (Record.OfBook r) }
{
    match r {
        BookRecord::Attribute { id, kind } => with_attribute(s, id, kind),
        BookRecord::Object { number, set } => with_object(s, number, set),
        BookRecord::Dependency { left, right } => with_dependency(s, left, right),
        BookRecord::Row { .. } => s,
        BookRecord::Declared { set } => with_declared(s, u64::from(set)),
        BookRecord::Removed { set } => with_removed(s, u64::from(set)),
        BookRecord::ComparisonTable {
            names,
            lengths,
            angles,
            dates,
        } => { with_table(s, names, lengths, angles, dates) }
        BookRecord::OnlyDeclared => with_only(s),
        BookRecord::DeclaredWide { set } => with_declared(s, set),
    }
}

// What a record without a fault adds to a scheme; a query's stands in no book.
fn declare(s: Scheme, r: Record) -> Scheme
    requires { fault_of s r ≡ 0 }
    ensures { result ≡ declare s r }
{
    match r {
        Record::OfBook(record) => declare_record(s, record),
        Record::OfQuery(_) => s,
    }
}

// Whether a record is a row.
#[tactic(auto, unfolding(crate::specs::Reading::is_row, records::specs::Records::kind_of))]
fn is_row(r: Record) -> bool
    ensures { result ≡ is_row r }
{
    matches!(r, Record::OfBook(BookRecord::Row { .. }))
}

// What the records of a book come to: the fault of the earliest faulty one, if one is, and what stands before it.
#[derive(Clone, Copy)]
struct Walked {
    refusal: Option<Refusal>,
    rows: usize,
    scheme: Scheme,
}

// Reads record after record; the positions of the rows go into the directory while there are cells for them. A row adds
// nothing to the scheme, which is not copied for it.
fn walk(bytes: &[u8], directory: &mut [u32]) -> Walked
    requires { length bytes.now ≤ 65536 }
    ensures value { result ≡ walked_of (records bytes.now) }
    ensures numbered { number_of_any result.refusal ≡ (records bytes.now).number }
    ensures directory_after { directory.new ≡ stored (records bytes.now).rows directory.old }
{
    let mut scheme = nothing_declared();
    let mut rows: usize = 0;
    let mut at: usize = 0;
    loop {
        let found = records::read(bytes, at);
        let Reading::Found(r, next) = found else {
            return Walked {
                refusal: records::unread(found, Owner::Book),
                rows,
                scheme,
            };
        };
        if let Err(refusal) = fault(scheme, r) {
            return Walked {
                refusal: Some(refusal),
                rows,
                scheme,
            };
        }
        if is_row(r) {
            if rows < directory.len() {
                directory[rows] = at as u32;
            }
            rows += 1;
        } else {
            scheme = declare(scheme, r);
        }
        at = next;
    }
}

// A book that was read: why it is refused, if it is, how many rows it has, its scheme, and its maximal objects, with 0
// behind them. A refused book has the rows and the scheme of the records before the fault, and maximal objects only
// where all records were accepted: where it is not refused, or with 21 or 9.
#[derive(Clone, Copy)]
pub struct Book {
    pub refusal: Option<Refusal>,
    pub rows: usize,
    pub scheme: Scheme,
    pub maximal: [ObjectSet; MAXIMALS],
    pub maximals: usize,
}

// A book refused before its end: it has no maximal objects.
fn stopped(refusal: Refusal, rows: usize, scheme: Scheme) -> Book
    ensures { result ≡ book_with (number_of refusal) rows scheme [] }
{
    Book {
        refusal: Some(refusal),
        rows,
        scheme,
        maximal: [0; MAXIMALS],
        maximals: 0,
    }
}

// The fault of a scheme after the last record.
fn last_fault(both: bool, cyclic: bool) -> Option<Refusal>
    ensures { number_of_any result ≡ last_number both cyclic }
{
    if both {
        return Some(Refusal::RemovedWithOnlyDeclared);
    }
    if cyclic {
        Some(Refusal::CyclicMaximalObject)
    } else {
        None
    }
}

// A book whose records were all accepted: its maximal objects, and the faults of its scheme.
fn finished(rows: usize, scheme: Scheme) -> Book
    ensures { result ≡ book_with (last_fault scheme) rows scheme (maximal_of scheme) }
{
    let m = scheme::maximal_objects(scheme);
    let maximal = m.sets;
    Book {
        refusal: last_fault(m.both, m.cyclic),
        rows,
        scheme,
        maximal,
        maximals: m.count,
    }
}

// Reads the bytes of a book. The positions of its rows go into the directory, in order, as many as it has cells for;
// its other cells keep what they held.
pub fn read(bytes: &[u8], directory: &mut [u32]) -> Book
    ensures value { result ≡ book_of (read bytes.now) }
    ensures directory_after { directory.new ≡ stored (read bytes.now).rows directory.old }
{
    if bytes.len() > 65536 {
        return stopped(Refusal::TooManyBytes, 0, nothing_declared());
    }
    let w = walk(bytes, directory);
    let scheme = w.scheme;
    if let Some(refusal) = w.refusal {
        return stopped(refusal, w.rows, scheme);
    }
    finished(w.rows, scheme)
}
