// Reading the bytes of a query over a book that was read: what it asks, and why it is refused.
#![tactic(auto)]

ghost use Rattle.std.specs.Prelude.{◌≡◌, ◌<◌, ◌≤◌, length, not};
ghost use Rattle.numbers.specs.Numbers.{is_nil};
ghost use Rattle.refusals.specs.Refusals.{number_of_any, number_of_check};
ghost use Rattle.sets.specs.Sets.{ATTRIBUTES, OBJECTS};
ghost use Rattle.query.specs.Asking.{nothing_asked, with_name, with_item, with_comparison, with_record};
ghost use Rattle.query.specs.Faults.{fault_of};
ghost use Rattle.query.specs.Reading.{is_end, stop_number, walk_query, walked_of, containing, some_unconnected};
ghost use Rattle.query.specs.Reading.{whole_number, read, query_of};

use records::{Owner, QueryRecord, Reading, Record};
use refusals::Refusal;
use scheme::Scheme;
use sets::{ATTRIBUTES, AttributeSet, Mask, ObjectSet};

// An item to retrieve: a variable and an attribute.
#[derive(Clone, Copy)]
pub struct QueryItem {
    pub variable: u8,
    pub attribute: u8,
}

// A comparison of two attributes, or of an attribute with a constant. The fields that it does not have are 0.
#[derive(Clone, Copy)]
pub struct Comparison {
    pub variable: u8,
    pub attribute: u8,
    pub operator: u8,
    pub constant: bool,
    pub variable2: u8,
    pub attribute2: u8,
    pub cell: u32,
}

// What a query asks: its items and its comparisons, each list beside its length with zeros behind it, and the
// attributes named with each variable.
#[derive(Clone, Copy)]
pub struct Asked {
    pub items: [QueryItem; 8],
    pub retrieved: usize,
    pub comparisons: [Comparison; 16],
    pub compared: usize,
    pub attributes: [AttributeSet; 4],
}

// A query that was read: why it is refused, if it is; what the records before the fault ask; the bytes read, the end of
// the query included, 0 where it is refused.
#[derive(Clone, Copy)]
pub struct Query {
    pub refusal: Option<Refusal>,
    pub asked: Asked,
    pub read: usize,
}

// The faults of kinds 7 to 9, each by the paper's order, behind what the records before ask.
fn item_fault(s: Scheme, q: Asked, variable: u8, attribute: u8) -> Result<(), Refusal>
    ensures { number_of_check result ≡ fault_of s q (Record.OfQuery (QueryRecord.Item variable attribute)) }
{
    if q.retrieved >= 8 {
        return Err(Refusal::TooManyOfItsKind);
    }
    if variable > 3 {
        return Err(Refusal::OutOfRange);
    }
    if attribute as u32 >= ATTRIBUTES {
        return Err(Refusal::OutOfRange);
    }
    if !s.attributes.has(u32::from(attribute)) {
        return Err(Refusal::NotDeclared);
    }
    Ok(())
}

fn two_fault(
    s: Scheme,
    q: Asked,
    variable: u8,
    attribute: u8,
    operator: u8,
    variable2: u8,
    attribute2: u8,
) -> Result<(), Refusal>
    ensures { number_of_check result ≡ fault_of s q (Record.OfQuery (QueryRecord.CompareTwo variable attribute operator variable2 attribute2)) }
{
    if q.compared >= 16 {
        return Err(Refusal::TooManyOfItsKind);
    }
    if variable > 3 {
        return Err(Refusal::OutOfRange);
    }
    if attribute as u32 >= ATTRIBUTES {
        return Err(Refusal::OutOfRange);
    }
    if operator > 5 {
        return Err(Refusal::OutOfRange);
    }
    if variable2 > 3 {
        return Err(Refusal::OutOfRange);
    }
    if attribute2 as u32 >= ATTRIBUTES {
        return Err(Refusal::OutOfRange);
    }
    if !s.attributes.has(u32::from(attribute)) {
        return Err(Refusal::NotDeclared);
    }
    if !s.attributes.has(u32::from(attribute2)) {
        return Err(Refusal::NotDeclared);
    }
    let a = attribute as usize;
    let a2 = attribute2 as usize;
    let table = s.table.masks;
    if !values::allowed(table, operator, s.kinds[a], s.kinds[a2]) {
        return Err(Refusal::OperatorNotAllowed);
    }
    Ok(())
}

fn constant_fault(
    s: Scheme,
    q: Asked,
    variable: u8,
    attribute: u8,
    operator: u8,
    cell: u32,
) -> Result<(), Refusal>
    ensures { number_of_check result ≡ fault_of s q (Record.OfQuery (QueryRecord.CompareConstant variable attribute operator cell)) }
{
    if q.compared >= 16 {
        return Err(Refusal::TooManyOfItsKind);
    }
    if variable > 3 {
        return Err(Refusal::OutOfRange);
    }
    if attribute as u32 >= ATTRIBUTES {
        return Err(Refusal::OutOfRange);
    }
    if operator > 5 {
        return Err(Refusal::OutOfRange);
    }
    if !s.attributes.has(u32::from(attribute)) {
        return Err(Refusal::NotDeclared);
    }
    let a = attribute as usize;
    let kind = s.kinds[a];
    let table = s.table.masks;
    if !values::allowed(table, operator, kind, kind) {
        return Err(Refusal::OperatorNotAllowed);
    }
    if !values::in_range(kind, cell) {
        return Err(Refusal::OutOfRange);
    }
    if values::missing(kind, cell) {
        return Err(Refusal::OutOfRange);
    }
    Ok(())
}

// The fault of a whole record of a query.
fn query_fault(s: Scheme, q: Asked, r: QueryRecord) -> Result<(), Refusal>
    ensures { number_of_check result ≡ fault_of s q (Record.OfQuery r) }
{
    match r {
        QueryRecord::Item {
            variable,
            attribute,
        } => item_fault(s, q, variable, attribute),
        QueryRecord::CompareTwo {
            variable,
            attribute,
            operator,
            variable2,
            attribute2,
        } => { two_fault(s, q, variable, attribute, operator, variable2, attribute2) }
        QueryRecord::CompareConstant {
            variable,
            attribute,
            operator,
            cell,
        } => { constant_fault(s, q, variable, attribute, operator, cell) }
        QueryRecord::End => Ok(()),
    }
}

// The fault of a whole record: a book's may not stand in a query.
fn fault(s: Scheme, q: Asked, r: Record) -> Result<(), Refusal>
    ensures { number_of_check result ≡ fault_of s q r }
{
    match r {
        Record::OfBook(_) => Err(Refusal::KindNotAllowed),
        Record::OfQuery(record) => query_fault(s, q, record),
    }
}

// A query that asks nothing yet.
fn nothing_asked() -> Asked
    ensures { result ≡ nothing_asked }
{
    let none = Comparison {
        variable: 0,
        attribute: 0,
        operator: 0,
        constant: false,
        variable2: 0,
        attribute2: 0,
        cell: 0,
    };
    Asked {
        items: [QueryItem {
            variable: 0,
            attribute: 0,
        }; 8],
        retrieved: 0,
        comparisons: [none; 16],
        compared: 0,
        attributes: [0u32; 4],
    }
}

// An attribute more that is named with a variable.
fn with_name(mut q: Asked, variable: u8, attribute: u8) -> Asked
    requires { (variable < 4) × (attribute < ATTRIBUTES) }
    ensures { result ≡ with_name q variable attribute }
{
    let v = variable as usize;
    q.attributes[v] = q.attributes[v].insert(u32::from(attribute));
    q
}

// An item more, a comparison more.
fn with_item(mut q: Asked, i: QueryItem) -> Asked
    requires { q.retrieved < 8 }
    ensures { result ≡ with_item q i }
{
    let n = q.retrieved;
    q.items[n] = i;
    q.retrieved = n + 1;
    q
}

fn with_comparison(mut q: Asked, c: Comparison) -> Asked
    requires { q.compared < 16 }
    ensures { result ≡ with_comparison q c }
{
    let n = q.compared;
    q.comparisons[n] = c;
    q.compared = n + 1;
    q
}

// A comparison of two more, and one with a constant, with the attributes that it names.
fn with_two(
    q: Asked,
    variable: u8,
    attribute: u8,
    operator: u8,
    variable2: u8,
    attribute2: u8,
) -> Asked
    requires { (q.compared < 16) × ((variable < 4) × (attribute < ATTRIBUTES))
        × ((variable2 < 4) × (attribute2 < ATTRIBUTES)) }
    ensures { result ≡ with_record q (Record.OfQuery (QueryRecord.CompareTwo variable attribute operator variable2 attribute2)) }
{
    let c = Comparison {
        variable,
        attribute,
        operator,
        constant: false,
        variable2,
        attribute2,
        cell: 0,
    };
    with_name(
        with_name(with_comparison(q, c), variable, attribute),
        variable2,
        attribute2,
    )
}

fn with_constant(q: Asked, variable: u8, attribute: u8, operator: u8, cell: u32) -> Asked
    requires { (q.compared < 16) × (variable < 4) × (attribute < ATTRIBUTES) }
    ensures { result ≡ with_record q (Record.OfQuery (QueryRecord.CompareConstant variable attribute operator cell)) }
{
    let c = Comparison {
        variable,
        attribute,
        operator,
        constant: true,
        variable2: 0,
        attribute2: 0,
        cell,
    };
    with_name(with_comparison(q, c), variable, attribute)
}

// What a record of a query without a fault adds.
fn with_query_record(s: Scheme, q: Asked, r: QueryRecord) -> Asked
    requires { fault_of s q (Record.OfQuery r) ≡ 0 }
    ensures { result ≡ with_record q (Record.OfQuery r) }
{
    match r {
        QueryRecord::Item {
            variable,
            attribute,
        } => {
            let i = QueryItem {
                variable,
                attribute,
            };
            with_name(with_item(q, i), variable, attribute)
        }
        QueryRecord::CompareTwo {
            variable,
            attribute,
            operator,
            variable2,
            attribute2,
        } => { with_two(q, variable, attribute, operator, variable2, attribute2) }
        QueryRecord::CompareConstant {
            variable,
            attribute,
            operator,
            cell,
        } => { with_constant(q, variable, attribute, operator, cell) }
        QueryRecord::End => q,
    }
}

// What a record without a fault adds; a book's stands in no query.
fn with_record(s: Scheme, q: Asked, r: Record) -> Asked
    requires { fault_of s q r ≡ 0 }
    ensures { result ≡ with_record q r }
{
    match r {
        Record::OfBook(_) => q,
        Record::OfQuery(record) => with_query_record(s, q, record),
    }
}

// Whether a record is the end of a query.
#[tactic(auto, unfolding(crate::specs::Reading::is_end, records::specs::Records::kind_of))]
fn is_end(r: Record) -> bool
    ensures { result ≡ is_end r }
{
    matches!(r, Record::OfQuery(QueryRecord::End))
}

// The fault where no whole record stands: a query does not end without its last record.
fn unread(found: Reading) -> Option<Refusal>
    ensures { number_of_any result ≡ stop_number found }
{
    match found {
        Reading::Nothing => Some(Refusal::CutShort),
        _ => records::unread(found, Owner::Query),
    }
}

// What the records of a query come to: the fault of the earliest faulty one, none at the end of the query; what those
// accepted ask; the position where it stopped.
#[derive(Clone, Copy)]
struct Walked {
    refusal: Option<Refusal>,
    asked: Asked,
    at: usize,
}

// Reads record after record up to the end of the query.
fn walk(bytes: &[u8], s: Scheme) -> Walked
    requires { length bytes.now ≤ 65536 }
    ensures value { result ≡ walked_of (walk_query s bytes.now) }
    ensures numbered { number_of_any result.refusal ≡ (walk_query s bytes.now).number }
{
    let mut asked = nothing_asked();
    let mut at: usize = 0;
    loop {
        let found = records::read(bytes, at);
        let Reading::Found(r, next) = found else {
            return Walked {
                refusal: unread(found),
                asked,
                at,
            };
        };
        if let Err(refusal) = fault(s, asked, r) {
            return Walked {
                refusal: Some(refusal),
                asked,
                at,
            };
        }
        if is_end(r) {
            return Walked {
                refusal: None,
                asked,
                at: next,
            };
        }
        asked = with_record(s, asked, r);
        at = next;
    }
}

// Whether no maximal object of the list contains x.
fn none_contains<'a>(sets: &'a [AttributeSet], maximal: &'a [ObjectSet], x: AttributeSet) -> bool
    requires { OBJECTS ≤ length sets.now }
    ensures { result ≡ is_nil (containing sets.now maximal.now x) }
{
    for objects in maximal {
        if x.within(scheme::attributes_of(sets, *objects)) {
            return false;
        }
    }
    true
}

// Whether the attributes of some variable that is named lie in no maximal object.
fn some_unconnected<'a>(
    sets: &'a [AttributeSet],
    maximal: &'a [ObjectSet],
    attributes: [AttributeSet; 4],
) -> bool
    requires { OBJECTS ≤ length sets.now }
    ensures { result ≡ some_unconnected sets.now maximal.now attributes }
{
    for x in &attributes {
        if !x.is_empty() {
            if none_contains(sets, maximal, *x) {
                return true;
            }
        }
    }
    false
}

// What is wrong with a query as a whole.
fn whole_fault(s: Scheme, maximal: &[ObjectSet], q: Asked) -> Result<(), Refusal>
    ensures { number_of_check result ≡ whole_number s maximal.now q }
{
    if q.retrieved == 0 {
        return Err(Refusal::NoItem);
    }
    let attributes = q.attributes;
    if some_unconnected(&s.sets, maximal, attributes) {
        return Err(Refusal::NoConnection);
    }
    Ok(())
}

// Reads the bytes of a query over a book of scheme s and these maximal objects.
pub fn read(bytes: &[u8], s: Scheme, maximal: &[ObjectSet]) -> Query
    ensures { result ≡ query_of (read s maximal.now bytes.now) }
{
    if bytes.len() > 65536 {
        return Query {
            refusal: Some(Refusal::TooManyBytes),
            asked: nothing_asked(),
            read: 0,
        };
    }
    let w = walk(bytes, s);
    let asked = w.asked;
    if let Some(refusal) = w.refusal {
        return Query {
            refusal: Some(refusal),
            asked,
            read: 0,
        };
    }
    if let Err(refusal) = whole_fault(s, maximal, asked) {
        return Query {
            refusal: Some(refusal),
            asked,
            read: 0,
        };
    }
    Query {
        refusal: None,
        asked,
        read: w.at,
    }
}
