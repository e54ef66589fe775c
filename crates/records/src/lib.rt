// Records: "one byte of kind, then a body whose length the kind fixes". Reads the record at a position of some bytes.
#![tactic(auto)]

ghost use Rattle.std.specs.Prelude.{◌≡◌, true, ◌+◌, ◌%◌, ◌≤◌, ◌<◌, length, drop};
ghost use Rattle.refusals.specs.Refusals.{number_of, number_of_any};
ghost use Rattle.records.specs.Fields.{field};
ghost use Rattle.records.specs.Records.{owner_number, whose, body_length, is_kind, of_book, of_query, kind_of, masks_of};
ghost use Rattle.records.specs.Records.{allowed_to};
ghost use Rattle.records.specs.Reader.{record_of, read_at};
ghost use Rattle.records.specs.Walking.{short_number, unread_number};

use refusals::Refusal;

// A record of a book, in the order of the paper's table: kinds 1 to 6, 13, 14 and 15. A comparison table has a word
// for each left kind, whose bytes are the masks of the right kinds, the lowest first.
#[derive(Clone, Copy)]
pub enum BookRecord {
    Attribute {
        id: u8,
        kind: u8,
    },
    Object {
        number: u8,
        set: u32,
    },
    Dependency {
        left: u32,
        right: u32,
    },
    Row {
        object: u8,
        c0: u32,
        c1: u32,
        c2: u32,
        c3: u32,
        c4: u32,
        c5: u32,
    },
    Declared {
        set: u32,
    },
    Removed {
        set: u32,
    },
    ComparisonTable {
        names: u32,
        lengths: u32,
        angles: u32,
        dates: u32,
    },
    OnlyDeclared,
    DeclaredWide {
        set: u64,
    },
}

// A record of a query: kinds 7 to 10.
#[derive(Clone, Copy)]
pub enum QueryRecord {
    Item {
        variable: u8,
        attribute: u8,
    },
    CompareTwo {
        variable: u8,
        attribute: u8,
        operator: u8,
        variable2: u8,
        attribute2: u8,
    },
    CompareConstant {
        variable: u8,
        attribute: u8,
        operator: u8,
        cell: u32,
    },
    End,
}

// A record, by whose kind it is.
#[derive(Clone, Copy)]
pub enum Record {
    OfBook(BookRecord),
    OfQuery(QueryRecord),
}

// What reading at a position finds.
#[derive(Clone, Copy)]
pub enum Reading {
    // No byte stands there.
    Nothing,
    // The byte there is no kind.
    Unknown,
    // The byte there is this kind, and its body is cut short.
    Short(u8),
    // A record, and the position where the next one starts.
    Found(Record, usize),
}

// Whose kind a byte is.
#[derive(Clone, Copy, PartialEq, Eq, Debug)]
pub enum Owner {
    Book,
    Query,
}

// The field of one byte at a position.
pub fn byte_at(s: &[u8], at: usize) -> u8
    requires { at < length s.now }
    ensures { result ≡ field 1 s.now at }
{
    s[at]
}

// The field of four bytes at a position, the lowest first: a set or a cell.
pub fn word_at(s: &[u8], at: usize) -> u32
    requires { at + 4 ≤ length s.now }
    ensures { result ≡ field 4 s.now at }
{
    u32::from_le_bytes([s[at], s[at + 1], s[at + 2], s[at + 3]])
}

// The field of eight bytes at a position, the lowest first: a set of objects.
pub fn long_at(s: &[u8], at: usize) -> u64
    requires { at + 8 ≤ length s.now }
    ensures { result ≡ field 8 s.now at }
{
    u64::from_le_bytes([
        s[at],
        s[at + 1],
        s[at + 2],
        s[at + 3],
        s[at + 4],
        s[at + 5],
        s[at + 6],
        s[at + 7],
    ])
}

// Whose kind a byte is, if it is one.
#[tactic(auto, using(crate::proofs::Records::whose_low, crate::proofs::Records::whose_query, crate::proofs::Records::whose_high, crate::proofs::Records::whose_between, crate::proofs::Records::whose_first, crate::proofs::Records::whose_past))]
fn whose(kind: u8) -> Option<Owner>
    ensures { owner_number result ≡ whose kind }
{
    match kind {
        1..=6 | 13..=15 => Some(Owner::Book),
        7..=10 => Some(Owner::Query),
        _ => None,
    }
}

// How many bytes the body of a kind has, the kind byte not counted.
#[tactic(auto, unfolding(crate::specs::Records::body_length, crate::specs::Records::kinds))]
pub fn body_length(kind: u8) -> usize
    ensures { result ≡ body_length kind }
{
    match kind {
        1 => 2,
        2 => 5,
        3 => 8,
        4 => 25,
        5 => 4,
        6 => 4,
        7 => 2,
        8 => 5,
        9 => 7,
        13 => 16,
        15 => 8,
        _ => 0,
    }
}

// Whether a byte is a kind of the table, and whether it is one of an owner's.
pub fn is_kind(kind: u8) -> bool
    ensures { result ≡ is_kind kind }
{
    whose(kind).is_some()
}

pub fn is_of(kind: u8, owner: Owner) -> bool
    ensures { result ≡ allowed_to owner kind }
{
    whose(kind) == Some(owner)
}

// The kind of a record of a book, and of a query.
fn kind_of_book(r: BookRecord) -> u8
    ensures { result ≡ kind_of (Record.OfBook r) }
{
    match r {
        BookRecord::Attribute { .. } => 1,
        BookRecord::Object { .. } => 2,
        BookRecord::Dependency { .. } => 3,
        BookRecord::Row { .. } => 4,
        BookRecord::Declared { .. } => 5,
        BookRecord::Removed { .. } => 6,
        BookRecord::ComparisonTable { .. } => 13,
        BookRecord::OnlyDeclared => 14,
        BookRecord::DeclaredWide { .. } => 15,
    }
}

fn kind_of_query(r: QueryRecord) -> u8
    ensures { result ≡ kind_of (Record.OfQuery r) }
{
    match r {
        QueryRecord::Item { .. } => 7,
        QueryRecord::CompareTwo { .. } => 8,
        QueryRecord::CompareConstant { .. } => 9,
        QueryRecord::End => 10,
    }
}

// The kind of a record.
pub fn kind_of(r: Record) -> u8
    ensures { result ≡ kind_of r }
{
    match r {
        Record::OfBook(record) => kind_of_book(record),
        Record::OfQuery(record) => kind_of_query(record),
    }
}

// The row whose body starts at a position.
fn row(s: &[u8], body: usize) -> BookRecord
    requires { body + 25 ≤ length s.now }
    ensures { Record.OfBook result ≡ record_of 4 (drop body s.now) }
{
    BookRecord::Row {
        object: byte_at(s, body),
        c0: word_at(s, body + 1),
        c1: word_at(s, body + 5),
        c2: word_at(s, body + 9),
        c3: word_at(s, body + 13),
        c4: word_at(s, body + 17),
        c5: word_at(s, body + 21),
    }
}

// The comparison table whose body starts at a position.
fn comparison_table(s: &[u8], body: usize) -> BookRecord
    requires { body + 16 ≤ length s.now }
    ensures { Record.OfBook result ≡ record_of 13 (drop body s.now) }
{
    BookRecord::ComparisonTable {
        names: word_at(s, body),
        lengths: word_at(s, body + 4),
        angles: word_at(s, body + 8),
        dates: word_at(s, body + 12),
    }
}

// The masks of a comparison table, from its words.
pub fn masks_of(names: u32, lengths: u32, angles: u32, dates: u32) -> [u8; 16]
    ensures { result ≡ masks_of names lengths angles dates }
{
    let [n0, n1, n2, n3] = names.to_le_bytes();
    let [l0, l1, l2, l3] = lengths.to_le_bytes();
    let [a0, a1, a2, a3] = angles.to_le_bytes();
    let [d0, d1, d2, d3] = dates.to_le_bytes();
    [
        n0, n1, n2, n3, l0, l1, l2, l3, a0, a1, a2, a3, d0, d1, d2, d3,
    ]
}

// The record of a kind of a book whose body starts at a position.
fn book_record(s: &[u8], kind: u8, body: usize) -> BookRecord
    requires { (of_book kind ≡ true) × (body + body_length kind ≤ length s.now) }
    ensures { Record.OfBook result ≡ record_of kind (drop body s.now) }
{
    match kind {
        1 => BookRecord::Attribute {
            id: byte_at(s, body),
            kind: byte_at(s, body + 1),
        },
        2 => BookRecord::Object {
            number: byte_at(s, body),
            set: word_at(s, body + 1),
        },
        3 => BookRecord::Dependency {
            left: word_at(s, body),
            right: word_at(s, body + 4),
        },
        4 => row(s, body),
        5 => BookRecord::Declared {
            set: word_at(s, body),
        },
        6 => BookRecord::Removed {
            set: word_at(s, body),
        },
        13 => comparison_table(s, body),
        14 => BookRecord::OnlyDeclared,
        _ => BookRecord::DeclaredWide {
            set: long_at(s, body),
        },
    }
}

// The record of a kind of a query whose body starts at a position.
fn query_record(s: &[u8], kind: u8, body: usize) -> QueryRecord
    requires { (of_query kind ≡ true) × (body + body_length kind ≤ length s.now) }
    ensures { Record.OfQuery result ≡ record_of kind (drop body s.now) }
{
    match kind {
        7 => QueryRecord::Item {
            variable: byte_at(s, body),
            attribute: byte_at(s, body + 1),
        },
        8 => QueryRecord::CompareTwo {
            variable: byte_at(s, body),
            attribute: byte_at(s, body + 1),
            operator: byte_at(s, body + 2),
            variable2: byte_at(s, body + 3),
            attribute2: byte_at(s, body + 4),
        },
        9 => QueryRecord::CompareConstant {
            variable: byte_at(s, body),
            attribute: byte_at(s, body + 1),
            operator: byte_at(s, body + 2),
            cell: word_at(s, body + 3),
        },
        _ => QueryRecord::End,
    }
}

// The record that stands at a position, if one does. Any position of any bytes has an answer.
pub fn read(s: &[u8], at: usize) -> Reading
    ensures { result ≡ read_at s.now at }
{
    if at >= s.len() {
        return Reading::Nothing;
    }
    let kind = s[at];
    if !is_kind(kind) {
        return Reading::Unknown;
    }
    let body = at + 1;
    let len = body_length(kind);
    if s.len() - body < len {
        return Reading::Short(kind);
    }
    if is_of(kind, Owner::Book) {
        Reading::Found(Record::OfBook(book_record(s, kind, body)), body + len)
    } else {
        Reading::Found(Record::OfQuery(query_record(s, kind, body)), body + len)
    }
}

// The fault of a body that is cut short, where the records of an owner are read.
fn short_fault(kind: u8, owner: Owner) -> Refusal
    ensures { number_of result ≡ short_number (allowed_to owner) kind }
{
    if is_of(kind, owner) {
        Refusal::CutShort
    } else {
        Refusal::KindNotAllowed
    }
}

// The fault where no whole record stands, and none at the end of the bytes.
pub fn unread(found: Reading, owner: Owner) -> Option<Refusal>
    ensures { number_of_any result ≡ unread_number owner found }
{
    match found {
        Reading::Unknown => Some(Refusal::KindNotAllowed),
        Reading::Short(kind) => Some(short_fault(kind, owner)),
        _ => None,
    }
}
