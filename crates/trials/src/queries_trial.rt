// Queries over two small books: what reading a query gives, or the number that it is refused with.
use query::Query;

// Attributes 0 name, 1 length, 2 angle, 3 date, 4 length; objects 0 {0,1}, 1 {0,2}, 2 {3,4}; 0 determines 2. Its
// maximal objects are one of objects 0 and 1 and one of object 2.
const BOOK: [u8; 42] = [
    1, 0, 0, 1, 1, 1, 1, 2, 2, 1, 3, 3, 1, 4, 1, 2, 0, 3, 0, 0, 0, 2, 1, 5, 0, 0, 0, 2, 2, 24, 0,
    0, 0, 3, 1, 0, 0, 0, 4, 0, 0, 0,
];

// One attribute and no object.
const BARE: [u8; 3] = [1, 0, 0];

// What a query asks, or its refusal: the items and comparisons, the attributes named with each variable, the bytes
// read.
fn show_query(rt: &impl Print, q: Query) {
    if let Some(refusal) = q.refusal {
        console::word(rt, b": refused ");
        console::number(rt, refusal.number());
        console::put(rt, b'\n');
        return;
    }
    let asked = q.asked;
    console::word(rt, b": items ");
    console::number(rt, asked.retrieved);
    console::word(rt, b" comparisons ");
    console::number(rt, asked.compared);
    console::word(rt, b" attributes");
    console::list(rt, &asked.attributes);
    console::word(rt, b" read ");
    console::number(rt, q.read);
    console::put(rt, b'\n');
}

// Reads a query over a book, and writes its name and what it gives.
fn show(rt: &impl Print, name: &[u8], book: &[u8], bytes: &[u8]) {
    let mut directory = [0u32; 1];
    let found = book::read(book, &mut directory);
    let scheme = found.scheme;
    console::word(rt, name);
    show_query(
        rt,
        query::read(bytes, scheme, scheme::first(&found.maximal, found.maximals)),
    );
}

// A query over the book, and one over the book of one attribute.
pub fn over_book(rt: &impl Print, name: &[u8], bytes: &[u8]) {
    show(rt, name, &BOOK, bytes);
}

pub fn over_bare(rt: &impl Print, name: &[u8], bytes: &[u8]) {
    show(rt, name, &BARE, bytes);
}

// A query of an item and kind 10 with zeros behind it up to 65,536 bytes, and up to one more.
pub fn full(rt: &impl Print) {
    let mut out = [0u8; 65537];
    out[0] = 7;
    out[3] = 10;
    over_book(rt, b"? 65536 bytes with kind 10 early", &out[..65536]);
    over_book(rt, b"? 65537 bytes with kind 10 early", &out);
}
