// The books and queries of standard input, a line each: a name, a colon, then the bytes in decimal, the records parted
// by strokes. A name with a question mark in front is a query's, one with an exclamation mark that of a query over a
// book of no objects; over a book whose name has an `@` in front the functions for a host program are tried, too. And
// two books at the bound of 65,536 bytes.
use crate::{host_trial, queries_trial};

// Reads a book and writes its name, and its refusal or how many rows and maximal objects it has.
fn show_book(rt: &impl Print, name: &[u8], bytes: &[u8]) {
    let mut directory = [0u32; 2520];
    let found = book::read(bytes, &mut directory);
    console::word(rt, name);
    if let Some(refusal) = found.refusal {
        console::word(rt, b": refused ");
        console::number(rt, refusal.number());
    } else {
        console::word(rt, b": rows ");
        console::number(rt, found.rows);
        console::word(rt, b" maximal objects ");
        console::number(rt, found.maximals);
    }
    console::put(rt, b'\n');
}

// A book, or a query by the mark in front of its name.
fn show(rt: &impl Print, name: &[u8], bytes: &[u8]) {
    let mark = name.first().copied().unwrap_or(0);
    if mark == b'?' {
        queries_trial::over_book(rt, name, bytes);
    } else if mark == b'!' {
        queries_trial::over_bare(rt, name, bytes);
    } else {
        show_book(rt, name, bytes);
    }
    if mark == b'@' {
        host_trial::over_book(rt, bytes);
    }
}

// One line, from its first byte up to the line feed at its end: the numbers behind the colon, as bytes.
fn show_line(rt: &impl Print, line: &[u8]) {
    let colon = console::find(line, b':');
    let mut numbers = [0u32; 1024];
    let n = console::numbers_of(&line[colon..], &mut numbers);
    let mut out = [0u8; 1024];
    let bytes = console::bytes_of(&numbers[..n], &mut out);
    show(rt, &line[..colon], &out[..bytes]);
}

// Every line of the text that ends.
pub fn books(rt: &impl Print, s: &[u8]) {
    let mut from: usize = 0;
    while from < s.len() {
        let end = from + console::find(&s[from..], b'\n');
        if end < s.len() {
            show_line(rt, &s[from..end + 1]);
        }
        from = end + 1;
    }
}

// Four attributes and five objects: 42 bytes.
const HEAD: [u8; 42] = [
    1, 0, 0, 1, 1, 0, 1, 2, 0, 1, 3, 0, 2, 0, 1, 0, 0, 0, 2, 1, 2, 0, 0, 0, 2, 2, 4, 0, 0, 0, 2, 3,
    8, 0, 0, 0, 2, 4, 3, 0, 0, 0,
];

// A row of object 4.
const ROW: [u8; 26] = [
    4, 4, 1, 0, 0, 0, 2, 0, 0, 0, 0, 0, 0, 0, 0, 0, 0, 0, 0, 0, 0, 0, 0, 0, 0, 0,
];

// Byte i of the head and row after row.
fn byte_of(i: usize) -> u8 {
    if i < 42 {
        return HEAD[i];
    }
    ROW[(i - 42) % 26]
}

fn fill(out: &mut [u8]) {
    for (i, byte) in out.iter_mut().enumerate() {
        *byte = byte_of(i);
    }
}

// A book of 65,536 bytes, which has 2,519 rows, and one of a byte more.
pub fn full(rt: &impl Print) {
    let mut out = [0u8; 65537];
    fill(&mut out);
    show(rt, b"book of 65536 bytes", &out[..65536]);
    show(rt, b"book of 65537 bytes", &out);
}
