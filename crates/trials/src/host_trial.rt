// The functions for a host program: the words of each number, and each status of each function with every lent cell.
// The first n bytes as text, where there are as many.
fn front(rt: &impl Print, out: &[u8], n: usize) {
    if n <= out.len() {
        console::word(rt, &out[..n]);
    }
}

// Writes the words of a number, or that it has none and the status.
fn words_line(rt: &impl Print, number: u32) {
    let mut out = [0u8; 32];
    let mut results = [0u64; 1];
    let status = host::vingarbu_refusal_text(number, &mut out, &mut results);
    console::word(rt, b"words ");
    console::number(rt, number);
    if status == 0 {
        console::put(rt, b' ');
        front(rt, &out, results[0] as usize);
    } else {
        console::word(rt, b" none ");
        console::number(rt, status);
    }
    console::put(rt, b'\n');
}

// The words of the numbers 0 to 25.
pub fn words(rt: &impl Print) {
    for number in 0..26 {
        words_line(rt, number);
    }
}

// The name of a trial, the status of its call and every result.
fn report(rt: &impl Print, name: &[u8], status: u32, results: &[u64]) {
    console::word(rt, b"host ");
    console::word(rt, name);
    console::word(rt, b": status ");
    console::number(rt, status);
    console::word(rt, b" results");
    console::list(rt, results);
}

// The query over the book with serial 5, and every cell of the space.
fn answer_in(
    rt: &impl Print,
    name: &[u8],
    book: &[u8],
    query: &[u8],
    space: &mut [u32],
    results: &mut [u64],
) {
    let status = host::vingarbu_answer(book, query, 5, space, results);
    report(rt, name, status, results);
    console::word(rt, b" space");
    console::list(rt, space);
    console::put(rt, b'\n');
}

// The same with so many cells of 99 and so many results of 77.
fn answer(rt: &impl Print, name: &[u8], book: &[u8], query: &[u8], cells: usize, places: usize) {
    if cells > 5 {
        return;
    }
    if places > 5 {
        return;
    }
    let mut space = [99u32; 5];
    let mut results = [77u64; 5];
    answer_in(
        rt,
        name,
        book,
        query,
        &mut space[..cells],
        &mut results[..places],
    );
}

// The value kinds of the query's items, and every byte lent for them.
fn kinds_in(
    rt: &impl Print,
    name: &[u8],
    book: &[u8],
    query: &[u8],
    lent: &mut [u8],
    results: &mut [u64],
) {
    let status = host::vingarbu_kinds(book, query, lent, results);
    report(rt, name, status, results);
    console::word(rt, b" kinds");
    console::list(rt, lent);
    console::put(rt, b'\n');
}

// The same with so many bytes of 99 and so many results of 77.
fn kinds(rt: &impl Print, name: &[u8], book: &[u8], query: &[u8], bytes: usize, places: usize) {
    if bytes > 3 {
        return;
    }
    if places > 2 {
        return;
    }
    let mut lent = [99u8; 3];
    let mut results = [77u64; 2];
    kinds_in(
        rt,
        name,
        book,
        query,
        &mut lent[..bytes],
        &mut results[..places],
    );
}

// LEAD and TRIP, LEAD and DEPTH, and kind 10 alone.
const TRIPS: [u8; 7] = [7, 0, 1, 7, 0, 2, 10];

const DEPTHS: [u8; 7] = [7, 0, 1, 7, 0, 3, 10];

const NO_ITEM: [u8; 1] = [10];

// Answers and value kinds over the paper's book.
pub fn over_book(rt: &impl Print, book: &[u8]) {
    answer(rt, b"three results", book, &TRIPS, 5, 3);
    answer(rt, b"no item", book, &NO_ITEM, 5, 5);
    answer(rt, b"trips", book, &TRIPS, 5, 5);
    answer(rt, b"trips in three cells", book, &TRIPS, 3, 5);
    kinds(rt, b"kinds with no result", book, &DEPTHS, 3, 0);
    kinds(rt, b"kinds in one byte", book, &DEPTHS, 1, 2);
    kinds(rt, b"kinds of no item", book, &NO_ITEM, 3, 2);
    kinds(rt, b"kinds", book, &DEPTHS, 3, 2);
}

// Two rows of two cells.
const CELLS: [u32; 4] = [501, 7, 502, 7];

// Two rows printed with serial 6, and every byte lent.
fn print_in(rt: &impl Print, name: &[u8], kinds: &[u8], out: &mut [u8], results: &mut [u64]) {
    let status = host::vingarbu_print(6, 2, kinds, &CELLS, out, results);
    report(rt, name, status, results);
    console::put(rt, b' ');
    console::word(rt, out);
    console::put(rt, b'\n');
}

// The same with so many bytes, each a full stop, and so many results of 77.
fn print(rt: &impl Print, name: &[u8], kinds: &[u8], bytes: usize, places: usize) {
    if bytes > 25 {
        return;
    }
    if places > 2 {
        return;
    }
    let mut out = [46u8; 25];
    let mut results = [77u64; 2];
    print_in(rt, name, kinds, &mut out[..bytes], &mut results[..places]);
}

// Names, and a kind that is none.
const NAMES: [u8; 2] = [0, 0];

const NO_KIND: [u8; 2] = [0, 4];

// Rows printed.
pub fn rows(rt: &impl Print) {
    print(rt, b"rows with no result", &NAMES, 25, 0);
    print(rt, b"rows in 22 bytes", &NAMES, 22, 2);
    print(rt, b"rows of no kind", &NO_KIND, 25, 2);
    print(rt, b"rows", &NAMES, 25, 2);
}

// The words of a number, and every byte lent.
fn refusal_in(rt: &impl Print, name: &[u8], number: u32, out: &mut [u8], results: &mut [u64]) {
    let status = host::vingarbu_refusal_text(number, out, results);
    report(rt, name, status, results);
    console::put(rt, b' ');
    console::word(rt, out);
    console::put(rt, b'\n');
}

// The same with so many bytes, each a full stop, and so many results of 77.
fn refusal(rt: &impl Print, name: &[u8], number: u32, bytes: usize, places: usize) {
    if bytes > 9 {
        return;
    }
    if places > 2 {
        return;
    }
    let mut out = [46u8; 9];
    let mut results = [77u64; 2];
    refusal_in(rt, name, number, &mut out[..bytes], &mut results[..places]);
}

// Words printed.
pub fn refusals(rt: &impl Print) {
    refusal(rt, b"words with no result", 10, 9, 0);
    refusal(rt, b"words in 6 bytes", 10, 6, 2);
    refusal(rt, b"words of 8", 8, 9, 2);
    refusal(rt, b"words of 10", 10, 9, 2);
}
