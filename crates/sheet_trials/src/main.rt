// The trials of sheets (request 3): each call of `sheets::sheet` with what it gives back and what it leaves in the bytes
// lent to it. What is written is held to the file stdout, which examples/sheets.py writes from the request's words.
#![tactic(auto)]

use refusals::Refusal;

// What lent bytes hold before a call.
const BEFORE: u8 = b'#';

// Rows of one item, more than two sheets of them.
const MOST: usize = 77;

// A sheet with a mark behind the last lent byte, or whether the bytes are as they were.
fn show(rt: &impl Print, given: Result<(), Refusal>, out: &[u8]) {
    if given.is_ok() {
        console::word(rt, out);
        console::word(rt, b"|\n");
        return;
    }
    if out.iter().all(|b| *b == BEFORE) {
        console::word(rt, b"as before\n");
    } else {
        console::word(rt, b"changed\n");
    }
}

// One call, in all bytes of `out`: the bytes are cleared, then what is called for, the number given back, and every lent
// byte.
fn sheet(
    rt: &impl Print,
    serial: u32,
    rows: usize,
    kinds: &[u8],
    cells: &[u32],
    called: u64,
    out: &mut [u8],
) {
    out.fill(BEFORE);
    console::word(rt, b"rows ");
    console::number(rt, rows);
    console::word(rt, b" items ");
    console::number(rt, kinds.len());
    console::word(rt, b" sheet ");
    console::number(rt, called);
    console::word(rt, b" bytes ");
    console::number(rt, out.len());
    console::word(rt, b": ");
    let given = sheets::sheet(serial, rows, kinds, cells, called, out);
    console::number(rt, refusals::number(given.err()));
    console::word(rt, b"\n");
    show(rt, given, out);
}

// Names from 1000 on.
fn names() -> [u32; MOST] {
    let mut cells = [0u32; MOST];
    for (cell, name) in cells.iter_mut().zip(1000..1077) {
        *cell = name;
    }
    cells
}

// The first calls, for sheets 0, 1 and so on, of so many rows of one name.
fn all_sheets(rt: &impl Print, rows: usize, calls: u64, out: &mut [u8]) {
    let cells = names();
    for called in 0..calls {
        sheet(rt, 7, rows, &[0], &cells, called, out);
    }
}

// The widest cells of each kind, and a missing one of each.
fn widest(rt: &impl Print, out: &mut [u8]) {
    let kinds = [0u8, 1, 2, 3, 0, 1, 2, 3];
    let cells = [
        4294967294u32,
        2147483649,
        35999,
        4294967294,
        4294967295,
        2147483648,
        4294967295,
        4294967295,
    ];
    sheet(rt, 4294967295, 1, &kinds, &cells, 1, out);
}

// An answer of angles, and the same with one out of range on the last sheet: it is refused whichever sheet is called for.
fn angles(rt: &impl Print, out: &mut [u8]) {
    let mut cells = names();
    sheet(rt, 7, 77, &[2], &cells, 1, out);
    cells[76] = 36000;
    sheet(rt, 7, 77, &[2], &cells, 1, out);
    sheet(rt, 7, 77, &[2], &cells, 4, out);
}

// Answers with too few cells, of no item, of an unknown kind and of nine items.
fn unfit(rt: &impl Print, out: &mut [u8]) {
    let cells = [1u32, 2, 3, 4, 5, 6, 7, 8, 9];
    sheet(rt, 7, 10, &[0], &cells, 1, out);
    sheet(rt, 7, 1, &[], &cells, 1, out);
    sheet(rt, 7, 1, &[4], &cells, 1, out);
    sheet(rt, 7, 1, &[0, 0, 0, 0, 0, 0, 0, 0, 0], &cells, 1, out);
}

// How many sheets an answer of so many rows has.
fn count(rt: &impl Print, rows: usize) {
    console::word(rt, b"rows ");
    console::number(rt, rows);
    console::word(rt, b" sheets ");
    console::number(rt, sheets::sheets(rows));
    console::word(rt, b"\n");
}

fn counts(rt: &impl Print) {
    count(rt, 0);
    count(rt, 1);
    count(rt, 38);
    count(rt, 39);
    count(rt, 76);
    count(rt, 77);
    count(rt, 999999999999);
}

// No rows, one, and about as many as fill one sheet and two, in just the bytes of a sheet.
fn by_rows(rt: &impl Print) {
    let mut out = [0u8; 3880];
    all_sheets(rt, 0, 3, &mut out);
    all_sheets(rt, 1, 3, &mut out);
    all_sheets(rt, 38, 3, &mut out);
    all_sheets(rt, 39, 4, &mut out);
    all_sheets(rt, 76, 4, &mut out);
    all_sheets(rt, 77, 5, &mut out);
}

// A byte less, whichever sheet is called for, and a byte more.
fn by_bytes(rt: &impl Print) {
    let mut less = [0u8; 3879];
    all_sheets(rt, 1, 3, &mut less);
    let mut more = [0u8; 3881];
    all_sheets(rt, 1, 2, &mut more);
}

// By the cells and the kinds.
fn by_cells(rt: &impl Print) {
    let mut out = [0u8; 3880];
    widest(rt, &mut out);
    angles(rt, &mut out);
    unfit(rt, &mut out);
}

fn main(rt: HostRuntime) {
    by_rows(&rt);
    by_bytes(&rt);
    by_cells(&rt);
    counts(&rt);
}
