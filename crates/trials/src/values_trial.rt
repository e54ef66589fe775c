// The built-in comparison table, and range, order, matching and comparison of extreme cells, for each value kind.
// One line for a left and a right kind: which of the operators 0 to 5 are allowed.
fn operators_line(rt: &impl Print, left: u8, right: u8) {
    console::word(rt, b"allowed ");
    console::number(rt, left);
    console::put(rt, b' ');
    console::number(rt, right);
    console::put(rt, b' ');
    for operator in 0..6u8 {
        let table = values::built_in();
        console::flag(rt, values::allowed(table, operator, left, right));
    }
    console::put(rt, b'\n');
}

// The whole table, a line for each pair of kinds.
pub fn operators(rt: &impl Print) {
    for pair in 0..16u8 {
        operators_line(rt, pair / 4, pair % 4);
    }
}

const CELLS: [u32; 7] = [
    0,
    1,
    0x7fff_ffff,
    0x8000_0000,
    0x8000_0001,
    0xffff_fffe,
    0xffff_ffff,
];

// One line for a kind: which of the extreme cells are in range.
fn range_line(rt: &impl Print, kind: u8) {
    console::word(rt, b"range ");
    console::number(rt, kind);
    console::put(rt, b' ');
    for cell in CELLS {
        console::flag(rt, values::in_range(kind, cell));
    }
    console::put(rt, b'\n');
}

// The ranges of the kinds, and of 4, which is no kind.
pub fn ranges(rt: &impl Print) {
    for kind in 0..5u8 {
        range_line(rt, kind);
    }
}

// One line for a kind: which of the extreme cells are missing.
fn missing_line(rt: &impl Print, kind: u8) {
    console::word(rt, b"missing ");
    console::number(rt, kind);
    console::put(rt, b' ');
    for cell in CELLS {
        console::flag(rt, values::missing(kind, cell));
    }
    console::put(rt, b'\n');
}

// What is missing of each kind.
pub fn gaps(rt: &impl Print) {
    for kind in 0..4u8 {
        missing_line(rt, kind);
    }
}

// How two cells of a kind compare.
fn order(rt: &impl Print, kind: u8, a: u32, b: u32) {
    if values::less(kind, a, b) {
        console::put(rt, b'<');
        return;
    }
    if values::less(kind, b, a) {
        console::put(rt, b'>');
        return;
    }
    console::put(rt, b'=');
}

// One line for a kind and an extreme cell: how it compares with each of them.
fn order_line(rt: &impl Print, kind: u8, a: u32) {
    console::word(rt, b"order ");
    console::number(rt, kind);
    console::put(rt, b' ');
    console::number(rt, a);
    console::put(rt, b' ');
    for cell in CELLS {
        order(rt, kind, a, cell);
    }
    console::put(rt, b'\n');
}

// The lines of one kind.
fn order_lines(rt: &impl Print, kind: u8) {
    for cell in CELLS {
        order_line(rt, kind, cell);
    }
}

// The order of the extreme cells, for each kind.
pub fn orders(rt: &impl Print) {
    for kind in 0..4u8 {
        order_lines(rt, kind);
    }
}

// One line for a kind and a cell: which of the extreme cells it matches in a join.
fn match_line(rt: &impl Print, kind: u8, a: u32) {
    console::word(rt, b"match ");
    console::number(rt, kind);
    console::put(rt, b' ');
    console::number(rt, a);
    console::put(rt, b' ');
    for cell in CELLS {
        console::flag(rt, values::matching(kind, a, cell));
    }
    console::put(rt, b'\n');
}

// What the cells that are missing in some kind match, and their neighbours, for each kind.
pub fn matches(rt: &impl Print) {
    for kind in 0..4u8 {
        match_line(rt, kind, 0x8000_0000);
        match_line(rt, kind, 0x8000_0001);
        match_line(rt, kind, 0xffff_fffe);
        match_line(rt, kind, 0xffff_ffff);
    }
}

// One line for two cells, each of its kind: which of the operators 0 to 5 hold of them.
fn holds_line(rt: &impl Print, left: u8, right: u8, a: u32, b: u32) {
    console::word(rt, b"holds ");
    console::number(rt, left);
    console::put(rt, b' ');
    console::number(rt, right);
    console::put(rt, b' ');
    console::number(rt, a);
    console::put(rt, b' ');
    console::number(rt, b);
    console::put(rt, b' ');
    for operator in 0..6u8 {
        console::flag(rt, values::holds(operator, left, right, a, b));
    }
    console::put(rt, b'\n');
}

// The missing cell of a kind with itself and with a value, on both sides.
fn holds_lines(rt: &impl Print, kind: u8, gap: u32) {
    holds_line(rt, kind, kind, gap, gap);
    holds_line(rt, kind, kind, gap, 7);
    holds_line(rt, kind, kind, 7, gap);
}

// The same between a kind and lengths, where a club's table allows it.
fn beside_lengths(rt: &impl Print, kind: u8, gap: u32) {
    holds_line(rt, kind, 1, gap, 7);
    holds_line(rt, 1, kind, 7, gap);
    holds_line(rt, kind, 1, 7, 0x8000_0000);
    holds_line(rt, 1, kind, 0x8000_0000, 7);
    holds_line(rt, 1, kind, 0x8000_0000, gap);
}

// Comparisons with missing cells, for each kind, and with the cells that are missing in other kinds only.
pub fn comparisons(rt: &impl Print) {
    holds_lines(rt, 0, 0xffff_ffff);
    holds_lines(rt, 1, 0x8000_0000);
    holds_lines(rt, 2, 0xffff_ffff);
    holds_lines(rt, 3, 0xffff_ffff);
    beside_lengths(rt, 0, 0xffff_ffff);
    beside_lengths(rt, 2, 0xffff_ffff);
    beside_lengths(rt, 3, 0xffff_ffff);
    holds_line(rt, 1, 1, 0xffff_ffff, 0xffff_ffff);
    holds_line(rt, 1, 1, 0xffff_ffff, 7);
    holds_line(rt, 0, 0, 0x8000_0000, 0x8000_0000);
    holds_line(rt, 3, 3, 7, 0x8000_0000);
    holds_line(rt, 3, 1, 0x8000_0000, 0xffff_ffff);
}
