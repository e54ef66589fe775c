// The unit's printout: answers and refusals as lines of text, in bytes that the caller lends.
#![tactic(auto)]

ghost use Rattle.std.specs.Prelude.{◌≡◌, ◌&&◌, cond, [], ◌∷◌, ◌++◌, ◌≤◌, ◌<◌, ◌+◌, ◌-◌, ◌*◌, ◌^◌, eqb, leb, ltb, length};
ghost use Rattle.sorted.specs.Rows.{rows_in};
ghost use Rattle.printout.specs.Decimal.{decimal, value_text, cell_text};
ghost use Rattle.printout.specs.Lines.{row_line, row_lines, head_line, book_refused, query_refused};
ghost use Rattle.printout.specs.Lines.{all_known, row_fits, rows_fit, fits};
ghost use Rattle.printout.specs.Printing.{written, printed, after, answer_printed, after_answer};

use numbers::index;

// Room that is always enough for an answer of 8,192 cells.
pub const ROOM: usize = 98327;

// Why nothing was printed; the bytes are as they were. A text that is printed stands in the first bytes, and printing
// gives how many they are.
#[derive(Clone, Copy, PartialEq, Eq, Debug)]
pub enum Unprinted {
    // The text is longer than the bytes.
    NoRoom,
    // The answer is not fit to print.
    NotFit,
}

// The byte of a digit.
fn digit(x: usize) -> u8
    requires { x < 10 }
    ensures { result ≡ 48 + x }
{
    48 + x as u8
}

// How many digits a number has.
pub fn decimal_length(x: usize) -> usize
    ensures value { result ≡ length (decimal x) }
    ensures inside { result ≤ 20 }
{
    let mut left = x;
    let mut n: usize = 1;
    while 10 <= left {
        left /= 10;
        n += 1;
    }
    n
}

// Writes one byte. The place behind it.
pub fn put_byte(out: &mut [u8], at: usize, byte: u8) -> usize
    requires { at < length out.old }
    ensures value { result ≡ at + 1 }
    ensures out_after { out.new ≡ written at (byte ∷ []) out.old }
{
    out[at] = byte;
    at + 1
}

// Writes some bytes. The place behind them.
fn put_text(out: &mut [u8], at: usize, text: &[u8]) -> usize
    requires { at + length text.now ≤ length out.old }
    ensures value { result ≡ at + length text.now }
    ensures out_after { out.new ≡ written at text.now out.old }
{
    let mut end = at;
    for byte in text {
        end = put_byte(out, end, *byte);
    }
    end
}

// Writes a number in decimal. The place behind it.
pub fn put_decimal(out: &mut [u8], at: usize, x: usize) -> usize
    requires { at + length (decimal x) ≤ length out.old }
    ensures value { result ≡ at + length (decimal x) }
    ensures out_after { out.new ≡ written at (decimal x) out.old }
{
    if x < 10 {
        return put_byte(out, at, digit(x));
    }
    let end = put_decimal(out, at, x / 10);
    put_byte(out, end, digit(x % 10))
}

// Writes some words, each with its space, and a number in decimal. The place behind them.
fn put_words(out: &mut [u8], at: usize, words: &[u8], x: usize) -> usize
    requires { at + length (words.now ++ decimal x) ≤ length out.old }
    ensures value { result ≡ at + length (words.now ++ decimal x) }
    ensures out_after { out.new ≡ written at (words.now ++ decimal x) out.old }
{
    let end = put_text(out, at, words);
    put_decimal(out, end, x)
}

// Whether the text of a value begins with a minus.
fn has_minus(kind: u8, cell: u32) -> bool
    ensures { result ≡ (eqb kind 1 && leb (2 ^ 31) cell) }
{
    kind == 1 && 2147483648 <= cell
}

// How many bytes the text of a value has.
fn value_length(kind: u8, cell: u32) -> usize
    ensures value { result ≡ length (value_text kind cell) }
    ensures inside { result ≤ 11 }
{
    if has_minus(kind, cell) {
        return 1 + decimal_length(4294967296 - index(cell));
    }
    decimal_length(index(cell))
}

// How many bytes the text of a cell has.
pub fn cell_length(kind: u8, cell: u32) -> usize
    ensures value { result ≡ length (cell_text kind cell) }
    ensures inside { result ≤ 11 }
{
    if values::missing(kind, cell) {
        return 1;
    }
    value_length(kind, cell)
}

// Writes the value of a cell by its kind. The place behind it.
fn put_value(out: &mut [u8], at: usize, kind: u8, cell: u32) -> usize
    requires { at + length (value_text kind cell) ≤ length out.old }
    ensures value { result ≡ at + length (value_text kind cell) }
    ensures out_after { out.new ≡ written at (value_text kind cell) out.old }
{
    if has_minus(kind, cell) {
        let digits = put_byte(out, at, b'-');
        return put_decimal(out, digits, 4294967296 - index(cell));
    }
    put_decimal(out, at, index(cell))
}

// Writes a cell by its kind, a missing one as a minus alone. The place behind it.
pub fn put_cell(out: &mut [u8], at: usize, kind: u8, cell: u32) -> usize
    requires { at + length (cell_text kind cell) ≤ length out.old }
    ensures value { result ≡ at + length (cell_text kind cell) }
    ensures out_after { out.new ≡ written at (cell_text kind cell) out.old }
{
    if values::missing(kind, cell) {
        return put_byte(out, at, b'-');
    }
    put_value(out, at, kind, cell)
}

// The byte behind word i of n: a space, or a line feed behind the last.
fn mark(i: usize, n: usize) -> u8
    requires { i < n }
    ensures { result ≡ cond (ltb (i + 1) n) 32 10 }
{
    if i + 1 < n { b' ' } else { b'\n' }
}

// How many bytes the line of a row has.
fn row_length(kinds: &[u8], row: &[u32]) -> usize
    requires { (length kinds.now ≤ 8) × (length kinds.now ≤ length row.now) }
    ensures value { result ≡ length (row_line kinds.now row.now) }
    ensures inside { result ≤ 96 }
{
    let mut n = 0;
    for (kind, cell) in kinds.iter().zip(row) {
        n += cell_length(*kind, *cell) + 1;
    }
    n
}

// Writes the line of a row. The place behind it.
fn put_row(out: &mut [u8], at: usize, kinds: &[u8], row: &[u32]) -> usize
    requires kinds_in_bounds { length kinds.now ≤ length row.now }
    requires row_in_bounds { at + length (row_line kinds.now row.now) ≤ length out.old }
    ensures value { result ≡ at + length (row_line kinds.now row.now) }
    ensures out_after { out.new
        ≡ written at (row_line kinds.now row.now) out.old }
{
    let mut end = at;
    for (i, kind) in kinds.iter().enumerate() {
        end = put_cell(out, end, *kind, row[i]);
        end = put_byte(out, end, mark(i, kinds.len()));
    }
    end
}

// How many bytes the lines of the first rows in the cells have.
fn rows_length(kinds: &[u8], cells: &[u32], rows: usize) -> usize
    requires kinds_len_bound { (length kinds.now ≤ 8) × (rows ≤ 999_999_999_999) }
    requires kinds_in_bounds { rows * length kinds.now ≤ length cells.now }
    ensures value { result ≡ length (row_lines kinds.now
        (rows_in (length kinds.now) rows cells.now)) }
    ensures inside { result ≤ 96 * 999_999_999_999 }
{
    let w = kinds.len();
    let mut n = 0;
    for i in 0..rows {
        n += row_length(kinds, &cells[i * w..i * w + w]);
    }
    n
}

// Writes the lines of the first rows in the cells. The place behind them.
fn put_rows(out: &mut [u8], at: usize, kinds: &[u8], cells: &[u32], rows: usize) -> usize
    requires kinds_in_bounds { rows * length kinds.now ≤ length cells.now }
    requires cells_in_bounds { at + length (row_lines kinds.now (rows_in (length kinds.now) rows cells.now))
        ≤ length out.old }
    ensures value { result ≡ at + length (row_lines kinds.now
        (rows_in (length kinds.now) rows cells.now)) }
    ensures out_after { out.new ≡ written at (row_lines kinds.now
        (rows_in (length kinds.now) rows cells.now)) out.old }
{
    let w = kinds.len();
    let mut end = at;
    for i in 0..rows {
        end = put_row(out, end, kinds, &cells[i * w..i * w + w]);
    }
    end
}

// How many bytes the head line of an answer has.
fn head_length(serial: u32, rows: usize) -> usize
    ensures value { result ≡ length (head_line serial rows) }
    ensures inside { result ≤ 49 }
{
    decimal_length(index(serial)) + decimal_length(rows) + 9
}

// Writes the head line of an answer in front. The place behind it.
fn put_head(out: &mut [u8], serial: u32, rows: usize) -> usize
    requires { length (head_line serial rows) ≤ length out.old }
    ensures value { result ≡ 0 + length (head_line serial rows) }
    ensures out_after { out.new ≡ written 0 (head_line serial rows) out.old }
{
    let mut at = put_words(out, 0, b"Q ", index(serial));
    at = put_words(out, at, b" rows ", rows);
    put_byte(out, at, b'\n')
}

// Whether each kind is one of the four.
fn all_known(kinds: &[u8]) -> bool
    ensures { result ≡ all_known kinds.now }
{
    kinds.iter().all(|kind| *kind < 4)
}

// Whether each cell of a row is in its kind's range.
fn row_fits(kinds: &[u8], row: &[u32]) -> bool
    requires { length kinds.now ≤ length row.now }
    ensures { result ≡ row_fits kinds.now row.now }
{
    kinds
        .iter()
        .zip(row)
        .all(|(kind, cell)| values::in_range(*kind, *cell))
}

// Whether each cell of the first rows is in its kind's range.
fn rows_fit(kinds: &[u8], cells: &[u32], rows: usize) -> bool
    requires { rows * length kinds.now ≤ length cells.now }
    ensures { result ≡ rows_fit kinds.now
        (rows_in (length kinds.now) rows cells.now) }
{
    let w = kinds.len();
    for i in 0..rows {
        if !row_fits(kinds, &cells[i * w..i * w + w]) {
            return false;
        }
    }
    true
}

// Whether an answer is fit to print.
pub fn is_fit(rows: usize, kinds: &[u8], cells: &[u32]) -> bool
    ensures { result ≡ fits rows kinds.now cells.now }
{
    let w = kinds.len();
    if w < 1 {
        return false;
    }
    if 8 < w {
        return false;
    }
    if !all_known(kinds) {
        return false;
    }
    if 999999999999 < rows {
        return false;
    }
    if cells.len() < rows * w {
        return false;
    }
    rows_fit(kinds, cells, rows)
}

// Prints an answer: the head line with its new serial and row count, then a line for each row of the cells, each cell
// by the kind of its item. A caller that lends `ROOM` bytes has room for every answer in 8,192 cells.
pub fn print_answer(
    serial: u32,
    rows: usize,
    kinds: &[u8],
    cells: &[u32],
    out: &mut [u8],
) -> Result<usize, Unprinted>
    ensures value { result ≡ answer_printed serial rows kinds.now cells.now out.old }
    ensures out_after { out.new
        ≡ after_answer serial rows kinds.now cells.now out.old }
{
    if !is_fit(rows, kinds, cells) {
        return Err(Unprinted::NotFit);
    }
    let size = head_length(serial, rows) + rows_length(kinds, cells, rows);
    if out.len() < size {
        return Err(Unprinted::NoRoom);
    }
    let at = put_head(out, serial, rows);
    Ok(put_rows(out, at, kinds, cells, rows))
}

// Prints a text as it is.
pub fn print_text(text: &[u8], out: &mut [u8]) -> Result<usize, Unprinted>
    ensures value { result ≡ printed text.now out.old }
    ensures out_after { out.new ≡ after text.now out.old }
{
    if out.len() < text.len() {
        return Err(Unprinted::NoRoom);
    }
    Ok(put_text(out, 0, text))
}

// Prints a line of some words, a space behind each, and a number.
fn print_refusal(words: &[u8], number: u8, out: &mut [u8]) -> Result<usize, Unprinted>
    requires { length words.now ≤ 14 }
    ensures value { result ≡ printed (words.now ++ decimal number ++ 10 ∷ []) out.old }
    ensures out_after { out.new ≡ after (words.now ++ decimal number ++ 10 ∷ []) out.old }
{
    let x = usize::from(number);
    let n = words.len() + decimal_length(x) + 1;
    if out.len() < n {
        return Err(Unprinted::NoRoom);
    }
    let at = put_words(out, 0, words, x);
    Ok(put_byte(out, at, b'\n'))
}

// Prints that a book is refused, by its number.
pub fn print_book_refusal(number: u8, out: &mut [u8]) -> Result<usize, Unprinted>
    ensures value { result ≡ printed (book_refused number) out.old }
    ensures out_after { out.new ≡ after (book_refused number) out.old }
{
    print_refusal(b"book refused ", number, out)
}

// Prints that a query is refused, by its number.
pub fn print_query_refusal(number: u8, out: &mut [u8]) -> Result<usize, Unprinted>
    ensures value { result ≡ printed (query_refused number) out.old }
    ensures out_after { out.new ≡ after (query_refused number) out.old }
{
    print_refusal(b"query refused ", number, out)
}
