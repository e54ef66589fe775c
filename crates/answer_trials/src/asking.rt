// Each line of standard input has a name, a colon and numbers in decimal, the records parted by strokes. A line that
// begins with b has the bytes of a book; any other has a serial number, a count of cells and the bytes of a query over
// the last book. The functions that only write promise nothing: what they write is held to the file stdout.
ghost use Rattle.std.specs.Prelude.{◌≡◌, ◌≤◌, length};

// As many cells as the space of a trial may have.
const CELLS: usize = 40;

// Writes what a query over a book gives: the number, the count of rows, the serial number, the bytes read, and every
// cell of the space.
fn ask(rt: &impl Print, book: &[u8], query: &[u8], serial: u32, space: &mut [u32]) {
    let answer = answer::answer_bytes(book, query, serial, space);
    console::put(rt, b':');
    console::spaced(rt, refusals::number(answer.refusal));
    console::spaced(rt, answer.rows);
    console::spaced(rt, answer.serial);
    console::spaced(rt, answer.read);
    console::word(rt, b" /");
    console::list(rt, space);
    console::put(rt, b'\n');
}

// A number as a count.
fn count(n: u32) -> usize
    ensures { result ≡ n }
{
    n as usize
}

// The query of a line over the book, in a space of cells that are 99 each.
fn ask_numbers(rt: &impl Print, book: &[u8], numbers: &[u32]) {
    let [serial, cells, bytes @ ..] = numbers else {
        return;
    };
    let cells = count(*cells);
    if cells > CELLS {
        return;
    }
    let mut space = [99u32; CELLS];
    let mut query = [0u8; 2048];
    let n = console::bytes_of(bytes, &mut query);
    ask(rt, book, &query[..n], *serial, &mut space[..cells]);
}

// One line, without the line feed at its end: how many bytes the book has after it.
fn show_line(rt: &impl Print, line: &[u8], book: &mut [u8], held: usize) -> usize
    requires { held ≤ length book.old }
    ensures { result ≤ length book.new }
{
    let colon = console::find(line, b':');
    let mut numbers = [0u32; 2048];
    let n = console::numbers_of(&line[colon..], &mut numbers);
    let found = &numbers[..n];
    console::word(rt, &line[..colon]);
    if line.first() == Some(&b'b') {
        console::put(rt, b'\n');
        return console::bytes_of(found, book);
    }
    ask_numbers(rt, &book[..held], found);
    held
}

// Every line of the text.
pub fn lines(rt: &impl Print, s: &[u8]) {
    let mut book = [0u8; 2048];
    let mut held: usize = 0;
    let mut from: usize = 0;
    while from < s.len() {
        let end = from + console::find(&s[from..], b'\n');
        held = show_line(rt, &s[from..end], &mut book, held);
        from = end + 1;
    }
}

// One attribute and object 0 of it, with no row.
const BOOK: [u8; 9] = [1, 0, 0, 2, 0, 1, 0, 0, 0];

// An item and kind 10.
const QUERY: [u8; 4] = [7, 0, 0, 10];

// A query of an item and kind 10 with zeros behind it, of 65,536 bytes and of one more; then these bytes as a book.
pub fn at_the_bound(rt: &impl Print) {
    let mut out = [0u8; 65537];
    out[0] = 7;
    out[3] = 10;
    let mut space = [99u32; 2];
    console::word(rt, b"query of 65536 bytes");
    ask(rt, &BOOK, &out[..65536], 0, &mut space);
    console::word(rt, b"query of 65537 bytes");
    ask(rt, &BOOK, &out, 4294967295, &mut space);
    console::word(rt, b"book of 65536 bytes, kind 7 in front");
    ask(rt, &out[..65536], &QUERY, 0, &mut space);
    console::word(rt, b"book of 65537 bytes, kind 7 in front");
    ask(rt, &out, &QUERY, 4294967295, &mut space);
}

// The attributes 0 and 1, the objects 0, 1 and 2 of them, and two declared maximal objects, of 0 and 1 and of 0 and 2,
// with no row.
fn products() -> [u8; 5260] {
    let mut book = [0u8; 5260];
    book[0] = 1;
    book[3] = 1;
    book[4] = 1;
    book[6] = 2;
    book[8] = 1;
    book[12] = 2;
    book[13] = 1;
    book[14] = 2;
    book[18] = 2;
    book[19] = 2;
    book[20] = 2;
    book[24] = 5;
    book[25] = 3;
    book[29] = 5;
    book[30] = 5;
    book
}

// Both attributes of variable 0, whose second is 200 and whose first is that of variable 1, which is 7.
const IN_PRODUCTS: [u8; 29] = [
    7, 0, 0, 7, 0, 1, 9, 0, 1, 0, 200, 0, 0, 0, 8, 0, 0, 0, 1, 0, 9, 1, 0, 0, 7, 0, 0, 0, 10,
];

// A variable whose connection has more rows than there is room for: objects 0 and 1 have a hundred rows each, and their
// product is in the first maximal object. The row asked for is in the second.
pub fn past_the_pools(rt: &impl Print) {
    let mut book = products();
    book[5234] = 4;
    book[5235] = 2;
    book[5236] = 200;
    for cell in 0..100u8 {
        let at = 34 + 52 * usize::from(cell);
        book[at] = 4;
        book[at + 2] = cell;
        book[at + 26] = 4;
        book[at + 27] = 1;
        book[at + 28] = cell;
    }
    let mut space = [99u32; 3];
    console::word(rt, b"connection that does not fit");
    ask(rt, &book, &IN_PRODUCTS, 0, &mut space);
}
