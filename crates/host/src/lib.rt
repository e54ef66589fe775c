// The operations for a host program: the crate host_c exports each to C under its name, and include/vingarbu.h declares
// them. Each gives back a status; the rest of what it gives goes into cells that the caller lends. A status other than 0
// says that nothing was changed.
#![tactic(auto)]

ghost use Rattle.std.specs.Prelude.{◌≡◌, ◌≤◌, Err, length};
ghost use Rattle.refusals.specs.Refusals.{number_of};
ghost use Rattle.host.specs.Results.{answer_status, answer_results, answer_space, give_status, give_results};
ghost use Rattle.host.specs.Results.{given_status, given_results, given_bytes, sheet_status, sheet_results};
ghost use Rattle.host.specs.Words.{words_of, words_printed, words_after};
ghost use Rattle.printout.specs.Printing.{printed, after, answer_printed, after_answer};
ghost use Rattle.run.specs.Items.{item_kinds_of};
ghost use Rattle.sheets.specs.Sheets.{sheet_count, sheet_number, after_sheet};

use printout::Unprinted;
use refusals::Refusal;

// Statuses: done; lent cells or bytes are too few; nothing that could be printed.
const DONE: u32 = 0;

const SHORT: u32 = 1;

const NOT_FIT: u32 = 2;

// Answers a query over the bytes of a book. Four results: the number of the refusal or 0, the row count, the serial,
// the bytes of the query that were read.
pub fn vingarbu_answer(
    book: &[u8],
    query: &[u8],
    serial: u32,
    space: &mut [u32],
    results: &mut [u64],
) -> u32
    ensures value { result ≡ answer_status results.old }
    ensures space_after { space.new ≡ answer_space book.now query.now serial
        space.old results.old }
    ensures results_after { results.new ≡ answer_results book.now query.now serial
        (length space.old) results.old }
{
    if results.len() < 4 {
        return SHORT;
    }
    let a = answer::answer_bytes(book, query, serial, space);
    results[0] = u64::from(refusals::number(a.refusal));
    results[1] = a.rows as u64;
    results[2] = u64::from(a.serial);
    results[3] = a.read as u64;
    DONE
}

// Why no bytes were given, as a status.
#[tactic(auto, unfolding(crate::specs::Results::give_status))]
fn status_of(reason: Unprinted) -> u32
    ensures { result ≡ give_status (Err reason) }
{
    match reason {
        Unprinted::NoRoom => SHORT,
        Unprinted::NotFit => NOT_FIT,
    }
}

// What was given as bytes, as a status; how many bytes they are is the result.
fn report(p: Result<usize, Unprinted>, results: &mut [u64]) -> u32
    requires { 1 ≤ length results.old }
    ensures value { result ≡ give_status p }
    ensures results_after { results.new ≡ give_results p results.old }
{
    match p {
        Ok(n) => {
            results[0] = n as u64;
            DONE
        }
        Err(reason) => status_of(reason),
    }
}

// The value kinds of the items of a query over the bytes of a book, in the order of the items: none where one of the
// two is refused for itself. One result: how many they are.
pub fn vingarbu_kinds(book: &[u8], query: &[u8], kinds: &mut [u8], results: &mut [u64]) -> u32
    ensures value { result ≡ given_status (printed (item_kinds_of book.now query.now)
        kinds.old) results.old }
    ensures kinds_after { kinds.new ≡ given_bytes (after (item_kinds_of book.now query.now)
        kinds.old) kinds.old results.old }
    ensures results_after { results.new ≡ given_results (printed (item_kinds_of book.now query.now)
        kinds.old) results.old }
{
    if results.len() < 1 {
        return SHORT;
    }
    let k = run::item_kinds(book, query);
    let found = k.kinds;
    let n: usize = k.items;
    let p = printout::print_text(&found[..n], kinds);
    report(p, results)
}

// Prints an answer: its serial, so many rows of items of these value kinds, and their cells. One result: how many bytes
// were printed.
pub fn vingarbu_print(
    serial: u32,
    rows: u64,
    kinds: &[u8],
    cells: &[u32],
    out: &mut [u8],
    results: &mut [u64],
) -> u32
    ensures value { result ≡ given_status (answer_printed serial rows kinds.now cells.now
        out.old) results.old }
    ensures out_after { out.new ≡ given_bytes (after_answer serial rows kinds.now cells.now
        out.old) out.old results.old }
    ensures results_after { results.new ≡ given_results (answer_printed serial rows kinds.now
        cells.now out.old) results.old }
{
    if results.len() < 1 {
        return SHORT;
    }
    let p = printout::print_answer(serial, rows as usize, kinds, cells, out);
    report(p, results)
}

// The words for a refusal. The table is in docs/REFUSALS.md.
#[tactic(auto, unfolding(crate::specs::Words::words))]
fn words_for(refusal: Refusal) -> &'static [u8]
    ensures { result.now ≡ words_of (number_of refusal) }
{
    match refusal {
        Refusal::TooManyBytes => b"too many bytes",
        Refusal::KindNotAllowed => b"kind not allowed",
        Refusal::CutShort => b"record cut short",
        Refusal::TooManyOfItsKind => b"too many of its kind",
        Refusal::OutOfRange => b"field out of range",
        Refusal::DeclaredAlready => b"declared already",
        Refusal::NotDeclared => b"not declared",
        Refusal::CyclicMaximalObject => b"cycle in a maximal object",
        Refusal::NoItem => b"no item",
        Refusal::OperatorNotAllowed => b"operator not allowed",
        Refusal::NoConnection => b"no connection",
        Refusal::SpaceTooSmall => b"space too small",
        Refusal::LastSerialNumber => b"last serial number",
        Refusal::SheetNotPrintable => b"sheet cannot be printed",
        Refusal::NoSuchSheet => b"no such sheet number",
        Refusal::WrongComparisonTable => b"wrong comparison table",
        Refusal::RemovedWithOnlyDeclared => b"kinds 6 and 14 together",
    }
}

// Prints the words for the number of a refusal; there are none for any other number.
fn print_words(number: u32, out: &mut [u8]) -> Result<usize, Unprinted>
    ensures value { result ≡ words_printed number out.old }
    ensures out_after { out.new ≡ words_after number out.old }
{
    match Refusal::from_number(number) {
        Some(refusal) => printout::print_text(words_for(refusal), out),
        None => Err(Unprinted::NotFit),
    }
}

// A few words for the number of a refusal. One result: how many bytes they are.
pub fn vingarbu_refusal_text(number: u32, out: &mut [u8], results: &mut [u64]) -> u32
    ensures value { result ≡ given_status (words_printed number out.old) results.old }
    ensures out_after { out.new ≡ given_bytes (words_after number out.old) out.old
        results.old }
    ensures results_after { results.new ≡ given_results (words_printed number out.old)
        results.old }
{
    if results.len() < 1 {
        return SHORT;
    }
    let p = print_words(number, out);
    report(p, results)
}

// Prints one sheet of an answer, by its number from 1, in the first 3,880 bytes. One result: 0, or 18 where the sheet cannot
// be printed, or 19 where the answer has no such sheet.
pub fn vingarbu_sheet(
    serial: u32,
    rows: u64,
    kinds: &[u8],
    cells: &[u32],
    number: u64,
    out: &mut [u8],
    results: &mut [u64],
) -> u32
    ensures value { result ≡ sheet_status results.old }
    ensures out_after { out.new ≡ given_bytes (after_sheet serial rows kinds.now cells.now number
        out.old) out.old results.old }
    ensures results_after { results.new ≡ sheet_results (sheet_number rows kinds.now cells.now number
        out.old) results.old }
{
    if results.len() < 1 {
        return SHORT;
    }
    let refusal = sheets::sheet(serial, rows as usize, kinds, cells, number, out).err();
    results[0] = u64::from(refusals::number(refusal));
    DONE
}

// How many sheets an answer of so many rows has.
pub fn vingarbu_sheets(rows: u64) -> u64
    ensures { result ≡ sheet_count rows }
{
    sheets::sheets(rows as usize)
}
