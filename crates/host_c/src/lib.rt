// The operations for a host program in C: include/vingarbu.h declares them. Each is the function of the same name of the
// crate host, and promises what that one promises.
#![tactic(auto)]

ghost use Rattle.std.specs.Prelude.{◌≡◌, length};
ghost use Rattle.host.specs.Results.{answer_status, answer_results, answer_space};
ghost use Rattle.host.specs.Results.{given_status, given_results, given_bytes, sheet_status, sheet_results};
ghost use Rattle.host.specs.Words.{words_printed, words_after};
ghost use Rattle.printout.specs.Printing.{printed, after, answer_printed, after_answer};
ghost use Rattle.run.specs.Items.{item_kinds_of};
ghost use Rattle.sheets.specs.Sheets.{sheet_count, sheet_number, after_sheet};

// Answers a query over the bytes of a book. Four results: the number of the refusal or 0, the row count, the serial,
// the bytes of the query that were read.
#[unsafe(no_mangle)]
pub extern "C" fn vingarbu_answer(
    book: &[u8],
    query: &[u8],
    serial: u32,
    space: &mut [u32],
    results: &mut [u64],
) -> u32
    ensures value { result ≡ answer_status results.old }
    ensures space_after { space.new ≡ answer_space book.now query.now serial
        space.old results.old }
    ensures results_after { results.new ≡ answer_results book.now query.now serial
        (length space.old) results.old }
{
    host::vingarbu_answer(book, query, serial, space, results)
}

// The value kinds of the items of a query over the bytes of a book, in the order of the items: none where one of the
// two is refused for itself. One result: how many they are.
#[unsafe(no_mangle)]
pub extern "C" fn vingarbu_kinds(
    book: &[u8],
    query: &[u8],
    kinds: &mut [u8],
    results: &mut [u64],
) -> u32
    ensures value { result ≡ given_status (printed (item_kinds_of book.now query.now)
        kinds.old) results.old }
    ensures kinds_after { kinds.new ≡ given_bytes (after (item_kinds_of book.now query.now)
        kinds.old) kinds.old results.old }
    ensures results_after { results.new ≡ given_results (printed (item_kinds_of book.now query.now)
        kinds.old) results.old }
{
    host::vingarbu_kinds(book, query, kinds, results)
}

// Prints an answer: its serial, so many rows of items of these value kinds, and their cells. One result: how many bytes
// were printed.
#[unsafe(no_mangle)]
pub extern "C" fn vingarbu_print(
    serial: u32,
    rows: u64,
    kinds: &[u8],
    cells: &[u32],
    out: &mut [u8],
    results: &mut [u64],
) -> u32
    ensures value { result ≡ given_status (answer_printed serial rows kinds.now cells.now
        out.old) results.old }
    ensures out_after { out.new ≡ given_bytes (after_answer serial rows kinds.now cells.now
        out.old) out.old results.old }
    ensures results_after { results.new ≡ given_results (answer_printed serial rows kinds.now
        cells.now out.old) results.old }
{
    host::vingarbu_print(serial, rows, kinds, cells, out, results)
}

// A few words for the number of a refusal. One result: how many bytes they are.
#[unsafe(no_mangle)]
pub extern "C" fn vingarbu_refusal_text(number: u32, out: &mut [u8], results: &mut [u64]) -> u32
    ensures value { result ≡ given_status (words_printed number out.old) results.old }
    ensures out_after { out.new ≡ given_bytes (words_after number out.old) out.old
        results.old }
    ensures results_after { results.new ≡ given_results (words_printed number out.old)
        results.old }
{
    host::vingarbu_refusal_text(number, out, results)
}

// Prints one sheet of an answer, by its number from 1, in the first 3,880 bytes. One result: 0, or 18 where the sheet cannot
// be printed, or 19 where the answer has no such sheet.
#[unsafe(no_mangle)]
pub extern "C" fn vingarbu_sheet(
    serial: u32,
    rows: u64,
    kinds: &[u8],
    cells: &[u32],
    number: u64,
    out: &mut [u8],
    results: &mut [u64],
) -> u32
    ensures value { result ≡ sheet_status results.old }
    ensures out_after { out.new ≡ given_bytes (after_sheet serial rows kinds.now cells.now number
        out.old) out.old results.old }
    ensures results_after { results.new ≡ sheet_results (sheet_number rows kinds.now cells.now number
        out.old) results.old }
{
    host::vingarbu_sheet(serial, rows, kinds, cells, number, out, results)
}

// How many sheets an answer of so many rows has.
#[unsafe(no_mangle)]
pub extern "C" fn vingarbu_sheets(rows: u64) -> u64
    ensures { result ≡ sheet_count rows }
{
    host::vingarbu_sheets(rows)
}
