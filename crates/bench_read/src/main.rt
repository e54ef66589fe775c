// Reads the book of standard input a thousand times, for bench/read_book.sh to time, and writes what the last reading
// found.
#![tactic(auto)]

fn readings(bytes: &[u8], times: u32) -> usize {
    let mut directory = [0u32; 2520];
    let mut rows: usize = 0;
    for _ in 0..times {
        let found = book::read(bytes, &mut directory);
        rows = found.rows;
    }
    rows
}

fn main(rt: HostRuntime) {
    let mut input = [0u8; 65536];
    let n = console::read_full(&rt, &mut input);
    let rows = readings(&input[..n], 1000);
    console::word(&rt, b"rows ");
    console::number(&rt, rows);
    console::put(&rt, b'\n');
}
