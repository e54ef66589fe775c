// The unit on a book of 65,537 bytes: "Over 65,536 bytes: 1." The bytes before the last are a book of the same answers
// as the paper's: its records, its maximal object declared four times, one of its rows over and over.
#![tactic(auto)]

fn main(rt: HostRuntime) {
    program::run_unit(&rt);
}
