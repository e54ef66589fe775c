// Answers to queries over books of standard input, each with its serial number and its space of cells. What is written
// is held to the file stdout, which is written from the paper.
#![tactic(auto)]

mod asking;

// The lines of standard input, then the trials that are too long for a line.
fn main(rt: HostRuntime) {
    let mut input = [0u8; 65536];
    let n = console::read_full(&rt, &mut input);
    asking::lines(&rt, &input[..n]);
    asking::at_the_bound(&rt);
    asking::past_the_pools(&rt);
}
