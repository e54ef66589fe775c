// The trials that a program checks: what it writes is held to the file stdout, which is written from the paper.
#![tactic(auto)]

mod books_trial;
mod host_trial;
mod queries_trial;
mod sets_trial;
mod values_trial;

fn main(rt: HostRuntime) {
    sets_trial::containment(&rt);
    values_trial::operators(&rt);
    values_trial::ranges(&rt);
    values_trial::gaps(&rt);
    values_trial::orders(&rt);
    values_trial::matches(&rt);
    values_trial::comparisons(&rt);
    let mut input = [0u8; 65536];
    let n = console::read_full(&rt, &mut input);
    books_trial::books(&rt, &input[..n]);
    books_trial::full(&rt);
    queries_trial::full(&rt);
    host_trial::words(&rt);
    host_trial::rows(&rt);
    host_trial::refusals(&rt);
}
