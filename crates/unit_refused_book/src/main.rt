// The unit on a book with a cycle, beside a query that would be answered: "A refused book prints `book refused N`
// only".
#![tactic(auto)]

fn main(rt: HostRuntime) {
    program::run_unit(&rt);
}
