// A fixed list of cases with the Rust's answers: they stand in `stdin`.
#![tactic(auto)]

use std::io;

fn main(rt: HostRuntime) -> io::Result<()> {
    cases::run(&rt)
}
