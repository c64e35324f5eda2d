// Document 01's examples of Validate and Canonicalize, and cases at the boundaries: they stand in `stdin`.
#![tactic(auto)]

use std::io;

fn main(rt: HostRuntime) -> io::Result<()> {
    cases::run(&rt)
}
