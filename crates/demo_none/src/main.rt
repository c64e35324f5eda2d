// The demonstration on K5: one position is not in the result.
#![tactic(auto)]

use std::io;

fn main(rt: HostRuntime) -> io::Result<()> {
    demonstration::run(&rt)
}
