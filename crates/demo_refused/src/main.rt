// The demonstration on K6: a cycle, which is refused.
#![tactic(auto)]

use std::io;

fn main(rt: HostRuntime) -> io::Result<()> {
    demonstration::run(&rt)
}
