// The demonstration on K4 with a byte more in `roots`.
#![tactic(auto)]

use std::io;

fn main(rt: HostRuntime) -> io::Result<()> {
    demonstration::run(&rt)
}
