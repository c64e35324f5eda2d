// The demonstration with a byte of table too many, and a part word in `roots`, which is looked at later.
#![tactic(auto)]

use std::io;

fn main(rt: HostRuntime) -> io::Result<()> {
    demonstration::run(&rt)
}
