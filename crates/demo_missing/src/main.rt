// The demonstration without `roots`, and a byte of table too many, which is looked at later.
#![tactic(auto)]

use std::io;

fn main(rt: HostRuntime) -> io::Result<()> {
    demonstration::run(&rt)
}
