// The demonstration on example K4: merges the files `table`, `nodes` and `roots`.
#![tactic(auto)]

use std::io;

fn main(rt: HostRuntime) -> io::Result<()> {
    demonstration::run(&rt)
}
