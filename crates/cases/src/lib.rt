// Runs the cases on standard input, a line each: lends marked buffers, compares the reply and every buffer afterwards, counts.
// Each program that calls it is a crate, as `rt` has it: its input and output stand in files beside it.
// A line `= validate`, `= canonicalize` or `= merge` says what the cases below it call. A line that begins with # is a remark.
#![tactic(auto)]

mod buffers;
mod canonicalizes;
mod compare;
mod merges;
mod text;
mod validates;

use compare::Fault;
use std::io;

// How many bytes of cases there may be.
const MOST: usize = 65536;

// What cases call: Merge, where no line names another.
#[derive(Clone, Copy, Default)]
enum Call {
    Validate,
    Canonicalize,
    #[default]
    Merge,
}

impl Call {
    // What a line `= NAME` says is called.
    fn named(line: &[u8]) -> Self {
        match line {
            [_, _, b'v', ..] => Call::Validate,
            [_, _, b'c', ..] => Call::Canonicalize,
            _ => Call::Merge,
        }
    }

    // Runs a case.
    fn run(self, case: &[u8]) -> Result<(), Fault> {
        match self {
            Call::Validate => validates::run(case),
            Call::Canonicalize => canonicalizes::run(case),
            Call::Merge => merges::run(case),
        }
    }
}

// What is called, how many cases were run, and how many were as they should be.
#[derive(Clone, Copy, Default)]
struct Tally {
    call: Call,
    cases: u64,
    right: u64,
}

impl Tally {
    // Runs a case, writes its line, and counts it.
    fn run(&mut self, rt: &impl Print, case: &[u8]) -> io::Result<()> {
        compare::write_name(rt, case)?;
        let found = self.call.run(case);
        self.cases = self.cases.saturating_add(1);
        self.right = self.right.saturating_add(u64::from(found.is_ok()));
        compare::write_found(rt, found)
    }

    // Takes a line: nothing, a remark, what is called, or a case.
    fn take(&mut self, rt: &impl Print, line: &[u8]) -> io::Result<()> {
        match line {
            [] | [b'#', ..] => Ok(()),
            [b'=', ..] => {
                self.call = Call::named(line);
                Ok(())
            }
            _ => self.run(rt, line),
        }
    }
}

// Runs the cases on standard input: a line for each, then a count.
pub fn run(rt: &(impl Input + Print)) -> io::Result<()> {
    let mut lines = [0; MOST];
    let n = reading::read_full(&mut rt.reader(), &mut lines)?;
    if n == MOST {
        return println!(rt; "too many cases");
    }
    let mut tally = Tally::default();
    for line in lines[..n].split(|&c| c == b'\n') {
        tally.take(rt, line)?;
    }
    println!(rt; "{} of {} cases ok", tally.right, tally.cases)
}
