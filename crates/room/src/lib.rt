// Sections of a lent work room: clearing and copying them. These names stand in docs/CONTRACTS.md, so each stays beside the slice's own method.
#![tactic(auto)]

ghost use Rattle.std.specs.Prelude.{◌≡◌, ◌+◌, ◌≤◌, length, replicate};
ghost use Rattle.room.specs.Sections.{span, Apart, Puts};

// Sets every word to 0.
pub fn clear(work: &mut [u32])
    ensures { work.new ≡ replicate (length work.old) 0 }
{
    let count = work.len();
    clear_part(work, 0, count);
}

// Sets the `count` words from `at` on to 0; all else stays.
pub fn clear_part(work: &mut [u32], at: usize, count: usize)
    requires { at + count ≤ length work.old }
    ensures { Puts (replicate count 0) work.old work.new at count }
{
    work[at..at + count].fill(0);
}

// Copies the `count` words from `from` on to a section that lies apart; all else stays.
pub fn copy(work: &mut [u32], from: usize, to: usize, count: usize)
    requires count_in_bounds { from + count ≤ length work.old }
    requires count_in_bounds_2 { to + count ≤ length work.old }
    requires apart { Apart from to count }
    ensures { Puts (span work.old from (from + count)) work.old work.new to count }
{
    work.copy_within(from..from + count, to);
}
