// A set of ids below n, in a slice of rows: a row of n bits, one an id, and, where that is more than one word, behind it the set of those
// words of the row that are not 0. So the lowest id is found in one look a row. In 2n words there is room for all rows.
// Each function asks for the set's form (`Tree`): a type that has it would ask more of those who call them by these names.
#![tactic(auto)]

ghost use Rattle.std.specs.Prelude.{◌≡◌, true, false, not, ◌<◌, ◌≤◌, eqb};
ghost use Rattle.record.specs.Lists.{run};
ghost use Rattle.forest.specs.Lists.{lowest};
ghost use Rattle.ready.specs.Tree.{words, word, member, Tree, Changed};

// The bits of a word.
const WIDTH: usize = 32;

// Puts i into the set; leaves every other id and every word outside the rows alone.
pub fn put(rows: &mut [u32], n: usize, i: usize)
    requires i_lt_n { i < n }
    requires tree { Tree rows.old n }
    ensures { Changed true rows.old rows.new n i }
{
    let k = i / WIDTH;
    let old = rows[k];
    rows[k] = old | (1 << (i % WIDTH));
    if (n <= WIDTH) | (0 < old) {
        return;
    }
    let words = (n - 1) / WIDTH + 1;
    put(&mut rows[words..], words, k);
}

// Takes i out of the set; leaves every other id and every word outside the rows alone.
// It stays beside `put`: one function for both is no plainer, as each looks at another word to see whether the row above changes.
pub fn remove(rows: &mut [u32], n: usize, i: usize)
    requires i_lt_n { i < n }
    requires tree { Tree rows.old n }
    ensures { Changed false rows.old rows.new n i }
{
    let k = i / WIDTH;
    let old = rows[k];
    let rest = old ^ (old & (1 << (i % WIDTH)));
    rows[k] = rest;
    if (n <= WIDTH) | (0 < rest) {
        return;
    }
    let words = (n - 1) / WIDTH + 1;
    remove(&mut rows[words..], words, k);
}

// The first word of a row that is not 0.
#[cycle(first_word_lowest)]
fn first_word(rows: &[u32], n: usize) -> Option<usize>
    requires le_n { 1 ≤ n }
    requires tree { Tree rows.now n }
    ensures { result ≡ lowest (λ k. not (eqb (word rows.now k) 0)) (run 0 (words n)) }
{
    if WIDTH < n {
        let words = (n - 1) / WIDTH + 1;
        return lowest(&rows[words..], words);
    }
    if rows[0] == 0 {
        return None;
    }
    Some(0)
}

// The lowest id in the set, from one look at each row.
#[cycle(first_word_lowest)]
pub fn lowest(rows: &[u32], n: usize) -> Option<usize>
    requires le_n { 1 ≤ n }
    requires tree { Tree rows.now n }
    ensures { result ≡ lowest (member rows.now n) (run 0 n) }
{
    let k = first_word(rows, n)?;
    Some(WIDTH * k + u32::trailing_zeros(rows[k]) as usize)
}
