// The order of a forest's nodes: externals by digest, blocks by id, then internals, always the lowest whose children are all in the order.
ghost use Rattle.std.specs.Prelude.{◌≡◌, true, ◌+◌, ◌*◌, ◌/◌, ◌<◌, ◌≤◌, length, take, get_or};
ghost use Rattle.record.specs.Node.{size, nodes_of};
ghost use Rattle.forest.specs.Order.{ready, begun as begun_of, order as order_of};
ghost use Rattle.forest.specs.Lent.{work_words, most};
ghost use Rattle.room.specs.Sections.{span};
ghost use Rattle.ready.specs.Tree.{Tree};
ghost use Rattle.dense_order.specs.Kinds.{Space, Members, Blank, Externals, Kept, Ordered};
ghost use Rattle.dense_order.specs.Marks.{Unmarked};
ghost use Rattle.dense_order.specs.State.{Fair, Chained, Standing, Resolved, Appends, Begun, Released, Enlisted, Links, Fresh};

use crate::deliver;
use record::{Class, FIELDS};

// The sections of the work room: order, marks, heads and counts of a word each id, two words of rows for the ready ids, and the links, one a
// child field. They are lent as words, so marks, heads and links are numbers, and 0 is none.
// What a function writes it takes as slices: with a struct of `&mut`s each contract would have to say which of them stay.
// The order is lent whole and filled from the front, so how many stand in it goes along: a `Vec` would take a heap.
// Where the whole room is handed on, `n` goes along: not all are lent the nodes, and a division in each call costs time.

// The mentions of each child: where its chain begins, and the link from each to the one before it.
#[derive(Clone, Copy)]
struct Mentions<'a> {
    heads: &'a [u32],
    links: &'a [u32],
}

// Lists the ids of one class; says how many they are.
fn list_class(nodes: &[u8], list: &mut [u32], class: Class) -> usize
    requires { Space nodes.now list.old }
    ensures { Members nodes.now list.old list.new class result }
{
    // A chain of `filter` and `zip` would write the same, but not say how many it writes.
    let mut count = 0;
    for p in 0..nodes.len() / record::SIZE {
        if record::class_of(record::kind_at(nodes, p)) != class {
            continue;
        }
        list[count] = p as u32;
        count += 1;
    }
    count
}

// Lists the externals by digest in a room of zeros; says how many they are.
pub(crate) fn list_externals(nodes: &[u8], work: &mut [u32], n: usize) -> usize
    requires { Blank nodes.now work.old n }
    ensures { Externals nodes.now work.new n result }
{
    let count = list_class(nodes, work, Class::External);
    let (front, spare) = work.split_at_mut(2 * n);
    sorting::sort_by_digest(nodes, &mut front[..count], &mut spare[..count]);
    count
}

// Counts one of p's children off; p is ready after the last.
fn resolve(counts: &mut [u32], rows: &mut [u32], p: usize)
    requires p_lt_n { p < length counts.old }
    requires nonzero { 0 < get_or counts.old p 0 }
    requires tree { Tree rows.old (length counts.old) }
    ensures { Resolved counts.old counts.new rows.old rows.new (length counts.old) p }
{
    let left = counts[p] - 1;
    counts[p] = left;
    if 0 < left {
        return;
    }
    ready::put(rows, counts.len(), p);
}

// Settles the id at place t of the order: each mention of it is counted off.
#[tactic(auto, using(crate::proofs::Settling::next_is))]
fn settle(
    nodes: &[u8],
    order: &[u32],
    mentions: Mentions,
    counts: &mut [u32],
    rows: &mut [u32],
    t: usize,
)
    requires standing { Standing nodes.now order.now mentions.heads.now mentions.links.now counts.old rows.old (length nodes.now / size) t }
    requires t_lt_filled { t < length order.now }
    ensures { Standing nodes.now order.now mentions.entry.heads.now mentions.entry.links.now counts.new rows.new (length nodes.now / size) (t + 1) }
{
    let mut at = mentions.heads[order[t] as usize] as usize;
    // A chain through the links, whose next place is read on the way: there is nothing to count or to go over.
    while 0 < at {
        let mention = at - 1;
        resolve(counts, rows, mention / FIELDS);
        at = mentions.links[mention] as usize;
    }
}

// Settles all ids of the order.
fn settle_all(nodes: &[u8], order: &[u32], mentions: Mentions, counts: &mut [u32], rows: &mut [u32])
    requires { Standing nodes.now order.now mentions.heads.now mentions.links.now counts.old rows.old (length nodes.now / size) 0 }
    ensures { Standing nodes.now order.now mentions.entry.heads.now mentions.entry.links.now counts.new rows.new (length nodes.now / size) (length order.now) }
{
    for t in 0..order.len() {
        settle(nodes, order, mentions, counts, rows, t);
    }
}

// Takes the ready id p into the order, behind `filled` others, and settles it.
fn append(
    nodes: &[u8],
    order: &mut [u32],
    mentions: Mentions,
    counts: &mut [u32],
    rows: &mut [u32],
    filled: usize,
    p: usize,
)
    requires standing { Standing nodes.now (take filled order.old) mentions.heads.now mentions.links.now counts.old rows.old (length nodes.now / size) filled }
    requires order_long { length order.old ≡ length nodes.now / size }
    requires p_lt_n { (p < length order.old) × (filled < length order.old) }
    requires p_value { ready (nodes_of nodes.now) (take filled order.old) p ≡ true }
    ensures { Appends nodes.now order.old order.new mentions.entry.heads.now mentions.entry.links.now counts.new rows.new (length nodes.now / size) filled p }
{
    ready::remove(rows, counts.len(), p);
    order[filled] = p as u32;
    settle(nodes, &order[..filled + 1], mentions, counts, rows, filled);
}

// Takes ready ids into the order, always the lowest, until none is ready; says how many ids the order then has.
fn release(
    nodes: &[u8],
    order: &mut [u32],
    mentions: Mentions,
    counts: &mut [u32],
    rows: &mut [u32],
    begun: usize,
) -> usize
    requires begun { Begun nodes.now order.old mentions.heads.now mentions.links.now counts.old rows.old (length nodes.now / size) begun }
    requires order_long { length order.old ≡ length nodes.now / size }
    ensures { Released nodes.now order.new mentions.entry.heads.now mentions.entry.links.now counts.new rows.new (length nodes.now / size) result }
{
    for filled in begun..order.len() {
        let Some(p) = ready::lowest(rows, counts.len()) else {
            return filled;
        };
        append(nodes, order, mentions, counts, rows, filled, p);
    }
    order.len()
}

// Settles the ids that begin the order and releases the internals; says how many ids the order then has.
// It puts the mentions together itself: one that holds slices that it cut loses track of what its room becomes.
fn settle_and_release(
    nodes: &[u8],
    order: &mut [u32],
    heads: &[u32],
    links: &[u32],
    counts: &mut [u32],
    rows: &mut [u32],
    begun: usize,
) -> usize
    requires standing { Standing nodes.now (take begun order.old) heads.now links.now counts.old rows.old (length nodes.now / size) 0 }
    requires begun { (begun ≤ length order.old) × (take begun order.old ≡ begun_of (nodes_of nodes.now)) }
    requires order_long { length order.old ≡ length nodes.now / size }
    ensures { Released nodes.now order.new heads.now links.now counts.new rows.new (length nodes.now / size) result }
{
    let mentions = Mentions { heads, links };
    settle_all(nodes, &order[..begun], mentions, counts, rows);
    release(nodes, order, mentions, counts, rows, begun)
}

// Links the mentions that p makes, each to the one before it that names the same child; says how many they are.
#[tactic(auto, using(crate::proofs::Enlisting::field_is))]
fn link_kids(nodes: &[u8], heads: &mut [u32], links: &mut [u32], p: usize) -> u32
    requires chained { Chained nodes.now heads.old links.old (length nodes.now / size) p }
    requires p_lt_n { p < length heads.old }
    ensures { Links nodes.now heads.new links.new (length nodes.now / size) p result }
{
    let node = record::node_at(nodes, p);
    for (j, kid) in node.kids[..node.count as usize].iter().enumerate() {
        let mention = FIELDS * p + j;
        let child = *kid as usize;
        links[mention] = heads[child];
        heads[child] = (mention + 1) as u32;
    }
    node.count
}

// Enlists p: it waits for each child that it names, as often as it names it, and is ready if it is internal and names none.
fn enlist(
    nodes: &[u8],
    heads: &mut [u32],
    links: &mut [u32],
    counts: &mut [u32],
    rows: &mut [u32],
    p: usize,
)
    requires enlisted { Enlisted nodes.now heads.old links.old counts.old rows.old (length nodes.now / size) p }
    requires p_lt_n { p < length counts.old }
    ensures { Enlisted nodes.now heads.new links.new counts.new rows.new (length nodes.now / size) (p + 1) }
{
    let count = link_kids(nodes, heads, links, p);
    let class = record::class_of(record::kind_at(nodes, p));
    counts[p] = count;
    if (class != Class::Internal) | (0 < count) {
        return;
    }
    ready::put(rows, counts.len(), p);
}

// Enlists all ids.
fn enlist_all(
    nodes: &[u8],
    heads: &mut [u32],
    links: &mut [u32],
    counts: &mut [u32],
    rows: &mut [u32],
)
    requires { Enlisted nodes.now heads.old links.old counts.old rows.old (length nodes.now / size) 0 }
    ensures { Enlisted nodes.now heads.new links.new counts.new rows.new (length nodes.now / size) (length nodes.now / size) }
{
    for p in 0..counts.len() {
        enlist(nodes, heads, links, counts, rows, p);
    }
}

// Lists the blocks behind the externals; says how many they are together.
fn begin(nodes: &[u8], work: &mut [u32], n: usize, externals: usize) -> usize
    requires fair { Fair nodes.now n }
    requires n_in_bounds { work_words * n ≤ length work.old }
    requires externals { Externals nodes.now work.old n externals }
    ensures { Fresh nodes.now work.new n result }
{
    externals + list_class(nodes, &mut work[externals..], Class::Block)
}

// Cuts the room into its sections, settles what stands in the order and releases the internals; says how many ids the order then has.
fn complete(nodes: &[u8], work: &mut [u32], n: usize, begun: usize) -> usize
    requires { Fresh nodes.now work.old n begun }
    ensures unmarked { Unmarked work.new n result }
    ensures whole { span work.new 0 result ≡ order_of (nodes_of nodes.now) }
{
    let (order, behind) = work.split_at_mut(n);
    let (_marks, behind) = behind.split_at_mut(n);
    let (heads, behind) = behind.split_at_mut(n);
    let (counts, behind) = behind.split_at_mut(n);
    let (rows, links) = behind.split_at_mut(2 * n);
    enlist_all(nodes, heads, links, counts, rows);
    settle_and_release(nodes, order, heads, links, counts, rows, begun)
}

// Puts the n ids into their own order and marks the place of each; leaves every other word alone.
pub(crate) fn keep_order(work: &mut [u32], n: usize)
    requires { (2 * n ≤ length work.old) × (n ≤ most) }
    ensures { Kept work.old work.new n n }
{
    let (order, marks) = work.split_at_mut(n);
    for (p, id) in order.iter_mut().enumerate() {
        *id = p as u32;
        marks[p] = (p + 1) as u32;
    }
}

// Puts blocks and internals behind the externals; answers the lowest id that is never released.
pub(crate) fn final_dense_node_order(
    nodes: &[u8],
    work: &mut [u32],
    n: usize,
    externals: usize,
) -> Option<usize>
    requires fair { Fair nodes.now n }
    requires n_in_bounds { work_words * n ≤ length work.old }
    requires externals { Externals nodes.now work.old n externals }
    ensures { Ordered nodes.now work.new n result }
{
    let begun = begin(nodes, work, n, externals);
    let filled = complete(nodes, work, n, begun);
    deliver::mark_places(work, n, filled);
    deliver::first_unplaced(work, n)
}
