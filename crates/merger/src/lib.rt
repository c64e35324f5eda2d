// Merge: many forests into one, and where each old node went.
#![tactic(auto)]

ghost use Rattle.std.specs.Prelude.{◌≡◌, ◌/◌, length};
ghost use Rattle.record.specs.Node.{size};
ghost use Rattle.forest.specs.Merge.{merge as merge_of};
ghost use Rattle.merger.specs.Steps.{Sized, Past, Ends, Joins};

use forest::Reply;
use multi_forest_node_iterator::{sort_holders, walk_roots};
use table::Table;

mod checks;
mod deliver;
mod merging;
mod multi_forest_node_iterator;
mod result;
mod table;

// The most forests, and the largest depth limit.
pub const MOST_FORESTS: usize = 1024;

pub const MOST_DEPTH: u32 = 4096;

// The mark for none in an id list, which is lent as words.
pub const NO_ID: u32 = 4294967295;

// The sections of the work room, of n words each: the state of each position from 0 on (0 unseen, 1 open, else 2 more than its new id), then
// these, and the non-externals by digest behind the bases: the position that a merged id comes from, the first position of a position's
// forest, the sort's spare section, the sources of merged nodes in their order, the place of a merged id in it, whether a new id is a root,
// the new roots. They are lent as words, so states and marks are numbers.
const SOURCES: usize = 1;

const BASES: usize = 2;

const SPARE: usize = 4;

const ORDER: usize = 5;

const STARTS: usize = 8;

// Walks all forests in a room of zeros; says how many nodes are merged.
fn walked(
    table: &Table,
    nodes: &[u8],
    roots: &[u32],
    limit: u32,
    work: &mut [u32],
    n: usize,
) -> Result<usize, Reply>
    requires past { Past limit (record { table = table.now; nodes = nodes.now; roots = roots.now }) work.old }
    requires n_value { n ≡ length nodes.now / size }
    ensures { Ends limit (record { table = table.now; nodes = nodes.now; roots = roots.now }) work.new n result }
{
    room::clear(work);
    let (states, rest) = work.split_at_mut(n);
    let (sources, rest) = rest.split_at_mut(n);
    let (bases, rest) = rest.split_at_mut(n);
    let (holders, spare) = rest.split_at_mut(n);
    table.write_bases(bases);
    let count = sort_holders(nodes, holders, spare);
    walk_roots(
        table,
        nodes,
        roots,
        bases,
        &holders[..count],
        states,
        sources,
        limit,
    )
}

// Merges in the room and says how many nodes and roots the result has, unless a record is bad, a root or a child past the end, the walk
// stops, or the outputs are short.
fn merged(
    table: &[u8],
    nodes: &[u8],
    roots: &[u32],
    limit: u32,
    work: &mut [u32],
    records: usize,
    starts: usize,
) -> Result<(usize, usize), Reply>
    requires { Sized limit (record { table = table.now; nodes = nodes.now; roots = roots.now }) work.old }
    ensures { Joins limit (record { table = table.now; nodes = nodes.now; roots = roots.now }) records starts work.new (length nodes.now / size) result }
{
    let table = Table { bytes: table };
    checks::examined(&table, nodes, roots)?;
    let n = nodes.len() / record::SIZE;
    let m = walked(&table, nodes, roots, limit, work, n)?;
    let count = result::settle(&table, nodes, roots, work, n, m);
    if (records < m) | (starts < count) {
        return Err(Reply::NoRoom(m as u64, count as u64));
    }
    Ok((m, count))
}

// Many forests into one: a bad limit, too many, sizes, a bad record, a root or a child past the end, a cycle or too deep, no room.
pub fn merge(
    table: &[u8],
    nodes: &[u8],
    roots: &[u32],
    limit: u32,
    node_out: &mut [u8],
    root_out: &mut [u32],
    ids: &mut [u32],
    work: &mut [u32],
) -> Reply
    ensures { merge_of limit
        (record { table = table.now; nodes = nodes.now; roots = roots.now })
        (record { nodes = node_out.old; roots = root_out.old; ids = ids.old; work = work.old })
        ≡ record {
          reply = result;
          room = record { nodes = node_out.new; roots = root_out.new; ids = ids.new; work = work.new };
        } }
{
    let records = node_out.len() / record::SIZE;
    if let Err(reply) = checks::sizes(table, nodes, roots, limit, ids.len(), work.len()) {
        return reply;
    }
    match merged(table, nodes, roots, limit, work, records, root_out.len()) {
        Err(reply) => {
            room::clear(work);
            reply
        }
        Ok((m, count)) => {
            let n = nodes.len() / record::SIZE;
            deliver::deliver(nodes, work, n, m, count, node_out, root_out, ids);
            room::clear(work);
            Reply::Accepted(m as u64, count as u64)
        }
    }
}
