// The checks before the walk: limit and sizes, then records and ranges.
ghost use Rattle.std.specs.Prelude.{◌≡◌, ◌*◌, length};
ghost use Rattle.record.specs.Node.{size};
ghost use Rattle.forest.specs.Lent.{first};
ghost use Rattle.forest.specs.Merge.{node_sum, root_sum};
ghost use Rattle.dense_order.specs.Found.{check_of};
ghost use Rattle.merger.specs.Steps.{size_checks, range_checks};

use crate::table::Table;
use crate::{MOST_DEPTH, MOST_FORESTS};
use dense_order::{MOST, WORK_WORDS};
use forest::Reply;

// Refuses a bad limit, too many nodes, roots or forests, and the lowest buffer whose length is wrong.
pub(crate) fn sizes(
    table: &[u8],
    nodes: &[u8],
    roots: &[u32],
    limit: u32,
    ids: usize,
    work: usize,
) -> Result<(), Reply>
    ensures { result ≡ check_of (first (size_checks limit table.now (length nodes.now) (length roots.now) ids work)) }
{
    if !((1 <= limit) & (limit <= MOST_DEPTH)) {
        return Err(Reply::BadLimit);
    }
    if MOST_FORESTS < table.len() / record::ROW_SIZE {
        return Err(Reply::TooMany);
    }
    let sums = Table { bytes: table }.last();
    if (MOST < sums.nodes) | (MOST < sums.roots) {
        return Err(Reply::TooMany);
    }
    if table.len() % record::ROW_SIZE != 0 {
        return Err(Reply::BadBuffers(1));
    }
    if nodes.len() != record::SIZE * sums.nodes {
        return Err(Reply::BadBuffers(2));
    }
    if roots.len() != sums.roots {
        return Err(Reply::BadBuffers(3));
    }
    if ids != sums.nodes {
        return Err(Reply::BadBuffers(6));
    }
    if work < WORK_WORDS * sums.nodes {
        return Err(Reply::BadBuffers(7));
    }
    Ok(())
}

// Refuses a bad record, a root past its forest's end and a child past it.
pub(crate) fn examined(table: &Table, nodes: &[u8], roots: &[u32]) -> Result<(), Reply>
    requires nodes_len { (length nodes.now ≡ size * node_sum table.now) × (length roots.now ≡ root_sum table.now) }
    ensures { result ≡ check_of (first (range_checks (record { table = table.now; nodes = nodes.now; roots = roots.now }))) }
{
    if let Some(p) = dense_order::first_bad(nodes) {
        return Err(Reply::BadRecord(p as u64));
    }
    if let Some(k) = table.far_root(roots) {
        return Err(Reply::RootRange(k as u64));
    }
    if let Some((p, child)) = table.far_child(nodes) {
        return Err(Reply::ChildRange(p as u64, child as u64));
    }
    Ok(())
}
