// Canonicalize's checks of ranges, and its search for two externals of one digest: they write nothing.
ghost use Rattle.std.specs.Prelude.{◌≡◌, not, [], map, ◌≤◌, ltb, length};
ghost use Rattle.record.specs.Node.{nodes_of};
ghost use Rattle.forest.specs.Lists.{lowest};
ghost use Rattle.forest.specs.Graph.{far_child};
ghost use Rattle.forest.specs.Order.{repeat};
ghost use Rattle.forest.specs.Canonicalize.{alone};
ghost use Rattle.room.specs.Sections.{span};
ghost use Rattle.sorting.specs.Promises.{Listed};

// The lowest place of a root at or past n.
pub(crate) fn far_root(roots: &[u32], n: usize) -> Option<usize>
    ensures { result ≡ lowest not (map (λ x. ltb x n) roots.now) }
{
    roots.iter().position(|root| n <= *root as usize)
}

// The first node with a child past the whole records, and its last such child: a part of a record at the end does not matter.
pub(crate) fn far_child(nodes: &[u8]) -> Option<(usize, u32)>
    ensures { result ≡ far_child (alone (nodes_of nodes.now) []) }
{
    let n = nodes.len() / record::SIZE;
    for i in 0..n {
        let node = record::node_at(nodes, i);
        if let Some(child) = crate::last_from(node, n) {
            return Some((i, child));
        }
    }
    None
}

// The second of the first two neighbours of one digest among the first `count` words: what stands behind them does not matter.
pub(crate) fn repeated(nodes: &[u8], work: &[u32], count: usize) -> Option<usize>
    requires count_in_bounds { count ≤ length work.now }
    requires listed { Listed nodes.now (span work.now 0 count) }
    ensures { result ≡ repeat (nodes_of nodes.now) (span work.now 0 count) }
{
    for pair in work[..count].windows(2) {
        let digest = record::digest_at(nodes, pair[0] as usize);
        if sorting::has_digest(nodes, digest, pair[1]) {
            return Some(pair[1] as usize);
        }
    }
    None
}
