// Places of ids in the work room and the outputs: words 0 .. n - 1 hold the order of n ids, word n + p is 1 more than the place of id p
// in the order, or 0 if it has none.
ghost use Rattle.std.specs.Prelude.{◌≡◌, ℕ, ◌+◌, ◌*◌, ◌<◌, ◌≤◌, eqb, length, get_or};
ghost use mathlib.Core.List.{Memᴰ, map};
ghost use Rattle.record.specs.Lists.{run, flat};
ghost use Rattle.record.specs.Node.{size, fields, node_at, node_bytes, children, renumber};
ghost use Rattle.forest.specs.Lists.{lowest};
ghost use Rattle.room.specs.Sections.{span};
ghost use Rattle.dense_order.specs.Marks.{new_id, Placed, Unmarked, Marked, Writable};
ghost use Rattle.dense_order.specs.Steps.{Deliverable, Delivered};

// Marks the place of each of the first `filled` ids of the order; leaves every word but the n marks alone.
pub(crate) fn mark_places(work: &mut [u32], n: usize, filled: usize)
    requires { Unmarked work.old n filled }
    ensures { Marked work.old work.new n filled }
{
    let (order, marks) = work.split_at_mut(n);
    for (k, id) in order[..filled].iter().enumerate() {
        marks[*id as usize] = (k + 1) as u32;
    }
}

// The lowest id without a place.
pub(crate) fn first_unplaced(work: &[u32], n: usize) -> Option<usize>
    requires { 2 * n ≤ length work.now }
    ensures { result ≡ lowest (λ p. eqb (get_or work.now (n + p) 0) 0) (run 0 n) }
{
    work[n..2 * n].iter().position(|mark| *mark == 0)
}

// The new id of c: 1 less than its mark.
fn new_id(marks: &[u32], c: usize) -> u32
    requires { Placed marks.now c }
    ensures { result ≡ new_id marks.now c }
{
    marks[c] - 1
}

// Writes the records of the nodes in their order, with the new ids of their children: they fill `out`.
fn write_nodes(nodes: &[u8], order: &[u32], marks: &[u32], out: &mut [u8])
    requires { Writable nodes.now order.now marks.now out.old }
    ensures { out.new ≡ flat node_bytes (map (λ p. renumber (new_id marks.now) (node_at nodes.now p)) order.now) }
{
    for (k, id) in order.iter().enumerate() {
        let node = record::node_at(nodes, *id as usize);
        let kid_id = |kid: u32| -> u32
            requires { Placed marks.now kid }
            ensures { result ≡ new_id marks.entry.now kid }
        { new_id(marks, kid as usize) };
        record::put_node(out, k, record::renumbered(node, kid_id));
    }
}

// Writes the new ids of the roots: they fill `out`.
fn write_roots(roots: &[u32], marks: &[u32], out: &mut [u32])
    requires out_len { length out.old ≡ length roots.now }
    requires by_index { (r : ℕ) → Memᴰ r roots.now → Placed marks.now r }
    ensures { out.new ≡ map (new_id marks.now) roots.now }
{
    for (i, root) in roots.iter().enumerate() {
        out[i] = new_id(marks, *root as usize);
    }
}

// Writes the new id of each id: they fill `ids`.
fn write_ids(marks: &[u32], ids: &mut [u32])
    requires ids_len { length ids.old ≡ length marks.now }
    requires by_index { (p : ℕ) → p < length marks.now → 0 < get_or marks.now p 0 }
    ensures { ids.new ≡ map (new_id marks.now) (run 0 (length marks.now)) }
{
    for (p, id) in ids.iter_mut().enumerate() {
        *id = new_id(marks, p);
    }
}

// Writes nodes, roots and ids of an arranged forest.
pub(crate) fn deliver(
    nodes: &[u8],
    roots: &[u32],
    work: &[u32],
    n: usize,
    node_out: &mut [u8],
    root_out: &mut [u32],
    ids: &mut [u32],
)
    requires deliverable { Deliverable nodes.now roots.now work.now n }
    requires node_out_len { (length node_out.old ≡ size * n) × ((length root_out.old ≡ length roots.now) × (length ids.old ≡ n)) }
    ensures { Delivered nodes.now roots.now node_out.new root_out.new ids.new }
{
    let order = &work[..n];
    let marks = &work[n..2 * n];
    write_nodes(nodes, order, marks, node_out);
    write_roots(roots, marks, root_out);
    write_ids(marks, ids);
}
