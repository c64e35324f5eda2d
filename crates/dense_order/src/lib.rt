// Validate and Canonicalize: whether a forest's nodes stand in dense order, and putting them into it.
#![tactic(auto)]

ghost use Rattle.std.specs.Prelude.{◌≡◌, not, ◌||◌, [], ◌∷◌, ◌+◌, ◌-◌, ◌*◌, ◌≤◌, leb, eqb, length, None, Some};
ghost use Rattle.record.specs.Order.{before};
ghost use Rattle.record.specs.Node.{size, rank, node_at, nodes_of, bad, children};
ghost use Rattle.forest.specs.Lists.{lowest, last_of};
ghost use Rattle.forest.specs.Lent.{first};
ghost use Rattle.forest.specs.Validate.{bad_record, forward as forward_of, node_faults, validate as validated};
ghost use Rattle.forest.specs.Canonicalize.{disorders, canonicalize as canonicalized};
ghost use Rattle.dense_order.specs.Found.{check_of};
ghost use Rattle.dense_order.specs.Faults.{fault_at};
ghost use Rattle.dense_order.specs.Kinds.{Blank};
ghost use Rattle.dense_order.specs.Steps.{size_checks, forest_checks, Fitting, Answers};

use forest::Reply;
use record::{Class, Node};

mod deliver;
mod order;
mod ranges;

// The most nodes and the most roots of a forest, the source's MAX_NODES.
pub const MOST: usize = 1073741823;

// The words of work room that a node wants.
pub const WORK_WORDS: usize = 16;

// The lowest bad record of the whole ones: a part of a record at the end does not matter.
pub fn first_bad(nodes: &[u8]) -> Option<usize>
    ensures { result ≡ lowest bad (nodes_of nodes.now) }
{
    (0..nodes.len() / record::SIZE).find(|i| record::bad(record::node_at(nodes, *i)))
}

// The last child of a node that is at or above `low`.
pub fn last_from(n: Node, low: usize) -> Option<u32>
    ensures { result ≡ last_of (leb low) (children n) }
{
    let kids = n.kids;
    for i in (0..record::FIELDS).rev() {
        let kid = kids[i];
        if (i < n.count as usize) & (low <= kid as usize) {
            return Some(kid);
        }
    }
    None
}

// Whether record `i`, of class `class`, is no external, or has a digest above that of the record before it.
fn digest_rises(nodes: &[u8], i: usize, class: Class) -> bool
    requires { (1 ≤ i) × (size * i + size ≤ length nodes.now) }
    ensures { result ≡ not (eqb (rank class) (rank Class.External)) || before (node_at nodes.now (i - 1)).digest (node_at nodes.now i).digest }
{
    if class != Class::External {
        return true;
    }
    let previous_digest = record::digest_at(nodes, i - 1);
    let digest = record::digest_at(nodes, i);
    record::compare(previous_digest, digest).is_lt()
}

// Refuses record `i` for its last child that is not below it.
fn forward(nodes: &[u8], i: usize) -> Result<(), Reply>
    requires { size * i + size ≤ length nodes.now }
    ensures { result ≡ check_of (forward_of i (node_at nodes.now i)) }
{
    let node = record::node_at(nodes, i);
    match last_from(node, i) {
        Some(child) => Err(Reply::ForwardReference(i as u64, child as u64)),
        None => Ok(()),
    }
}

// Refuses record `i` for what is wrong with it first, after the record before it, if there is one.
fn fault(nodes: &[u8], i: usize) -> Result<(), Reply>
    requires { size * i + size ≤ length nodes.now }
    ensures { result ≡ check_of (fault_at nodes.now i) }
{
    if i == 0 {
        return forward(nodes, i);
    }
    let previous = record::class_of(record::kind_at(nodes, i - 1));
    let class = record::class_of(record::kind_at(nodes, i));
    if class < previous {
        return Err(Reply::ClassOrder(i as u64));
    }
    if !digest_rises(nodes, i, class) {
        return Err(Reply::DigestOrder(i as u64));
    }
    forward(nodes, i)
}

// Refuses the first of the whole records that is not in dense order.
fn validate_dense_node_order(nodes: &[u8]) -> Result<(), Reply>
    ensures { result ≡ check_of (first (node_faults (nodes_of nodes.now))) }
{
    for i in 0..nodes.len() / record::SIZE {
        fault(nodes, i)?;
    }
    Ok(())
}

// Refuses the lowest bad record, which goes before whatever else was found, or else with `reply`.
fn bad_first(nodes: &[u8], reply: Reply) -> Result<(), Reply>
    ensures { result ≡ check_of (first (bad_record nodes.now ∷ Some reply ∷ [])) }
{
    if let Some(lowest) = first_bad(nodes) {
        return Err(Reply::BadRecord(lowest as u64));
    }
    Err(reply)
}

// Refuses the lowest bad record, or else the first of the whole records that is not in dense order: in one pass, if none is refused.
fn validate_records(nodes: &[u8]) -> Result<(), Reply>
    ensures { result ≡ check_of (first (bad_record nodes.now ∷ node_faults (nodes_of nodes.now))) }
{
    for i in 0..nodes.len() / record::SIZE {
        if record::bad(record::node_at(nodes, i)) {
            return Err(Reply::BadRecord(i as u64));
        }
        if let Err(reply) = fault(nodes, i) {
            return bad_first(nodes, reply);
        }
    }
    Ok(())
}

// Whether node records stand in dense order: too many, a part of a record, a bad record, then node by node.
pub fn validate(nodes: &[u8]) -> Reply
    ensures { result ≡ validated nodes.now }
{
    let n = nodes.len() / record::SIZE;
    if MOST < n {
        return Reply::TooMany;
    }
    if nodes.len() % record::SIZE != 0 {
        return Reply::BadBuffers(2);
    }
    if let Err(reply) = validate_records(nodes) {
        return reply;
    }
    Reply::Accepted(n as u64, 0)
}

// Refuses too many nodes or roots, and the lowest buffer whose length is wrong.
fn sizes(
    nodes: usize,
    roots: usize,
    records: usize,
    starts: usize,
    ids: usize,
    work: usize,
) -> Result<(), Reply>
    ensures { result ≡ check_of (first (size_checks nodes roots records starts ids work)) }
{
    let n = nodes / record::SIZE;
    if (MOST < n) | (MOST < roots) {
        return Err(Reply::TooMany);
    }
    if nodes % record::SIZE != 0 {
        return Err(Reply::BadBuffers(2));
    }
    if records != nodes {
        return Err(Reply::BadBuffers(4));
    }
    if starts != roots {
        return Err(Reply::BadBuffers(5));
    }
    if ids != n {
        return Err(Reply::BadBuffers(6));
    }
    if work < WORK_WORDS * n {
        return Err(Reply::BadBuffers(7));
    }
    Ok(())
}

// Arranges a forest in a room of zeros, unless two externals have one digest, a child is past the end, or an internal is never released.
fn rearranged(nodes: &[u8], work: &mut [u32], n: usize) -> Result<(), Reply>
    requires blank { Blank nodes.now work.old n }
    requires nodes_value { bad_record nodes.now ≡ None }
    ensures { Answers (disorders (nodes_of nodes.now)) nodes.now work.new n result }
{
    let externals = order::list_externals(nodes, work, n);
    if let Some(p) = ranges::repeated(nodes, work, externals) {
        return Err(Reply::DuplicateExternal(p as u64));
    }
    if let Some((p, child)) = ranges::far_child(nodes) {
        return Err(Reply::ChildRange(p as u64, child as u64));
    }
    if let Some(p) = order::final_dense_node_order(nodes, work, n, externals) {
        return Err(Reply::Cycle(p as u64));
    }
    Ok(())
}

// Arranges a forest in a room of zeros as `rearranged` does: one in dense order stays as it is.
fn arranged(nodes: &[u8], work: &mut [u32], n: usize) -> Result<(), Reply>
    requires blank { Blank nodes.now work.old n }
    requires nodes_value { bad_record nodes.now ≡ None }
    ensures { Answers (disorders (nodes_of nodes.now)) nodes.now work.new n result }
{
    if validate_dense_node_order(nodes).is_err() {
        return rearranged(nodes, work, n);
    }
    order::keep_order(work, n);
    Ok(())
}

// Arranges a forest in the room, unless a record is bad, a root past the end, or the forest has no order.
fn examined(nodes: &[u8], roots: &[u32], work: &mut [u32], n: usize) -> Result<(), Reply>
    requires { Fitting nodes.now work.old n }
    ensures { Answers (forest_checks nodes.now roots.now) nodes.now work.new n result }
{
    if let Some(p) = first_bad(nodes) {
        return Err(Reply::BadRecord(p as u64));
    }
    if let Some(i) = ranges::far_root(roots, n) {
        return Err(Reply::RootRange(i as u64));
    }
    room::clear(work);
    arranged(nodes, work, n)
}

// One forest in its canonical order: too many, sizes, a bad record, a root past the end, externals of one digest, a child past the end, a cycle.
pub fn canonicalize(
    nodes: &[u8],
    roots: &[u32],
    node_out: &mut [u8],
    root_out: &mut [u32],
    ids: &mut [u32],
    work: &mut [u32],
) -> Reply
    ensures { canonicalized
        (record { table = []; nodes = nodes.now; roots = roots.now })
        (record { nodes = node_out.old; roots = root_out.old; ids = ids.old; work = work.old })
        ≡ record {
          reply = result;
          room = record { nodes = node_out.new; roots = root_out.new; ids = ids.new; work = work.new };
        } }
{
    let n = nodes.len() / record::SIZE;
    if let Err(reply) = sizes(
        nodes.len(),
        roots.len(),
        node_out.len(),
        root_out.len(),
        ids.len(),
        work.len(),
    ) {
        return reply;
    }
    if let Err(reply) = examined(nodes, roots, work, n) {
        room::clear(work);
        return reply;
    }
    deliver::deliver(nodes, roots, work, n, node_out, root_out, ids);
    room::clear(work);
    Reply::Accepted(n as u64, roots.len() as u64)
}
