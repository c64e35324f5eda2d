// Step 3: a finished node becomes an equal earlier one, or is appended.
ghost use Rattle.std.specs.Prelude.{◌≡◌, List, map, ℕ, ◌+◌, ◌-◌, ◌<◌, ◌≤◌, length, take, get_or};
ghost use Rattle.record.specs.Lists.{same};
ghost use Rattle.record.specs.Node.{fields, children, same_node};
ghost use Rattle.record.specs.declared.Node.{Node};
ghost use Rattle.forest.specs.Lists.{lowest};
ghost use Rattle.forest.specs.Walk.{State, finish};
ghost use Rattle.merger.specs.Walking.{Readable, EachReadable, merged_at, PushingAt, Pushable, Kept, Came};

use record::{FIELDS, Node};

// What the walk goes over: the records, the first position of each one's forest, and the non-externals by digest; and what it writes: the
// state of each position (0 unseen, 1 open, else 2 more than its new id), and the position that each merged id comes from.
#[derive(Drop)]
pub(crate) struct Walk<'a> {
    pub(crate) nodes: &'a [u8],
    pub(crate) bases: &'a [u32],
    pub(crate) shelf: &'a [u32],
    pub(crate) states: &'a mut [u32],
    pub(crate) sources: &'a mut [u32],
}

// The node at position p with the ids that the states have for its children, which are finished.
pub(crate) fn merged_node(nodes: &[u8], bases: &[u32], states: &[u32], p: usize) -> Node
    requires { Readable nodes.now bases.now states.now p }
    ensures { result ≡ merged_at nodes.now bases.now states.now p }
{
    let base = bases[p] as usize;
    let child_id = |child: u32| -> u32
        requires { (base + child < length states.now) × (1 < get_or states.now (base + child) 0) }
        ensures { result ≡ get_or states.entry.now (base + child) 0 - 2 }
    { states[base + child as usize] - 2 };
    record::renumbered(record::node_at(nodes, p), child_id)
}

// Whether two nodes have the same children. A `Node` may be of a bad record, so it does not hold that its count fits.
fn same_children(a: Node, b: Node) -> bool
    requires { (a.count ≤ fields) × (b.count ≤ fields) }
    ensures { result ≡ same (children a) (children b) }
{
    if a.count != b.count {
        return false;
    }
    let left = a.kids;
    let right = b.kids;
    let count = a.count as usize;
    // Over all fields: a loop of fixed length keeps them in registers.
    for i in 0..FIELDS {
        if (i < count) & (left[i] != right[i]) {
            return false;
        }
    }
    true
}

impl Walk<'_> {
    // The node at position p with the ids of its children, which are finished.
    fn merged(&self, p: usize) -> Node
        requires { Readable self.now.nodes.now self.now.bases.now self.now.states.now p }
        ensures { result ≡ merged_at self.now.nodes.now self.now.bases.now self.now.states.now p }
    {
        merged_node(self.nodes, self.bases, self.states, p)
    }

    // Whether the merged node that comes from position q is like this one.
    fn is_like(&self, node: Node, q: usize) -> bool
        requires readable { Readable self.now.nodes.now self.now.bases.now self.now.states.now q }
        requires count_le_fields { node.count ≤ fields }
        ensures { result ≡ same_node node (merged_at self.now.nodes.now self.now.bases.now self.now.states.now q) }
    {
        let kind = record::kind_at(self.nodes, q);
        let digest = record::digest_at(self.nodes, q);
        // Kind and first word in one condition: with the kind alone first the compiled search takes up to half as long again.
        if (kind != node.kind) | (digest[0] != node.digest[0]) {
            return false;
        }
        if !sorting::has_digest(self.nodes, node.digest, q as u32) {
            return false;
        }
        same_children(node, self.merged(q))
    }

    // The lowest merged id whose node is like this one.
    fn find_equal(&self, node: Node, count: usize) -> Option<usize>
        requires in_bounds { count ≤ length self.now.sources.now }
        requires readable { EachReadable self.now.nodes.now self.now.bases.now self.now.states.now (take count self.now.sources.now) }
        requires count_le_fields { node.count ≤ fields }
        ensures { result ≡ lowest (same_node node) (map (merged_at self.now.nodes.now self.now.bases.now self.now.states.now) (take count self.now.sources.now)) }
    {
        self.sources[..count]
            .iter()
            .position(|source| self.is_like(node, *source as usize))
    }

    // Step 3: finishes position p with the id of an equal earlier node, else appends it; says how many nodes are merged.
    pub(crate) fn push(&mut self, p: usize, count: usize) -> usize
        requires { Pushable self.old count p }
        ensures kept { Kept self.old self.new }
        ensures came { (g : List Node) (path : List ℕ) (t : State) → PushingAt self.old count p g path t → (result ≡ length (finish g p t).merged) × Came g self.old self.new path (finish g p t) }
    {
        let node = self.merged(p);
        if let Some(k) = self.find_equal(node, count) {
            self.states[p] = (k + 2) as u32;
            return count;
        }
        self.sources[count] = p as u32;
        self.states[p] = (count + 2) as u32;
        count + 1
    }
}
