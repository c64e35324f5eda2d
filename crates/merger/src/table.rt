// The table's rows: which forest a node or a root belongs to, what its rows sum up to, and the checks of ranges.
ghost use Rattle.std.specs.Prelude.{◌≡◌, List, ℕ, ◌+◌, ◌*◌, ◌/◌, ◌<◌, ◌≤◌, length};
ghost use Rattle.record.specs.Node.{size, row_size, nodes_of, rows_of};
ghost use Rattle.record.specs.declared.Node.{Node};
ghost use Rattle.forest.specs.Graph.{forests, far_root, far_child};
ghost use Rattle.forest.specs.Lent.{most};
ghost use Rattle.forest.specs.Merge.{node_sum, root_sum};
ghost use Rattle.merger.specs.Table.{Legible, On, ToNode, ToRoot, AtNode, AtRoot, Bases};

use std::marker::Model;

// A table: it has no more rows than there may be forests.
#[derive(Drop)]
pub(crate) struct Table<'a> {
    pub(crate) bytes: &'a [u8],
}

impl<'a> Model for Table<'a> {
    ghost Value = { List ℕ };

    ghost view = { λ t. t.bytes.now };

    ghost invariant = { λ t. Legible t.bytes.now };
}

// A place in the table: how many rows lie before it, the position of the first node of the last of them, and how many nodes and roots all
// of them have.
#[derive(Clone, Copy)]
pub(crate) struct Cursor {
    pub(crate) rows: usize,
    pub(crate) base: usize,
    pub(crate) nodes: usize,
    pub(crate) roots: usize,
}

impl Cursor {
    // The place before the first row.
    pub(crate) fn start() -> Cursor
        ensures { result ≡ record { rows = 0; base = 0; nodes = 0; roots = 0 } }
    {
        Cursor {
            rows: 0,
            base: 0,
            nodes: 0,
            roots: 0,
        }
    }
}

impl Table<'_> {
    // The place one row further on.
    fn advance(&self, at: Cursor) -> Cursor
        requires on { On self.now at }
        requires rows_in_bounds { at.rows < length self.now / row_size }
        ensures { (result.rows ≡ at.rows + 1) × On self.now result }
    {
        let row = record::row_at(self.bytes, at.rows);
        Cursor {
            rows: at.rows + 1,
            base: at.nodes,
            nodes: at.nodes + row.nodes as usize,
            roots: at.roots + row.roots as usize,
        }
    }

    // The place behind the last whole row.
    pub(crate) fn last(&self) -> Cursor
        ensures { (result.nodes ≡ node_sum self.now) × (result.roots ≡ root_sum self.now) }
    {
        let mut at = Cursor::start();
        for _ in 0..self.bytes.len() / record::ROW_SIZE {
            at = self.advance(at);
        }
        at
    }

    // The place behind the row that has position p, from a place that is not past it: how many rows are passed is not known before.
    // It has its like for roots: the field that is compared is all that differs, and a closure for it would need a law in each contract.
    pub(crate) fn at_node(&self, from: Cursor, p: usize) -> Cursor
        requires to_node { ToNode self.now from p }
        requires p_bound { p < node_sum self.now }
        ensures { AtNode self.now result p }
    {
        let mut at = from;
        while at.nodes <= p {
            at = self.advance(at);
        }
        at
    }

    // The place behind the row that has root k, from a place that is not past it: again, how many rows are passed is not known before.
    pub(crate) fn at_root(&self, from: Cursor, k: usize) -> Cursor
        requires to_root { ToRoot self.now from k }
        requires k_bound { k < root_sum self.now }
        ensures { AtRoot self.now result k }
    {
        let mut at = from;
        while at.roots <= k {
            at = self.advance(at);
        }
        at
    }

    // The lowest place of a root that names no node of its forest.
    pub(crate) fn far_root(&self, roots: &[u32]) -> Option<usize>
        requires roots_len { length roots.now ≡ root_sum self.now }
        ensures { (ns : List Node) → result ≡ far_root (forests 0 (rows_of self.now) ns roots.now) }
    {
        let mut at = Cursor::start();
        for (k, root) in roots.iter().enumerate() {
            at = self.at_root(at, k);
            if at.nodes - at.base <= *root as usize {
                return Some(k);
            }
        }
        None
    }

    // The first node with a child past its forest's end, and its last such child.
    pub(crate) fn far_child(&self, nodes: &[u8]) -> Option<(usize, u32)>
        requires nodes_len { length nodes.now ≡ size * node_sum self.now }
        ensures { (rs : List ℕ) → result ≡ far_child (forests 0 (rows_of self.now) (nodes_of nodes.now) rs) }
    {
        let n = nodes.len() / record::SIZE;
        let mut at = Cursor::start();
        for p in 0..n {
            at = self.at_node(at, p);
            let node = record::node_at(nodes, p);
            if let Some(child) = dense_order::last_from(node, at.nodes - at.base) {
                return Some((p, child));
            }
        }
        None
    }

    // Writes for each position the position of the first node of its forest.
    pub(crate) fn write_bases(&self, bases: &mut [u32])
        requires { (length bases.old ≡ node_sum self.now) × (node_sum self.now ≤ most) }
        ensures { Bases self.now bases.new }
    {
        let mut at = Cursor::start();
        for (p, base) in bases.iter_mut().enumerate() {
            at = self.at_node(at, p);
            *base = at.base as u32;
        }
    }
}
