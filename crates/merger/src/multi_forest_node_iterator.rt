// Discovery: the walk over all forests, which merges each node as it finishes.
ghost use Rattle.std.specs.Prelude.{◌≡◌, ℕ, ◌<◌, ◌≤◌, length};
ghost use mathlib.Core.List.{List, [], ◌∷◌, Memᴰ};
ghost use Rattle.record.specs.Node.{nodes_of};
ghost use Rattle.record.specs.declared.Node.{Node};
ghost use Rattle.forest.specs.Graph.{replacement as replacement_of};
ghost use Rattle.forest.specs.Walk.{State, visit, walk};
ghost use Rattle.merger.specs.Table.{starts};
ghost use Rattle.merger.specs.Walking.{Ample, Lists, Shelved, Held, Charted, StandsAt, Somewhere, Inside, under, Kept, Walks, WalksTo, ComesTo, Begun};

use crate::merging::Walk;
use crate::table::{Cursor, Table};
use forest::Reply;
use record::{Class, WORDS};

// Lists the non-externals; says how many they are. (Its like in dense_order lists one class: one for both would be public there, with a
// test to call, and its contract would be no plainer. Nor would a chain of `filter` and `zip` say how many it writes.)
fn list_holders(nodes: &[u8], list: &mut [u32]) -> usize
    requires { Ample nodes.now list.old }
    ensures { Lists nodes.now list.old list.new result }
{
    let n = list.len();
    let mut count = 0;
    for p in 0..n {
        if record::class_of(record::kind_at(nodes, p)) == Class::External {
            continue;
        }
        list[count] = p as u32;
        count += 1;
    }
    count
}

// Lists the non-externals by digest; says how many they are.
pub(crate) fn sort_holders(nodes: &[u8], list: &mut [u32], spare: &mut [u32]) -> usize
    requires ample { Ample nodes.now list.old }
    requires spare_len { length list.old ≤ length spare.old }
    ensures { Shelved nodes.now list.old list.new spare.old spare.new result }
{
    let count = list_holders(nodes, list);
    sorting::sort_by_digest(nodes, &mut list[..count], &mut spare[..count]);
    count
}

impl Walk<'_> {
    // Step 1: the highest position with a non-external of this digest.
    fn replacement(&self, digest: [u64; WORDS]) -> Option<usize>
        requires { Held self.now.nodes.now self.now.shelf.now }
        ensures { result ≡ replacement_of (nodes_of self.now.nodes.now) digest }
    {
        sorting::find(self.nodes, self.shelf, digest)
    }

    // Step 2: takes position p. A finished node is passed over, an open one is met again, any other is opened. Where the walk stops, the
    // answer is the position alone, which registers hold: a refusal would lie on the stack, in the frame of each open node.
    #[cycle(open_node_walk_below)]
    fn open_node(&mut self, p: usize, left: u32, count: usize) -> Result<usize, usize>
        requires somewhere { Somewhere self.old count }
        requires p_in_bounds { p < length self.old.bases.now }
        ensures kept { Kept self.old self.new }
        ensures walks { (g : List Node) (path : List ℕ) (t : State) → StandsAt self.old count g path t → ComesTo g self.old self.new path (visit g left path p t) result }
    {
        let state = self.states[p];
        if 1 < state {
            return Ok(count);
        }
        // An open node is met again.
        if state == 1 {
            return Err(p);
        }
        // A node would be opened at the limit.
        if left == 0 {
            return Err(p);
        }
        self.states[p] = 1;
        self.walk_below(p, left - 1, count)
    }

    // Takes what hangs below the open position p, and then finishes it.
    #[cycle(open_node_walk_below)]
    fn walk_below(&mut self, p: usize, left: u32, count: usize) -> Result<usize, usize>
        requires inside { Inside self.old count p }
        requires p_in_bounds { p < length self.old.bases.now }
        ensures kept { Kept self.old self.new }
        ensures walks { (g : List Node) (path : List ℕ) (t : State) → StandsAt self.old count g (p ∷ path) t → ¬ Memᴰ p path → ComesTo g self.old self.new path (under g left path p t) result }
    {
        let node = record::node_at(self.nodes, p);
        if record::class_of(node.kind) == Class::External {
            let Some(q) = self.replacement(node.digest) else {
                return Ok(self.push(p, count));
            };
            let merged = self.open_node(q, left, count)?;
            self.states[p] = self.states[q];
            return Ok(merged);
        }
        let base = self.bases[p] as usize;
        let kids = node.kids;
        let children = node.count as usize;
        let mut merged = count;
        for i in 0..children {
            merged = self.open_node(base + kids[i] as usize, left, merged)?;
        }
        Ok(self.push(p, merged))
    }

    // Takes the roots of all forests in their order; says how many nodes are merged, or at which position the walk stops.
    fn take_roots(&mut self, table: &Table, roots: &[u32], limit: u32) -> Result<usize, usize>
        requires { Begun table.now self.old.nodes.now roots.now self.old.bases.now self.old.shelf.now self.old.states.now self.old.sources.now }
        ensures kept { Kept self.old self.new }
        ensures walks { (g : List Node) → Charted self.old.nodes.now self.old.bases.now self.old.shelf.now g → ComesTo g self.old self.new [] (walk g limit (starts table.now roots.now)) result }
    {
        let mut at = Cursor::start();
        let mut merged = 0;
        for (k, root) in roots.iter().enumerate() {
            at = table.at_root(at, k);
            merged = self.open_node(at.base + *root as usize, limit, merged)?;
        }
        Ok(merged)
    }

    // Walks from the roots of all forests. Where the walk stops, the state says why: an open node is met again, an unseen one lies too deep.
    fn walk_all(&mut self, table: &Table, roots: &[u32], limit: u32) -> Result<usize, Reply>
        requires { Begun table.now self.old.nodes.now roots.now self.old.bases.now self.old.shelf.now self.old.states.now self.old.sources.now }
        ensures kept { Kept self.old self.new }
        ensures walks { (g : List Node) → Charted self.old.nodes.now self.old.bases.now self.old.shelf.now g → WalksTo g self.old self.new [] (walk g limit (starts table.now roots.now)) result }
    {
        match self.take_roots(table, roots, limit) {
            Ok(merged) => Ok(merged),
            Err(p) if self.states[p] == 1 => Err(Reply::Cycle(p as u64)),
            Err(p) => Err(Reply::TooDeep(p as u64)),
        }
    }
}

// Walks from the roots of all forests; says how many nodes are merged. The slices are cut where it is called, and a struct that is built
// there loses what the room becomes.
pub(crate) fn walk_roots(
    table: &Table,
    nodes: &[u8],
    roots: &[u32],
    bases: &[u32],
    shelf: &[u32],
    states: &mut [u32],
    sources: &mut [u32],
    limit: u32,
) -> Result<usize, Reply>
    requires { Begun table.now nodes.now roots.now bases.now shelf.now states.old sources.old }
    ensures { (g : List Node) → Charted nodes.now bases.now shelf.now g → Walks g states.new sources.new (length bases.now) [] (walk g limit (starts table.now roots.now)) result }
{
    let mut walk = Walk {
        nodes,
        bases,
        shelf,
        states,
        sources,
    };
    walk.walk_all(table, roots, limit)
}
