// The result in the room: merged nodes in their canonical order, every id carried through it, and the roots.
ghost use Rattle.std.specs.Prelude.{◌≡◌, ℕ, ◌<◌, ◌≤◌, ◌++◌, length, drop, get_or};
ghost use mathlib.Core.List.{List, map, Memᴰ};
ghost use Rattle.record.specs.declared.Node.{Node};
ghost use Rattle.forest.specs.Merge.{root_sum};
ghost use Rattle.forest.specs.Walk.{State};
ghost use Rattle.claims.specs.Sound.{Finished};
ghost use Rattle.sorting.specs.Promises.{Listed};
ghost use Rattle.merger.specs.Rooms.{Sourced, classed, sorted, id_at, Lined, Movable, moved, Rooted, Mentions};
ghost use Rattle.merger.specs.Settling.{Over, Settled};
ghost use Rattle.merger.specs.Table.{starts};
ghost use Rattle.merger.specs.Walking.{Ended};

use crate::table::{Cursor, Table};
use crate::{SOURCES, SPARE};
use record::Class;

// Lists the sources of one class; says how many they are. (The twin in dense_order goes over all ids, of which it has no list to hand over.)
// A chain of `filter` and `zip` would write the same, but not say how many it writes.
fn list_class(nodes: &[u8], sources: &[u32], order: &mut [u32], class: Class) -> usize
    requires listed { Listed nodes.now sources.now }
    requires room { length (classed nodes.now class sources.now) ≤ length order.old }
    ensures count { result ≡ length (classed nodes.now class sources.now) }
    ensures listed { order.new ≡ classed nodes.now class sources.now ++ drop result order.old }
{
    let mut count = 0;
    for source in sources {
        if record::class_of(record::kind_at(nodes, *source as usize)) != class {
            continue;
        }
        order[count] = *source;
        count += 1;
    }
    count
}

// Step 5: the sources of merged nodes in their canonical order: externals by digest, then blocks and internals by id.
fn arrange(nodes: &[u8], sources: &[u32], order: &mut [u32], spare: &mut [u32])
    requires { Sourced nodes.now sources.now order.old spare.old }
    ensures { order.new ≡ sorted nodes.now sources.now }
{
    let externals = list_class(nodes, sources, order, Class::External);
    let (by_digest, others) = order.split_at_mut(externals);
    sorting::sort_by_digest(nodes, by_digest, &mut spare[..externals]);
    let blocks = list_class(nodes, sources, others, Class::Block);
    let (_, internals) = others.split_at_mut(blocks);
    list_class(nodes, sources, internals, Class::Internal);
}

// Writes the place in the order of each merged id.
fn mark_places(states: &[u32], order: &[u32], places: &mut [u32])
    requires { Lined states.now order.now (length places.old) }
    ensures { (j : ℕ) → j < length order.now → get_or places.new (id_at states.now order.now j) 0 ≡ j }
{
    for (j, source) in order.iter().enumerate() {
        let id = states[*source as usize] as usize - 2;
        places[id] = j as u32;
    }
}

// Carries every id through the order.
fn carry(states: &mut [u32], places: &[u32])
    requires { Movable states.old places.now }
    ensures { states.new ≡ map (moved places.now) states.old }
{
    for state in states.iter_mut() {
        if *state < 2 {
            continue;
        }
        *state = places[*state as usize - 2] + 2;
    }
}

// Step 4: lists the new ids of the roots, first mention kept, repeats dropped; says how many they are. What is kept depends on what was,
// so no chain filters it.
fn list_roots(
    table: &Table,
    roots: &[u32],
    states: &[u32],
    listed: &mut [u32],
    starts: &mut [u32],
) -> usize
    requires { Rooted table.now roots.now states.now listed.old starts.old }
    ensures { Mentions table.now roots.now states.now listed.new starts.new result }
{
    let mut at = Cursor::start();
    let mut count = 0;
    for (k, root) in roots.iter().enumerate() {
        at = table.at_root(at, k);
        let id = states[at.base + *root as usize] - 2;
        if listed[id as usize] == 1 {
            continue;
        }
        listed[id as usize] = 1;
        starts[count] = id;
        count += 1;
    }
    count
}

// Puts the m merged nodes into their canonical order, carries every id through it and lists the roots; says how many roots there are.
pub(crate) fn settle(
    table: &Table,
    nodes: &[u8],
    roots: &[u32],
    work: &mut [u32],
    n: usize,
    m: usize,
) -> usize
    requires roots_len { length roots.now ≡ root_sum table.now }
    requires over { Over nodes.now work.old n m (starts table.now roots.now) }
    ensures { (g : List Node) (t : State) → Ended nodes.now work.old n m g t → ((x : ℕ) → Memᴰ x (starts table.now roots.now) → Finished t x) → Settled nodes.now work.new n m result g (starts table.now roots.now) t }
{
    // Between the states and the spare section lies what the walk kept: sources first, then what no step here reads.
    let (states, rest) = work.split_at_mut(SOURCES * n);
    let (walk, rest) = rest.split_at_mut((SPARE - SOURCES) * n);
    let (spare, rest) = rest.split_at_mut(n);
    let (order, rest) = rest.split_at_mut(n);
    let (places, rest) = rest.split_at_mut(n);
    let (listed, starts) = rest.split_at_mut(n);
    let order = &mut order[..m];
    arrange(nodes, &walk[..m], order, spare);
    mark_places(states, order, places);
    carry(states, places);
    list_roots(table, roots, states, listed, starts)
}
