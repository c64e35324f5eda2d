// The outputs: records, roots and ids of the result.
ghost use Rattle.std.specs.Prelude.{◌≡◌, List, map, ℕ, ◌*◌, ◌≤◌, length};
ghost use Rattle.record.specs.Lists.{over, flat};
ghost use Rattle.record.specs.Node.{size, node_bytes};
ghost use Rattle.record.specs.declared.Node.{Node};
ghost use Rattle.forest.specs.Walk.{State};
ghost use Rattle.merger.specs.Rooms.{shown_as};
ghost use Rattle.merger.specs.Settling.{Settled, Result, Delivered};
ghost use Rattle.merger.specs.Walking.{EachReadable, merged_at};

use crate::{BASES, NO_ID, ORDER, STARTS, merging};

// Writes the records of the merged nodes, whose sources stand in their order; what stands behind them stays.
fn write_nodes(nodes: &[u8], bases: &[u32], states: &[u32], order: &[u32], out: &mut [u8])
    requires readable { EachReadable nodes.now bases.now states.now order.now }
    requires in_bounds { size * length order.now ≤ length out.old }
    ensures { out.new ≡ over out.old 0 (flat node_bytes (map (merged_at nodes.now bases.now states.now) order.now)) }
{
    for (j, source) in order.iter().enumerate() {
        record::put_node(
            out,
            j,
            merging::merged_node(nodes, bases, states, *source as usize),
        );
    }
}

// Writes the listed roots; what stands behind them stays.
fn write_roots(starts: &[u32], out: &mut [u32])
    requires { length starts.now ≤ length out.old }
    ensures { out.new ≡ over out.old 0 starts.now }
{
    // No `copy_from_slice`: for it the library for C would need `memmove` from outside.
    for (i, root) in starts.iter().enumerate() {
        out[i] = *root;
    }
}

// The new id that a position's word tells, or the mark for none.
fn shown(state: u32) -> u32
    ensures { result ≡ shown_as state }
{
    if state < 2 { NO_ID } else { state - 2 }
}

// Writes the new id of each position, or the mark for none.
fn write_ids(states: &[u32], ids: &mut [u32])
    requires { length ids.old ≡ length states.now }
    ensures { ids.new ≡ map shown_as states.now }
{
    for (p, id) in ids.iter_mut().enumerate() {
        *id = shown(states[p]);
    }
}

// Writes nodes, roots and ids.
pub(crate) fn deliver(
    nodes: &[u8],
    work: &[u32],
    n: usize,
    m: usize,
    count: usize,
    node_out: &mut [u8],
    root_out: &mut [u32],
    ids: &mut [u32],
)
    requires fact { Result nodes.now work.now n m count }
    requires m_in_bounds { (size * m ≤ length node_out.old) × ((count ≤ length root_out.old) × (length ids.old ≡ n)) }
    ensures { (g : List Node) (ps : List ℕ) (t : State) → Settled nodes.now work.now n m count g ps t → Delivered g ps t node_out.old node_out.new root_out.old root_out.new ids.new }
{
    let (bases, order, starts) = (BASES * n, ORDER * n, STARTS * n);
    let states = &work[..n];
    write_nodes(
        nodes,
        &work[bases..bases + n],
        states,
        &work[order..order + m],
        node_out,
    );
    write_roots(&work[starts..starts + count], root_out);
    write_ids(states, ids);
}
