// The entry points as C has them: slices as pointer and length, the reply as its number and two values. `abi_c` exports them.
#![tactic(auto)]

ghost use Rattle.std.specs.Prelude.{◌≡◌, []};
ghost use Rattle.forest.specs.Validate.{validate as validate_of};
ghost use Rattle.forest.specs.Canonicalize.{canonicalize as canonicalize_of};
ghost use Rattle.forest.specs.Merge.{merge as merge_of};
ghost use Rattle.abi.specs.Calls.{Tells, Leaves};

use forest::Reply;

// Tells a reply: its number as the answer, its two values behind the references.
fn answer(reply: Reply, first: &mut u64, second: &mut u64) -> u32
    ensures { Tells reply result first.new second.new }
{
    let told = forest::tell(reply);
    *first = told.first;
    *second = told.second;
    told.number
}

// Whether node records stand in dense order.
pub fn forest_validate(nodes: &[u8], first: &mut u64, second: &mut u64) -> u32
    ensures { Tells (validate_of nodes.now) result first.new second.new }
{
    answer(dense_order::validate(nodes), first, second)
}

// One forest in its canonical order.
pub fn forest_canonicalize(
    nodes: &[u8],
    roots: &[u32],
    node_out: &mut [u8],
    root_out: &mut [u32],
    ids: &mut [u32],
    work: &mut [u32],
    first: &mut u64,
    second: &mut u64,
) -> u32
    ensures { Leaves
        (canonicalize_of
        (record { table = []; nodes = nodes.now; roots = roots.now })
        (record { nodes = node_out.old; roots = root_out.old; ids = ids.old; work = work.old }))
        result first.new second.new
        (record { nodes = node_out.new; roots = root_out.new; ids = ids.new; work = work.new }) }
{
    let reply = dense_order::canonicalize(nodes, roots, node_out, root_out, ids, work);
    answer(reply, first, second)
}

// Many forests into one.
pub fn forest_merge(
    table: &[u8],
    nodes: &[u8],
    roots: &[u32],
    limit: u32,
    node_out: &mut [u8],
    root_out: &mut [u32],
    ids: &mut [u32],
    work: &mut [u32],
    first: &mut u64,
    second: &mut u64,
) -> u32
    ensures { Leaves
        (merge_of limit
        (record { table = table.now; nodes = nodes.now; roots = roots.now })
        (record { nodes = node_out.old; roots = root_out.old; ids = ids.old; work = work.old }))
        result first.new second.new
        (record { nodes = node_out.new; roots = root_out.new; ids = ids.new; work = work.new }) }
{
    let reply = merger::merge(table, nodes, roots, limit, node_out, root_out, ids, work);
    answer(reply, first, second)
}
