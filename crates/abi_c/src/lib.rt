// The functions of `abi` under their names in C: this crate is the static library. An export is a function of its own.
#![tactic(auto)]

ghost use Rattle.std.specs.Prelude.{◌≡◌, []};
ghost use Rattle.forest.specs.Validate.{validate as validate_of};
ghost use Rattle.forest.specs.Canonicalize.{canonicalize as canonicalize_of};
ghost use Rattle.forest.specs.Merge.{merge as merge_of};
ghost use Rattle.abi.specs.Calls.{Tells, Leaves};

// Whether node records stand in dense order.
#[unsafe(no_mangle)]
pub extern "C" fn forest_validate(nodes: &[u8], first: &mut u64, second: &mut u64) -> u32
    ensures { Tells (validate_of nodes.now) result first.new second.new }
{
    abi::forest_validate(nodes, first, second)
}

// One forest in its canonical order.
#[unsafe(no_mangle)]
pub extern "C" fn forest_canonicalize(
    nodes: &[u8],
    roots: &[u32],
    node_out: &mut [u8],
    root_out: &mut [u32],
    ids: &mut [u32],
    work: &mut [u32],
    first: &mut u64,
    second: &mut u64,
) -> u32
    ensures { Leaves
        (canonicalize_of
        (record { table = []; nodes = nodes.now; roots = roots.now })
        (record { nodes = node_out.old; roots = root_out.old; ids = ids.old; work = work.old }))
        result first.new second.new
        (record { nodes = node_out.new; roots = root_out.new; ids = ids.new; work = work.new }) }
{
    abi::forest_canonicalize(nodes, roots, node_out, root_out, ids, work, first, second)
}

// Many forests into one.
#[unsafe(no_mangle)]
pub extern "C" fn forest_merge(
    table: &[u8],
    nodes: &[u8],
    roots: &[u32],
    limit: u32,
    node_out: &mut [u8],
    root_out: &mut [u32],
    ids: &mut [u32],
    work: &mut [u32],
    first: &mut u64,
    second: &mut u64,
) -> u32
    ensures { Leaves
        (merge_of limit
        (record { table = table.now; nodes = nodes.now; roots = roots.now })
        (record { nodes = node_out.old; roots = root_out.old; ids = ids.old; work = work.old }))
        result first.new second.new
        (record { nodes = node_out.new; roots = root_out.new; ids = ids.new; work = work.new }) }
{
    abi::forest_merge(
        table, nodes, roots, limit, node_out, root_out, ids, work, first, second,
    )
}
