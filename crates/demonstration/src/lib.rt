// The demonstration: merges the forests in the files `table`, `nodes` and `roots`, and prints the result.
// Each program that runs it is a crate, as `rt` has it: its folder and its output stand in files beside it.
#![tactic(auto)]

ghost use Rattle.std.specs.Prelude.{◌≡◌, ◌≤◌, length, take, IfOk, IfSome, OnErr};

use forest::Reply;
use std::io::Read;
use std::rt::Files;
use std::{fmt, fs, io};

// The depth limit, and how many forests, nodes and roots there is room for.
const LIMIT: u32 = 256;

const FORESTS: usize = 64;

const NODES: usize = 512;

const ROOTS: usize = 512;

// The bytes of a root, and of each file where it is full.
const ROOT_SIZE: usize = 4;

const TABLE_BYTES: usize = FORESTS * record::ROW_SIZE;

const NODE_BYTES: usize = NODES * record::SIZE;

const ROOT_BYTES: usize = ROOTS * ROOT_SIZE;

// The words of work room for all nodes.
const WORK: usize = NODES * dense_order::WORK_WORDS;

// What the three files are read as, or the files themselves.
#[derive(Drop)]
struct Inputs<T: Drop> {
    table: T,
    nodes: T,
    roots: T,
}

// Opens a file. A folder opens and can't be read, so reading nothing shows whether it is one.
fn open<R: Files>(rt: &R, name: &str) -> io::Result<R::File> {
    let mut file = fs::open(rt, name)?;
    file.read(&mut [])?;
    Ok(file)
}

// Opens the three files.
fn open_all<R: Files>(rt: &R) -> io::Result<Inputs<R::File>> {
    Ok(Inputs {
        table: open(rt, "table")?,
        nodes: open(rt, "nodes")?,
        roots: open(rt, "roots")?,
    })
}

// Where a node of the input stands in the result, as it is printed: a dash where it is not there.
#[derive(Clone, Copy)]
struct Place(u32);

impl fmt::Display for Place {
    fn fmt<W: fmt::Write>(&self, f: &mut fmt::Formatter<W>) -> fmt::Result {
        match self.0 {
            merger::NO_ID => f.write_str("-"),
            id => write!(f, "{id}"),
        }
    }
}

// Prints a reply's three numbers on a line.
fn print_reply(rt: &impl Print, reply: Reply) -> io::Result<()> {
    let told = forest::tell(reply);
    println!(rt; "{} {} {}", told.number, told.first, told.second)
}

// Prints a line for each root.
fn print_roots(rt: &impl Print, roots: &[u32]) -> io::Result<()> {
    for root in roots {
        println!(rt; "root {root}")?;
    }
    Ok(())
}

// Prints a line for each position.
fn print_map(rt: &impl Print, ids: &[u32]) -> io::Result<()> {
    for &id in ids {
        println!(rt; "map {}", Place(id))?;
    }
    Ok(())
}

// Merges, and prints the reply and, if it is accepted, the roots and the map.
fn merge_into(
    rt: &impl Print,
    table: &[u8],
    nodes: &[u8],
    roots: &[u32],
    ids: &mut [u32],
) -> io::Result<()> {
    let mut node_out = [0; NODE_BYTES];
    let mut root_out = [0; ROOTS];
    let mut work = [0; WORK];
    let reply = merger::merge(
        table,
        nodes,
        roots,
        LIMIT,
        &mut node_out,
        &mut root_out,
        ids,
        &mut work,
    );
    print_reply(rt, reply)?;
    let Reply::Accepted(_, count) = reply else {
        return Ok(());
    };
    let count = usize::try_from(count).map_or(ROOTS, |n| n.min(ROOTS));
    print_roots(rt, &root_out[..count])?;
    print_map(rt, ids)
}

// Reads the root numbers in a file's bytes, as many as there is room for.
fn read_roots(bytes: &[u8], roots: &mut [u32]) {
    let (words, _) = bytes.as_chunks::<ROOT_SIZE>();
    for (root, word) in roots.iter_mut().zip(words) {
        *root = u32::from_le_bytes(*word);
    }
}

// Merges the forests in three files' bytes.
fn merge_bytes(rt: &impl Print, bytes: Inputs<&[u8]>) -> io::Result<()> {
    let mut roots = [0; ROOTS];
    read_roots(bytes.roots, &mut roots);
    let mut ids = [0; NODES];
    let r = ROOTS.min(bytes.roots.len() / ROOT_SIZE);
    let n = NODES.min(bytes.nodes.len() / record::SIZE);
    merge_into(rt, bytes.table, bytes.nodes, &roots[..r], &mut ids[..n])
}

// Reads a file to its end, or until the buffer is full, and closes it: its writer need not wait for what is done with the rest. After
// an error the buffer may hold a part of the file.
fn read_whole<F: Read + Drop>(mut file: F, buffer: &mut [u8]) -> io::Result<usize>
    ensures count { IfOk result (λ n. n ≤ length buffer.new) }
    ensures bytes { IfOk result (λ n. IfSome (F.remaining file) (λ xs. take n buffer.new ≡ take (length buffer.new) xs)) }
    ensures err { OnErr result (length buffer.new ≡ length buffer.old) }
{
    reading::read_full(&mut file, buffer)
}

// Reads three open files, each closed before the next is read, and merges what they hold. Each buffer has a byte more than its file may have.
fn merge_files<F: Read + Drop>(rt: &impl Print, files: Inputs<F>) -> io::Result<()> {
    let mut table = [0; TABLE_BYTES + 1];
    let mut nodes = [0; NODE_BYTES + 1];
    let mut roots = [0; ROOT_BYTES + 1];
    let t = read_whole(files.table, &mut table)?;
    let n = read_whole(files.nodes, &mut nodes)?;
    let r = read_whole(files.roots, &mut roots)?;
    if TABLE_BYTES < t || NODE_BYTES < n || ROOT_BYTES < r {
        return println!(rt; "program limit");
    }
    if r % ROOT_SIZE != 0 {
        return println!(rt; "program input");
    }
    merge_bytes(
        rt,
        Inputs {
            table: &table[..t],
            nodes: &nodes[..n],
            roots: &roots[..r],
        },
    )
}

// Reads the three files of the folder that it is run in, merges them, and prints the result.
pub fn run(rt: &(impl Files + Print)) -> io::Result<()> {
    match open_all(rt) {
        Ok(files) => merge_files(rt, files),
        Err(_) => println!(rt; "program input"),
    }
}
