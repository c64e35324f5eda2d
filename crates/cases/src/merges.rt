// Cases of Merge: `name | forests | reply | nodes : roots : ids | limit lengths | table`, a forest `nodes : roots`.
// Lengths are of buffers 1 to 7; a table is given where it is not that of the forests.
ghost use Rattle.std.specs.Prelude.{◌≤◌};
ghost use Rattle.cases.specs.declared.buffers.TheConstants.{NODES, WORDS};
ghost use Rattle.cases.specs.declared.merges.TheConstants.{FORESTS};

use crate::buffers::{BYTES, Lengths, Room, WORDS, front};
use crate::compare::{Fault, compared};
use crate::text::{Part, Section, next_forest, read_nodes, read_words, words};

// The limit where a case gives none.
const LIMIT: u32 = 256;

// Room for the rows of 16 forests.
const FORESTS: usize = 16;

// Room for a table of two rows more than there may be forests.
const TABLE_BYTES: usize = 8208;

// The bytes of a word.
const WORD_SIZE: usize = 4;

// The forests of a case: their rows, nodes and roots, and how many of each are read, since a `Vec` would take a heap.
#[derive(Drop)]
struct Forests {
    rows: [[u32; 2]; FORESTS],
    nodes: [u8; BYTES],
    roots: [u32; WORDS],
    row_count: usize,
    node_count: usize,
    root_count: usize,
    ghost rows_fit: { row_count ≤ FORESTS },
    ghost nodes_fit: { node_count ≤ NODES },
    ghost roots_fit: { root_count ≤ WORDS },
}

// The limit, and the lengths of the buffers that are lent.
#[derive(Clone, Copy)]
struct Job {
    limit: u32,
    table: usize,
    nodes: usize,
    roots: usize,
    out: Lengths,
}

impl Forests {
    // Reads the forest at the front of a text.
    fn read(&mut self, forest: &[u8]) {
        let nodes = read_nodes(forest, &mut self.nodes[self.node_count * record::SIZE..]);
        let roots = read_words(Part::Roots.of(forest), &mut self.roots[self.root_count..]);
        if let Some(row) = self.rows.get_mut(self.row_count) {
            *row = [nodes as u32, roots as u32];
            self.row_count += 1;
            self.node_count += nodes;
            self.root_count += roots;
        }
    }

    // None yet.
    fn none() -> Self {
        Forests {
            rows: [[0; 2]; FORESTS],
            nodes: [0; BYTES],
            roots: [0; WORDS],
            row_count: 0,
            node_count: 0,
            root_count: 0,
        }
    }

    // Reads the forests of a case, each from all that is left: the first colon there is that of its roots.
    fn read_all(&mut self, case: &[u8]) {
        let mut text = Section::Lent.of(case);
        // How far a forest goes is known behind it: there is no list to go over.
        while !text.is_empty() {
            self.read(text);
            text = next_forest(text);
        }
    }

    // Lengths with room enough: a record, a root and a word of work more than are needed.
    fn roomy(&self, limit: u32) -> Job {
        let n = self.node_count;
        Job {
            limit,
            table: self.row_count * record::ROW_SIZE,
            nodes: n * record::SIZE,
            roots: self.root_count,
            out: Lengths {
                nodes: (n + 1) * record::SIZE,
                roots: self.root_count + 1,
                ids: n,
                work: n * dense_order::WORK_WORDS + 1,
            },
        }
    }

    // The limit and lengths that a case gives, or room enough.
    fn job(&self, case: &[u8]) -> Job {
        let numbers = Section::Numbers.of(case);
        let Some(given) = words::<8>(numbers) else {
            return self.roomy(words::<1>(numbers).map_or(LIMIT, |[limit]| limit));
        };
        let [_, table, nodes, roots, node_out, root_out, ids, work] = given.map(|n| n as usize);
        Job {
            limit: given[0],
            table,
            nodes,
            roots,
            out: Lengths {
                nodes: node_out,
                roots: root_out,
                ids,
                work,
            },
        }
    }
}

// Writes the bytes of a table's words.
fn put_words(table: &mut [u8], words: &[u32]) {
    let (places, _) = table.as_chunks_mut::<WORD_SIZE>();
    for (place, word) in places.iter_mut().zip(words) {
        *place = word.to_le_bytes();
    }
}

// A case of Merge.
pub(crate) fn run(case: &[u8]) -> Result<(), Fault> {
    // The table stands first: farther down, a compiler zeroes its place twice.
    let mut table = [0; TABLE_BYTES];
    let mut forests = Forests::none();
    forests.read_all(case);
    let job = forests.job(case);
    read_words(Section::Table.of(case), forests.rows.as_flattened_mut());
    put_words(&mut table, forests.rows.as_flattened());
    Room::marked(job.out, |room| {
        let reply = room.merge(
            front(&table, job.table),
            front(&forests.nodes, job.nodes),
            front(&forests.roots, job.roots),
            job.limit,
        );
        compared(case, reply, room)
    })
}
