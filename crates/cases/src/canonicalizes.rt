// Cases of Canonicalize: `name | nodes : roots | reply | nodes : roots : ids | lengths`, the lengths of buffers 2, 4, 5, 6, 7.
// Document 01 of a result: it passes Validate, and canonicalizing it again changes no id.
use crate::buffers::{BYTES, Lengths, NODES, Room, WORDS, front};
use crate::compare::{Fault, accepted, compared};
use crate::text::{Part, Section, read_nodes, read_words, words};

// The lengths that Canonicalize asks for.
fn fitting(nodes: usize, roots: usize) -> Lengths {
    let n = nodes.min(NODES);
    Lengths {
        nodes: n * record::SIZE,
        roots,
        ids: n,
        work: n * dense_order::WORK_WORDS,
    }
}

// How many bytes of nodes are lent and the other lengths: those that a case gives, or those that its forest asks for.
fn lengths_of(case: &[u8], nodes: usize, roots: usize) -> (usize, Lengths) {
    let Some(given) = words::<5>(Section::Numbers.of(case)) else {
        let lengths = fitting(nodes, roots);
        return (lengths.nodes, lengths);
    };
    let [lent, nodes, roots, ids, work] = given.map(|n| n as usize);
    (
        lent,
        Lengths {
            nodes,
            roots,
            ids,
            work,
        },
    )
}

// Whether the outputs are those of the case, no id changes, and the work room is zero.
fn same(case: &[u8], room: &Room) -> bool {
    let outputs = Section::Outputs.of(case);
    let same_nodes = room.nodes.holds(Some(outputs));
    let same_roots = room.roots.holds(Some(Part::Roots.of(outputs)));
    same_nodes && same_roots && room.moves_nothing() && room.work_is_zero()
}

// Whether a result passes Validate, and canonicalizing it again changes no id.
fn settled(case: &[u8], canonical: &Room) -> Result<(), Fault> {
    let nodes = canonical.nodes.lent();
    let roots = canonical.roots.lent();
    if !accepted(dense_order::validate(nodes)) {
        return Err(Fault::Invalid);
    }
    let lengths = fitting(nodes.len() / record::SIZE, roots.len());
    Room::marked(lengths, |again| {
        let reply = again.canonicalize(nodes, roots);
        if accepted(reply) && same(case, again) {
            Ok(())
        } else {
            Err(Fault::Moved)
        }
    })
}

// A case of Canonicalize.
pub(crate) fn run(case: &[u8]) -> Result<(), Fault> {
    let text = Section::Lent.of(case);
    let mut nodes = [0; BYTES];
    let mut roots = [0; WORDS];
    let n = read_nodes(text, &mut nodes);
    let r = read_words(Part::Roots.of(text), &mut roots);
    let (lent, lengths) = lengths_of(case, n, r);
    Room::marked(lengths, |room| {
        let reply = room.canonicalize(front(&nodes, lent), front(&roots, r));
        compared(case, reply, room)?;
        if accepted(reply) {
            settled(case, room)?;
        }
        Ok(())
    })
}
