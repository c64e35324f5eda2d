// Cases of Validate: `name | nodes | reply | length`.
use crate::buffers::{BYTES, front};
use crate::compare::{Fault, replied};
use crate::text::{Section, read_nodes, words};

// The section with the length, where the other cases have their outputs.
const LENGTH: Section = Section::Outputs;

// A case of Validate: it is lent the nodes alone, to the length that the case gives or to their end.
pub(crate) fn run(case: &[u8]) -> Result<(), Fault> {
    let mut nodes = [0; BYTES];
    let n = read_nodes(Section::Lent.of(case), &mut nodes);
    let given = words::<1>(LENGTH.of(case));
    let length = given.map_or(n * record::SIZE, |[length]| length as usize);
    replied(case, dense_order::validate(front(&nodes, length)))
}
