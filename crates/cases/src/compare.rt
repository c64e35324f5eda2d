// What a case asks for, what it finds, and the line about it.
// A case's sections: its name, what is lent, the reply, the outputs `nodes : roots : ids`, numbers, and for Merge the table.
use crate::buffers::{Room, front};
use crate::text::{Part, Section, read_words};
use forest::{Reply, Told};
use std::{fmt, io};

// The outputs and the work room, by the numbers that the replies give them.
#[derive(Clone, Copy)]
pub(crate) enum Output {
    Nodes = 4,
    Roots = 5,
    Ids = 6,
    Work = 7,
}

// What a case finds wrong: another reply, a buffer, a result that fails Validate, a result that Canonicalize changes.
#[derive(Clone, Copy)]
pub(crate) enum Fault {
    Reply(Told),
    Buffer(Output),
    Invalid,
    Moved,
}

impl fmt::Display for Fault {
    fn fmt<W: fmt::Write>(&self, f: &mut fmt::Formatter<W>) -> fmt::Result {
        match self {
            Fault::Reply(told) => {
                write!(f, "reply {} {} {}", told.number, told.first, told.second)
            }
            Fault::Buffer(output) => write!(f, "buffer {}", *output as u8),
            Fault::Invalid => f.write_str("the result fails Validate"),
            Fault::Moved => f.write_str("the result is changed by Canonicalize"),
        }
    }
}

// The reply that a case asks for.
fn wanted(case: &[u8]) -> Told {
    let mut row = [0; 3];
    read_words(Section::Reply.of(case), &mut row);
    let [number, first, second] = row;
    Told {
        number,
        first: u64::from(first),
        second: u64::from(second),
    }
}

pub(crate) fn accepted(reply: Reply) -> bool {
    matches!(reply, Reply::Accepted(..))
}

// Compares the reply with the one that a case asks for.
pub(crate) fn replied(case: &[u8], reply: Reply) -> Result<(), Fault> {
    let told = forest::tell(reply);
    if told == wanted(case) {
        Ok(())
    } else {
        Err(Fault::Reply(told))
    }
}

// Whether the work room is all zero, or has its marks after a reply that comes before it is used.
fn work_is(reply: Reply, room: &Room) -> bool {
    match reply {
        Reply::BadBuffers(_) | Reply::TooMany | Reply::BadLimit => room.work.holds(None),
        _ => room.work_is_zero(),
    }
}

// Compares the reply and the buffers after a call with what the case asks for: its outputs if it is accepted, else the marks.
pub(crate) fn compared(case: &[u8], reply: Reply, room: &Room) -> Result<(), Fault> {
    replied(case, reply)?;
    let outputs = accepted(reply).then_some(Section::Outputs.of(case));
    if !room.nodes.holds(outputs) {
        return Err(Fault::Buffer(Output::Nodes));
    }
    if !room.roots.holds(outputs.map(|text| Part::Roots.of(text))) {
        return Err(Fault::Buffer(Output::Roots));
    }
    if !room.ids.holds(outputs.map(|text| Part::Ids.of(text))) {
        return Err(Fault::Buffer(Output::Ids));
    }
    if !work_is(reply, room) {
        return Err(Fault::Buffer(Output::Work));
    }
    Ok(())
}

// Writes a case's name: a blank and a bar end it.
pub(crate) fn write_name(rt: &impl Print, case: &[u8]) -> io::Result<()> {
    let bar = case.iter().position(|&c| c == b'|');
    let end = bar.map_or(case.len(), |i| i + 1);
    rt.write_all(front(case, end.saturating_sub(2)))
}

// Ends a case's line with what the case finds.
pub(crate) fn write_found(rt: &impl Print, found: Result<(), Fault>) -> io::Result<()> {
    match found {
        Ok(()) => println!(rt; ": ok"),
        Err(fault) => println!(rt; ": wrong, {fault}"),
    }
}
