// The answer of every entry point, and its numbers. What the entry points mean stands in specs/.
#![tactic(auto)]

ghost use Rattle.std.specs.Prelude.{◌≡◌};
ghost use Rattle.forest.specs.Reply.{row as row_of, told};

// The answer of every entry point: document 01 has acceptance in the same table as the refusals, so it is no `Result`.
#[derive(Clone, Copy, PartialEq, Eq)]
pub enum Reply {
    Accepted(u64, u64),
    BadBuffers(u64),
    TooMany,
    BadRecord(u64),
    RootRange(u64),
    DuplicateExternal(u64),
    ChildRange(u64, u64),
    Cycle(u64),
    TooDeep(u64),
    NoRoom(u64, u64),
    ClassOrder(u64),
    DigestOrder(u64),
    ForwardReference(u64, u64),
    BadLimit,
}

// A reply's number and its two values.
#[derive(Clone, Copy, PartialEq, Eq)]
pub struct Told {
    pub number: u32,
    pub first: u64,
    pub second: u64,
}

// A row of the table of reply numbers.
fn row(number: u32, first: u64, second: u64) -> Told
    ensures { result ≡ row_of number first second }
{
    Told {
        number,
        first,
        second,
    }
}

// A reply's number and its two values. Contracts and pages have it by this name, so it is no `From`.
pub fn tell(reply: Reply) -> Told
    ensures { result ≡ told reply }
{
    match reply {
        Reply::Accepted(a, b) => row(0, a, b),
        Reply::BadBuffers(a) => row(1, a, 0),
        Reply::TooMany => row(2, 0, 0),
        Reply::BadRecord(a) => row(3, a, 0),
        Reply::RootRange(a) => row(4, a, 0),
        Reply::DuplicateExternal(a) => row(5, a, 0),
        Reply::ChildRange(a, b) => row(6, a, b),
        Reply::Cycle(a) => row(7, a, 0),
        Reply::TooDeep(a) => row(8, a, 0),
        Reply::NoRoom(a, b) => row(9, a, b),
        Reply::ClassOrder(a) => row(10, a, 0),
        Reply::DigestOrder(a) => row(11, a, 0),
        Reply::ForwardReference(a, b) => row(12, a, b),
        Reply::BadLimit => row(13, 0, 0),
    }
}
