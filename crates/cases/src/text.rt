// A case is a line of text. Bars part its sections, semicolons forests, colons the parts of a forest or a section.
// Nodes are written as in document 01: E7, B7, I7(0,1). E7.0.0.1 gives all four digest words, I7k5(0) the kind 5,
// and R2.1.0.5 a record's kind, count and child fields as they stand, under a digest of zeros.
ghost use Rattle.std.specs.Prelude.{◌<◌, ◌≤◌, ◌*◌, length};
ghost use Rattle.record.specs.Node.{size};

use record::Node;

// The kinds of externals and blocks, and that of an internal that gives none: numbers, as a record has them.
const EXTERNAL: u32 = 0;

const BLOCK: u32 = 1;

const INTERNAL: u32 = 2;

// The sections of a case, in their order.
#[derive(Clone, Copy)]
pub(crate) enum Section {
    Name,
    Lent,
    Reply,
    Outputs,
    Numbers,
    Table,
}

// The parts of a forest and of the outputs, in their order.
#[derive(Clone, Copy)]
pub(crate) enum Part {
    Nodes,
    Roots,
    Ids,
}

// The text behind the k-th such mark, or nothing where there are fewer.
fn behind(text: &[u8], mark: u8, k: u8) -> &[u8] {
    let k = usize::from(k);
    text.splitn(k + 1, |&c| c == mark).nth(k).unwrap_or(&[])
}

impl Section {
    // The text from this section of a case on.
    pub(crate) fn of(self, case: &[u8]) -> &[u8] {
        behind(case, b'|', self as u8)
    }
}

impl Part {
    // The text from this part of a forest or a section on. As for a section, with another mark: a trait for the two would be longer.
    pub(crate) fn of(self, text: &[u8]) -> &[u8] {
        behind(text, b':', self as u8)
    }
}

// The text from the forest behind the first on, or nothing where it is the last.
pub(crate) fn next_forest(text: &[u8]) -> &[u8]
    requires { 0 < length text.now }
    ensures { length result.now < length text.now }
{
    match text.iter().position(|c| matches!(c, b'|' | b';')) {
        Some(i) if text[i] == b';' => &text[i + 1..],
        _ => &[],
    }
}

// Whether a part ends at this mark.
fn ends(c: u8) -> bool {
    matches!(c, b':' | b';' | b'|')
}

// The value with one more digit behind it, if it is one and 64 bits hold them.
fn with_digit(value: u64, digit: u8) -> Option<u64> {
    let low = char::from(digit).to_digit(10)?;
    value.checked_mul(10)?.checked_add(u64::from(low))
}

// A number of 32 bits; no case has a larger one in its place.
fn narrow(x: u64) -> u32 {
    u32::try_from(x).unwrap_or(u32::MAX)
}

// A text that is read from its front on.
#[derive(Drop)]
struct Cursor<'a> {
    rest: &'a [u8],
}

impl Cursor<'_> {
    // Passes the mark, if it stands here.
    fn passes(&mut self, mark: u8) -> bool {
        match self.rest.split_first() {
            Some((&c, rest)) if c == mark => {
                self.rest = rest;
                true
            }
            _ => false,
        }
    }

    // The number that begins here; a digit that would pass 64 bits is left out.
    fn number(&mut self) -> Option<u64> {
        let end = self.rest.iter().position(|c| !c.is_ascii_digit());
        let (digits, rest) = self.rest.split_at(end.unwrap_or(self.rest.len()));
        self.rest = rest;
        if digits.is_empty() {
            return None;
        }
        Some(
            digits.iter().fold(0, |value, &digit| {
                with_digit(value, digit).unwrap_or(value)
            }),
        )
    }

    // The number behind a mark, if the mark stands here.
    fn marked(&mut self, mark: u8) -> Option<u64> {
        if self.passes(mark) {
            self.number()
        } else {
            None
        }
    }

    // Four numbers that points part; those that are left out are 0.
    fn four(&mut self) -> [u64; 4] {
        let first = self.number().unwrap_or(0);
        let second = self.marked(b'.').unwrap_or(0);
        let third = self.marked(b'.').unwrap_or(0);
        [first, second, third, self.marked(b'.').unwrap_or(0)]
    }

    // A record of four fields as they stand.
    fn record(&mut self) -> Node {
        let [kind, count, first, second] = self.four();
        Node {
            kind: narrow(kind),
            count: narrow(count),
            kids: [narrow(first), narrow(second)],
            digest: [0; 4],
        }
    }

    // An internal's digest, kind and children.
    fn internal(&mut self) -> Node {
        let digest = self.four();
        let kind = self.marked(b'k').map_or(INTERNAL, narrow);
        let first = self.marked(b'(');
        let second = self.marked(b',');
        Node {
            kind,
            count: match (first, second) {
                (None, _) => 0,
                (Some(_), None) => 1,
                (Some(_), Some(_)) => 2,
            },
            kids: [first.map_or(0, narrow), second.map_or(0, narrow)],
            digest,
        }
    }

    // A node without children.
    fn leaf(&mut self, kind: u32) -> Node {
        Node {
            kind,
            count: 0,
            kids: [0; 2],
            digest: self.four(),
        }
    }

    // The node that a letter and what stands behind it say. The letter is the text's own: it is taken apart here and nowhere else.
    fn node(&mut self, letter: u8) -> Node {
        match letter {
            b'E' => self.leaf(EXTERNAL),
            b'B' => self.leaf(BLOCK),
            b'I' => self.internal(),
            _ => self.record(),
        }
    }

    // The number that begins here, in 32 bits; a dash is the mark for none.
    fn word(&mut self) -> u32 {
        if self.passes(b'-') {
            return merger::NO_ID;
        }
        self.number().map_or(0, narrow)
    }

    // Passes what stands before the next such place, or all that is left.
    fn skip_to<F: Fn(u8) -> bool>(&mut self, is_there: F)
        requires { F.IsAlwaysCallable is_there }
    {
        let end = self.rest.iter().position(|&c| is_there(c));
        self.rest = &self.rest[end.unwrap_or(self.rest.len())..];
    }

    // The part's next number. Blanks part them.
    fn next_word(&mut self) -> Option<u32> {
        self.skip_to(|c| c != b' ');
        let &c = self.rest.first()?;
        if ends(c) {
            return None;
        }
        let word = self.word();
        self.skip_to(|c| c == b' ' || ends(c));
        Some(word)
    }
}

// Writes the records of a part's nodes, as many as fit; says how many. A chain that writes as it counts would hide the writing.
pub(crate) fn read_nodes(text: &[u8], out: &mut [u8]) -> usize
    ensures { result * size ≤ length out.new }
{
    let letters = text
        .iter()
        .enumerate()
        .take_while(|(_, c)| !ends(**c))
        .filter(|(_, c)| c.is_ascii_uppercase());
    let (records, _) = out.as_chunks_mut::<{ record::SIZE }>();
    let mut n = 0;
    for (place, (i, letter)) in records.iter_mut().zip(letters) {
        let mut cursor = Cursor {
            rest: &text[i + 1..],
        };
        record::put_node(place, 0, cursor.node(*letter));
        n += 1;
    }
    n
}

// Writes a part's numbers, as many as fit; says how many, as `read_nodes` does. It looks at no more of the text than it takes.
pub(crate) fn read_words(text: &[u8], out: &mut [u32]) -> usize
    ensures { result ≤ length out.new }
{
    let mut cursor = Cursor { rest: text };
    let mut n = 0;
    for place in out.iter_mut() {
        let Some(word) = cursor.next_word() else {
            break;
        };
        *place = word;
        n += 1;
    }
    n
}

// The first numbers of a part, if there are as many.
pub(crate) fn words<const N: usize>(text: &[u8]) -> Option<[u32; N]> {
    let mut words = [0; N];
    (read_words(text, &mut words) == N).then_some(words)
}
