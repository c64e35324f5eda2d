// Records of fixed size in a slice of bytes, and the order of digests.
#![tactic(auto)]

ghost use Rattle.std.specs.Prelude.{◌≡◌, ◌+◌, ◌*◌, ◌<◌, ◌≤◌, ℕ, eqb, length, get_or, map, drop};
ghost use Rattle.std.proofs.lemmas.List.Edits.{sets};
ghost use Rattle.record.specs.Lists.{all, over, flat};
ghost use Rattle.record.specs.Number.{number, numbers, bytes};
ghost use Rattle.record.specs.Order.{compared};
ghost use Rattle.record.specs.Node.{fields, words, size, row_size, node_at, row_at, node_bytes, class_of, renumber, bad as is_bad};

use std::cmp::Ordering;

// How many child fields and digest words a node record has.
pub const FIELDS: usize = 2;

pub const WORDS: usize = 4;

// Where the digest of a node record begins, the bytes of a node record and of a table row, the highest kind.
const DIGEST: usize = 8 + 4 * FIELDS;

pub const SIZE: usize = DIGEST + 8 * WORDS;

pub const ROW_SIZE: usize = 8;

pub const LAST_KIND: u32 = 255;

// The classes of nodes, in their order.
#[derive(Clone, Copy, PartialEq, Eq, PartialOrd, Ord)]
pub enum Class {
    External,
    Block,
    Internal,
}

// A node: kind 0 is external, 1 a block, 2 to 255 internal. It stays a number, since a record may have any: it is then refused.
#[derive(Clone, Copy, PartialEq, Eq)]
pub struct Node {
    pub kind: u32,
    pub count: u32,
    pub kids: [u32; FIELDS],
    pub digest: [u64; WORDS],
}

// A table row: how many nodes and roots a forest has.
#[derive(Clone, Copy, PartialEq, Eq)]
pub struct Row {
    pub nodes: u32,
    pub roots: u32,
}

// The number in the four bytes from `at` on, the lowest first.
pub fn u32_at(s: &[u8], at: usize) -> u32
    requires { at + 4 ≤ length s.now }
    ensures { result ≡ number 4 s.now at }
{
    u32::from_le_bytes([s[at], s[at + 1], s[at + 2], s[at + 3]])
}

// The number in the eight bytes from `at` on, the lowest first. It and `u32_at` are public by these names, and `Word` reads by them.
pub fn u64_at(s: &[u8], at: usize) -> u64
    requires { at + 8 ≤ length s.now }
    ensures { result ≡ number 8 s.now at }
{
    let low = u64::from(u32_at(s, at));
    let high = u64::from(u32_at(s, at + 4));
    low + (high << 32)
}

// A number that stands in a record as `WIDTH` bytes, the lowest first.
trait Word: Copy + Default {
    ghost WIDTH: { ℕ };

    ghost value: { Self → ℕ };

    const WIDTH: usize;

    // The number from `at` on.
    fn at(s: &[u8], at: usize) -> Self
        requires { at + WIDTH ≤ length s.now }
        ensures { value result ≡ number WIDTH s.now at };

    // Writes the number from `at` on; all else stays.
    fn put(self, s: &mut [u8], at: usize)
        requires { at + WIDTH ≤ length s.old }
        ensures { s.new ≡ sets s.old at (bytes WIDTH (value self)) };
}

impl Word for u32 {
    ghost WIDTH = { 4 };

    ghost value = { λ x. x };

    const WIDTH: usize = 4;

    fn at(s: &[u8], at: usize) -> u32 {
        u32_at(s, at)
    }

    fn put(self, s: &mut [u8], at: usize) {
        s[at..at + 4].copy_from_slice(&self.to_le_bytes());
    }
}

impl Word for u64 {
    ghost WIDTH = { 8 };

    ghost value = { λ x. x };

    const WIDTH: usize = 8;

    fn at(s: &[u8], at: usize) -> u64 {
        u64_at(s, at)
    }

    fn put(self, s: &mut [u8], at: usize) {
        s[at..at + 8].copy_from_slice(&self.to_le_bytes());
    }
}

// The N numbers from `at` on.
fn words_at<T: Word, const N: usize>(s: &[u8], at: usize) -> [T; N]
    requires { at + T.WIDTH * N ≤ length s.now }
    ensures { map T.value result ≡ numbers T.WIDTH N s.now at }
{
    let mut d = [T::default(); N];
    for (i, x) in d.iter_mut().enumerate() {
        *x = T::at(s, at + T::WIDTH * i);
    }
    d
}

// Writes the numbers from `at` on; all else stays.
fn put_words<T: Word, const N: usize>(s: &mut [u8], at: usize, d: [T; N])
    requires { at + T.WIDTH * N ≤ length s.old }
    ensures { s.new ≡ sets s.old at (flat (bytes T.WIDTH) (map T.value d)) }
{
    for (i, x) in d.iter().enumerate() {
        x.put(s, at + T::WIDTH * i);
    }
}

// The kind of node record `i`. Which records there are only the caller knows, so each function that reads one asks for it.
pub fn kind_at(nodes: &[u8], i: usize) -> u32
    requires { size * i + size ≤ length nodes.now }
    ensures { result ≡ (node_at nodes.now i).kind }
{
    u32_at(nodes, SIZE * i)
}

// The class of a kind.
pub fn class_of(kind: u32) -> Class
    ensures { result ≡ class_of kind }
{
    match kind {
        0 => Class::External,
        1 => Class::Block,
        _ => Class::Internal,
    }
}

// The digest of node record `i`.
pub fn digest_at(nodes: &[u8], i: usize) -> [u64; WORDS]
    requires { size * i + size ≤ length nodes.now }
    ensures { result ≡ (node_at nodes.now i).digest }
{
    words_at(nodes, SIZE * i + DIGEST)
}

// Node record `i`, whole.
pub fn node_at(nodes: &[u8], i: usize) -> Node
    requires { size * i + size ≤ length nodes.now }
    ensures { result ≡ node_at nodes.now i }
{
    let at = SIZE * i;
    Node {
        kind: u32_at(nodes, at),
        count: u32_at(nodes, at + 4),
        kids: words_at(nodes, at + 8),
        digest: words_at(nodes, at + DIGEST),
    }
}

// Table row `i`.
pub fn row_at(table: &[u8], i: usize) -> Row
    requires { row_size * i + row_size ≤ length table.now }
    ensures { result ≡ row_at table.now i }
{
    let at = ROW_SIZE * i;
    Row {
        nodes: u32_at(table, at),
        roots: u32_at(table, at + 4),
    }
}

// How one digest stands to another: the first word that differs decides.
pub fn compare(a: [u64; WORDS], b: [u64; WORDS]) -> Ordering
    ensures { result ≡ compared a b }
{
    a.cmp(&b)
}

// Whether each child field from `count` on is 0: every field is looked at, so that no branch hangs on the count.
fn unused_are_zero(kids: [u32; FIELDS], count: u32) -> bool
    ensures { result ≡ all (eqb 0) (drop count kids) }
{
    let mut zero = true;
    for (i, kid) in kids.iter().enumerate() {
        zero &= (i < count as usize) | (*kid == 0);
    }
    zero
}

// Whether a record breaks the rules of its own fields.
pub fn bad(n: Node) -> bool
    ensures { result ≡ is_bad n }
{
    let unused = unused_are_zero(n.kids, n.count);
    (LAST_KIND < n.kind) | (FIELDS < n.count as usize) | ((n.kind < 2) & (0 < n.count)) | !unused
}

// The node with the numbers that `f` gives its children; kind, digest and the unused child fields stay.
pub fn renumbered<F: Fn(u32) -> u32>(node: Node, f: F) -> Node
    requires count_le_fields { node.count ≤ fields }
    requires callable { (i : ℕ) → i < node.count → F.pre f (get_or node.kids i 0) }
    ensures { (g : ℕ → ℕ) → ((i d : ℕ) → i < node.count → F.post f (get_or node.kids i 0) d → d ≡ g (get_or node.kids i 0)) → result ≡ renumber g node }
{
    let count = node.count as usize;
    let mut kids = node.kids;
    // Over all fields: a loop of fixed length keeps them in registers.
    for (i, kid) in kids.iter_mut().enumerate() {
        if i < count {
            *kid = f(*kid);
        }
    }
    Node { kids, ..node }
}

// Writes the record of a node as record `i`; all else stays.
pub fn put_node(out: &mut [u8], i: usize, n: Node)
    requires { size * i + size ≤ length out.old }
    ensures { out.new ≡ over out.old (size * i) (node_bytes n) }
{
    let at = SIZE * i;
    n.kind.put(out, at);
    n.count.put(out, at + 4);
    put_words(out, at + 8, n.kids);
    put_words(out, at + DIGEST, n.digest);
}
