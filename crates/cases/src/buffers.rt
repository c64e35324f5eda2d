// The buffers that a case lends, with a mark in each place, and what they hold afterwards.
ghost use Rattle.std.specs.Prelude.{◌≤◌};

use crate::text::{read_nodes, read_words};
use forest::Reply;

// Room for the records of 16 nodes, and for their work words and some more.
pub(crate) const NODES: usize = 16;

pub(crate) const BYTES: usize = NODES * record::SIZE;

pub(crate) const WORDS: usize = 288;

// The first places of a buffer, or all where there are fewer.
pub(crate) fn front<T>(buffer: &[T], n: usize) -> &[T] {
    &buffer[..n.min(buffer.len())]
}

// What the places of a buffer hold: the bytes of records, or words.
pub(crate) trait Value: Copy + PartialEq + Default {
    // The mark in a place: none is 0, and neighbours differ.
    fn mark(i: usize) -> Self;

    // Writes what a part of a case says, as much as fits.
    fn read(text: &[u8], out: &mut [Self]);
}

impl Value for u8 {
    fn mark(i: usize) -> u8 {
        (i % 251 + 3) as u8
    }

    fn read(text: &[u8], out: &mut [u8]) {
        read_nodes(text, out);
    }
}

impl Value for u32 {
    // No case has a number that high.
    fn mark(i: usize) -> u32 {
        (3000000000 + i % WORDS) as u32
    }

    fn read(text: &[u8], out: &mut [u32]) {
        read_words(text, out);
    }
}

// A buffer whose first places are lent, with a mark in each: a `Vec` would take a heap.
#[derive(Drop)]
pub(crate) struct Buffer<T, const N: usize> {
    places: [T; N],
    lent: usize,
    ghost within: { lent ≤ N },
}

impl<T: Value, const N: usize> Buffer<T, N> {
    // Lends as many places as are asked for, or all.
    pub(crate) fn marked(asked: usize) -> Self {
        let lent = asked.min(N);
        let mut places = [T::default(); N];
        for (i, place) in places[..lent].iter_mut().enumerate() {
            *place = T::mark(i);
        }
        Buffer { places, lent }
    }

    pub(crate) fn lent(&self) -> &[T] {
        &self.places[..self.lent]
    }

    pub(crate) fn lent_mut(&mut self) -> &mut [T] {
        let end = self.lent;
        let places = &mut self.places;
        let all = &mut places[..];
        &mut all[..end]
    }

    // Whether what was lent holds what a text says and then its marks, or its marks alone where there is no text.
    pub(crate) fn holds(&self, text: Option<&[u8]>) -> bool {
        let mut want = Self::marked(self.lent);
        if let Some(text) = text {
            T::read(text, &mut want.places);
        }
        want.places.starts_with(self.lent())
    }
}

// How many places of the outputs and of the work room are lent.
#[derive(Clone, Copy)]
pub(crate) struct Lengths {
    pub(crate) nodes: usize,
    pub(crate) roots: usize,
    pub(crate) ids: usize,
    pub(crate) work: usize,
}

// The outputs and the work room: borrowed, since each move of the buffers would copy them.
#[derive(Drop)]
pub(crate) struct Room<'a> {
    pub(crate) nodes: &'a mut Buffer<u8, BYTES>,
    pub(crate) roots: &'a mut Buffer<u32, WORDS>,
    pub(crate) ids: &'a mut Buffer<u32, WORDS>,
    pub(crate) work: &'a mut Buffer<u32, WORDS>,
}

impl Room<'_> {
    // Lends marked buffers to what uses them.
    pub(crate) fn marked<R, F: FnOnce(&mut Room<'_>) -> R>(lengths: Lengths, used: F) -> R
        requires { F.IsAlwaysCallable used }
    {
        let mut nodes = Buffer::marked(lengths.nodes);
        let mut roots = Buffer::marked(lengths.roots);
        let mut ids = Buffer::marked(lengths.ids);
        let mut work = Buffer::marked(lengths.work);
        used(&mut Room {
            nodes: &mut nodes,
            roots: &mut roots,
            ids: &mut ids,
            work: &mut work,
        })
    }

    pub(crate) fn canonicalize(&mut self, nodes: &[u8], roots: &[u32]) -> Reply {
        dense_order::canonicalize(
            nodes,
            roots,
            self.nodes.lent_mut(),
            self.roots.lent_mut(),
            self.ids.lent_mut(),
            self.work.lent_mut(),
        )
    }

    pub(crate) fn merge(&mut self, table: &[u8], nodes: &[u8], roots: &[u32], limit: u32) -> Reply {
        merger::merge(
            table,
            nodes,
            roots,
            limit,
            self.nodes.lent_mut(),
            self.roots.lent_mut(),
            self.ids.lent_mut(),
            self.work.lent_mut(),
        )
    }

    // Whether each id has itself as its new id.
    pub(crate) fn moves_nothing(&self) -> bool {
        self.ids
            .lent()
            .iter()
            .enumerate()
            .all(|(i, &id)| id as usize == i)
    }

    pub(crate) fn work_is_zero(&self) -> bool {
        self.work.lent().iter().all(|&word| word == 0)
    }
}
