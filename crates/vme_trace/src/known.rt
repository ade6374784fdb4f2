//! Lines that were read before, looked up by their bytes.
ghost use Rattle.std.specs.Prelude.{◌≡◌, ◌≢◌, ◌+◌, ◌-◌, ◌<◌, ◌≤◌, ℕ, List, length, slice_index, take, drop, vec_len, vec_capacity, IfOk, IfErr, IfSome};
ghost use Rattle.vme_model.specs.declared.signals.Edge.{Edge};
ghost use Rattle.vme_trace.specs.Fronts.{IsFrontLine};
ghost use Rattle.vme_trace.specs.Known.{number_of, key_number, IsKeyOf};
ghost use Rattle.vme_trace.specs.Taking.{HasLines};

use crate::Fault;
use crate::feeds::{BLOCK, feeds_at, lowest, without_lowest};
use crate::front::edge_at;
use crate::keys::{Key, PLACES, key_at};
use std::alloc::Allocator;
use vme_model::{Driver, Edge, Wire};

/// The most bytes that a line of an edge has before its line feed.
const LONGEST: usize = 12;

/// A line that was read before, and its edge; none if the key is zero.
#[derive(Clone, Copy)]
struct Place {
    key: Key,
    edge: Edge,
    ghost spells: { key_number key ≢ 0 → IsKeyOf edge (key_number key) },
}

/// The lines that were read before, each at the place of its key. A later line with the same place
/// replaces an earlier one.
#[derive(Drop)]
pub(crate) struct Known {
    places: [Place; PLACES],
}

impl Known {
    /// No line was read yet.
    #[inline(always)]
    pub(crate) fn new() -> Known {
        let none = Place {
            key: Key { low: 0, high: 0 },
            edge: Edge {
                driver: Driver::Controller,
                wire: Wire::Bg(0),
                fall: false,
                value: None,
            },
        };
        Known {
            places: [none; PLACES],
        }
    }

    /// The edge of the line between two places of a text. A line feed stands at the second place.
    /// It is none if the line spells no edge, or the second place stands before the first.
    #[inline(always)]
    fn edge_between(&mut self, text: &[u8], start: usize, end: usize) -> Option<Edge>
        requires room { start + 16 ≤ length text.now }
        requires feed { slice_index text.now end ≡ 10 }
        requires within { end < length text.now }
        ensures { IfSome result
            (λ edge. IsFrontLine edge (drop start text.now) (drop (end + 1) text.now)) }
    {
        // If `end` stands before `start`, this wraps to more than a line may have.
        let line = end.wrapping_sub(start);
        if line > LONGEST {
            return None;
        }
        let key = key_at(text, start, line);
        let place = self.places[key.place()];
        if place.key.is_same(key) {
            return Some(place.edge);
        }
        self.learn(text, start, line, key)
    }

    /// Reads the line at a place of a text, and remembers it.
    #[inline(never)]
    fn learn(&mut self, text: &[u8], start: usize, line: usize, key: Key) -> Option<Edge>
        requires within { start + line < length text.now }
        requires key { key_number key ≡ number_of (take (line + 1) (drop start text.now)) }
        ensures { IfSome result
            (λ edge. IsFrontLine edge (drop start text.now) (drop (start + line + 1) text.now)) }
    {
        let text = &text[start..];
        let (edge, rest) = edge_at(text)?;
        if rest.len() + line + 1 != text.len() {
            return None;
        }
        self.places[key.place()] = Place { key, edge };
        Some(edge)
    }

    /// Reads the lines of a piece whose line feeds stand in the block at a place, as long as each
    /// spells an edge. The first line begins at `from`. It returns where the next one begins.
    ///
    /// The list has room for as many edges as bytes stand there.
    #[inline(always)]
    fn take_block<A: Allocator>(
        &mut self,
        piece: &[u8],
        at: usize,
        from: usize,
        edges: &mut Vec<Edge, A>,
    ) -> usize
        requires room { at + 80 ≤ length piece.now }
        requires begun { from ≤ at + 64 }
        requires spare { vec_len edges.old + (at + 64 - from) ≤ vec_capacity edges.old }
        ensures next { result ≤ at + 64 }
        ensures lines { HasLines (drop from piece.now) (drop result piece.now)
            edges.old.items edges.new.items }
    {
        let mut feeds = feeds_at(piece, at);
        let mut start = from;
        'lines: while feeds != 0 {
            let end = at + lowest(feeds);
            let Some(edge) = self.edge_between(piece, start, end) else {
                break;
            };
            edges.push_reserved(edge);
            feeds = without_lowest(feeds);
            start = end + 1;
        }
        start
    }

    /// Reads the lines at the head of a piece, except for its last bytes, as long as each spells an
    /// edge. It returns the rest.
    ///
    /// It asks for room once a block. It stops behind a block in which no line ends, since no edge
    /// has so long a line.
    ///
    /// # Errors
    /// X6 if memory runs out.
    #[inline(never)]
    pub(crate) fn take_blocks<'a, A: Allocator>(
        &mut self,
        piece: &'a [u8],
        edges: &mut Vec<Edge, A>,
    ) -> Result<&'a [u8], Fault>
        ensures ok { IfOk result
            (λ rest. HasLines piece.now rest.now edges.old.items edges.new.items) }
        ensures fault { IfErr result (λ fault. fault ≡ Fault.Memory) }
        ensures lost { IfErr result (λ fault. (rest : List ℕ)
            × HasLines piece.now rest edges.old.items edges.new.items) }
    {
        let mut start = 0;
        let mut at = 0;
        'steps: while piece.len() - at >= BLOCK + 16 && at <= start + BLOCK {
            if edges.reserve(2 * BLOCK).is_err() {
                return Err(Fault::Memory);
            }
            start = self.take_block(piece, at, start, edges);
            at += BLOCK;
        }
        Ok(&piece[start..])
    }
}
