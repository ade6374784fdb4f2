//! The search for a story.
ghost use Rattle.std.specs.Prelude.{◌≡◌, ◌≢◌, ◌↔◌, ◌<◌, ◌≤◌, ◌/◌, ◌||◌, Ok, OnOk, IfOk, false, true, length};
ghost use Rattle.vme_model.specs.History.{in_order};
ghost use Rattle.vme_model.specs.Report.{at_power_up, trace_limit};
ghost use Rattle.vme_shrink_search.specs.Replies.{reply};
ghost use Rattle.vme_shrink_search.specs.Stories.{IsFound, IsPart, IsTight, IsTightAt, without};
ghost use Rattle.vme_shrink_search.specs.Searching.{HasLeft, IsOn, IsSearch, next_size, start};

use crate::behind::{go_on, reply_behind};
use crate::fronts::Front;
use crate::listening::StoryProgress;
use crate::replies::Reply;
use std::alloc::{AllocError, Global};
use std::mem;
use vme_bus::Bus;
use vme_model::Edge;
use vme_store::Code;

/// A search for a story of an edge.
#[derive(Drop)]
struct Search {
    bus: Bus,
    edge: Edge,
    /// What is said of the edge behind the list.
    reply: Reply,
    /// What is left so far.
    list: Vec<Code>,
    /// What is left without a stretch that is tried.
    other: Vec<Code>,
}

/// The size of the stretches after a pass: half of it, but a pass at size 1 that left something out
/// is followed by another one.
fn next_size(size: usize, has_left: bool) -> usize
    ensures { result ≡ next_size size has_left }
{
    if size > 1 || !has_left {
        size / 2
    } else {
        size
    }
}

impl Search {
    /// A search that begins with the edges that were made.
    fn new(alloc: Global, front: Front, edge: Edge) -> Search
        ensures search { IsSearch result }
        ensures start { start result ≡ at_power_up front.version front.plan trace_limit }
        ensures list { result.list.items ≡ in_order front.history }
        ensures edge { result.edge ≡ edge }
    {
        let Front { mut bus, edges } = front;
        let reply = reply_behind(&mut bus, &edges, edge);
        Search {
            bus,
            edge,
            reply,
            list: edges,
            other: Vec::new(alloc),
        }
    }

    /// Goes from power-up through the list without the places from one up to another, and says what
    /// is said of the edge then.
    fn reply_without(&mut self, from: usize, to: usize) -> Result<Reply, AllocError>
        requires within { from ≤ to }
        requires end { to ≤ length self.old.list.items }
        ensures reply { IfOk result (λ t. t
            ≡ reply (start self.old) (without (start self.old) self.old.list.items from to)
            self.old.edge) }
        ensures other { OnOk result (self.new.other.items
            ≡ without (start self.old) self.old.list.items from to) }
        ensures start { OnOk result (start self.new ≡ start self.old) }
        ensures list { self.new.list ≡ self.old.list }
        ensures edge { self.new.edge ≡ self.old.edge }
        ensures target { self.new.reply ≡ self.old.reply }
    {
        self.bus.restart();
        self.other.clear();
        go_on(&mut self.bus, &mut self.other, &self.list[..from])?;
        go_on(&mut self.bus, &mut self.other, &self.list[to..])?;
        Ok(reply_behind(&mut self.bus, &self.other, self.edge))
    }

    /// Leaves the places from one up to another out, with what is then refused, if the same is said
    /// without them. Says whether it did.
    fn leave_out(&mut self, from: usize, to: usize) -> Result<bool, AllocError>
        requires search { IsSearch self.old }
        requires within { from ≤ to }
        requires end { to ≤ length self.old.list.items }
        ensures on { OnOk result (IsOn self.old self.new) }
        ensures left { result ≡ Ok true → self.new.list.items
            ≡ without (start self.old) self.old.list.items from to }
        ensures stays { result ≡ Ok false → self.new.list.items ≡ self.old.list.items }
        ensures other { result ≡ Ok false →
            reply (start self.old) (without (start self.old) self.old.list.items from to)
            self.old.edge ≢ self.old.reply }
    {
        let reply = self.reply_without(from, to)?;
        if reply.is_same(&self.reply) {
            mem::swap(&mut self.list, &mut self.other);
            return Ok(true);
        }
        Ok(false)
    }

    /// A pass: from the end on, stretch by stretch of this size, leaves each out without which the
    /// same is said. Says whether it left any out.
    fn pass<P: StoryProgress>(&mut self, size: usize, progress: &mut P) -> Result<bool, AllocError>
        requires search { IsSearch self.old }
        requires size { 0 < size }
        ensures left { IfOk result (λ has_left. HasLeft self.old self.new has_left) }
        ensures tight { IfOk result (λ has_left. (has_left ≡ false)
            ↔ IsTightAt (start self.old) self.old.edge size self.old.list.items) }
    {
        let mut has_left = false;
        let mut end = self.list.len();
        'ends: while end > 0 {
            progress.leaving_out(size, end, self.list.len());
            let begin = end.saturating_sub(size);
            let has_left_now = self.leave_out(begin, end)?;
            has_left |= has_left_now;
            end = begin;
        }
        Ok(has_left)
    }

    /// A run: passes at each power of two, from the least that is not below the length of the list
    /// down to 1. Says whether it left anything out.
    fn run<P: StoryProgress>(&mut self, progress: &mut P) -> Result<bool, AllocError>
        requires search { IsSearch self.old }
        ensures left { IfOk result (λ has_left. HasLeft self.old self.new has_left) }
        ensures tight { IfOk result (λ has_left. (has_left ≡ false)
            ↔ IsTight (start self.old) self.old.edge self.old.list.items) }
    {
        let mut has_left = false;
        let mut size = self.list.len().next_power_of_two();
        'sizes: while size > 0 {
            let has_left_now = self.pass(size, progress)?;
            has_left |= has_left_now;
            size = next_size(size, has_left_now);
        }
        Ok(has_left)
    }

    /// Runs until one leaves nothing out.
    fn shorten<P: StoryProgress>(&mut self, progress: &mut P) -> Result<(), AllocError>
        requires search { IsSearch self.old }
        ensures on { OnOk result (IsOn self.old self.new) }
        ensures part { OnOk result (IsPart self.new.list.items self.old.list.items) }
        ensures tight { OnOk result
            (IsTight (start self.old) self.old.edge self.new.list.items) }
        ensures still { OnOk result (IsTight (start self.old) self.old.edge self.old.list.items
            → self.new.list.items ≡ self.old.list.items) }
    {
        let mut has_left = true;
        'runs: while has_left {
            has_left = self.run(progress)?;
        }
        Ok(())
    }
}

/// A story of the next edge and of the edges that were made before it.
///
/// The edge has the same answer behind the story as behind the list: if it is refused, the verdict
/// and the conditions that it fails, by their texts; if it is accepted, what it delivers and the
/// situations that it brings about. Without any one edge of the story the answer is another. At E5
/// the story is the whole list, since a shorter one has room. `progress` hears of each stretch
/// before it is left out to see whether the same is said.
///
/// # Errors
/// `AllocError` if there is no memory for a second list as long as this one.
pub fn story<P: StoryProgress>(
    alloc: Global,
    front: Front,
    edge: Edge,
    progress: &mut P,
) -> Result<Vec<Code>, AllocError>
    ensures { let b = at_power_up front.version front.plan trace_limit in
        IfOk result (λ list. IsFound b (in_order front.history) edge list.items) }
{
    let mut search = Search::new(alloc, front, edge);
    if search.reply.is_full() {
        return Ok(search.list);
    }
    search.shorten(progress)?;
    Ok(search.list)
}
