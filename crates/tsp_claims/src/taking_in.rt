//! How claimed lines that fit are taken in.
ghost use Rattle.std.specs.Prelude.{◌≡◌, ◌≤◌, ◌<◌, ◌+◌, ◌++◌, ◌∷◌, if◌then◌else◌, None, Option, List, length};
ghost use Rattle.std.specs.Prelude.{vec_len, IfOk, OnErr, OnOk};
ghost use Rattle.tsp_base.specs.Headers.{HeaderValue};
ghost use Rattle.tsp_base.specs.History.{Line, Step};
ghost use Rattle.tsp_base.specs.Joins.{stepped, line_of as line_in};
ghost use Rattle.tsp_claims.specs.ClaimedHistory.{Claim, claims_post, makes_step, posts_in, step_at};
ghost use Rattle.tsp_claims.specs.Fitting.{acts_of, untold};
ghost use Rattle.tsp_claims.specs.Listed.{NamesNode, up_in};
ghost use Rattle.tsp_claims.specs.Stands.{ClaimsStand, claim_of};
ghost use Rattle.tsp_claims.specs.Steps.{ActsIn, step_by};
ghost use Rattle.tsp_claims.specs.TakingIn.{HasRoomFor, HoldsStep, JoinsEvent, StaysSame};
ghost use Rattle.tsp_history.specs.Histories.{deed_of, line_of, noted_after};

use crate::acting::Acting;
use crate::booted::wake;
use crate::claimed::Claimed;
use crate::claims::Claims;
use crate::held::HeldPlaced;
use crate::tally::Tally;
use std::alloc::{AllocError, Global};
use tsp_base::act::{Act, Placed};
use tsp_base::event::Event;
use tsp_base::place::Port;
use tsp_base::trace::Line2;
use tsp_history::held_act::HeldAct;
use tsp_history::line::HistoryLine;
use tsp_history::notes::Note;

/// The step of an event and its lines, which is to be taken in: nothing where the event makes none.
#[derive(Drop)]
pub(crate) struct HeldStep {
    /// The mark of the step, and its acts.
    pub(crate) lines: Vec<HistoryLine>,
    /// The posts among the acts.
    pub(crate) posts: Vec<Claimed>,
}

/// A line of a step: its mark, or an act on a port.
fn noted(step: Acting, port: Port, act: HeldAct) -> HistoryLine
    ensures { line_of result ≡ line_in (step_by step) step.tick port (deed_of act) }
{
    HistoryLine {
        at: step.at,
        node: step.node,
        why: step.why,
        tick: step.tick,
        port,
        act,
        note: Note::new(),
    }
}

/// The mark of a step, and its acts. Fails only if out of memory.
fn lines_of(alloc: Global, step: Acting, acts: &[Line2]) -> Result<Vec<HistoryLine>, AllocError>
    ensures lines { IfOk result (λ lines. (h : List Line) → noted_after h lines.items
        ≡ stepped (step_by step) step.tick (acts_of acts.now) h) }
    ensures many { IfOk result (λ lines. vec_len lines ≡ length acts.now + 1) }
{
    let mut lines = Vec::new(alloc);
    lines.push(noted(step, Port(0), HeldAct::mark(alloc)))?;
    for line in acts {
        let act = HeldAct::of(alloc, &line.placed.act)?;
        lines.push(noted(step, line.placed.port, act))?;
    }
    Ok(lines)
}

/// Notes the post that an act of a step claims, if it claims one. Fails only if out of memory.
fn claim_one(
    posts: &mut Vec<Claimed>,
    alloc: Global,
    event: u64,
    step: Acting,
    placed: &Placed,
) -> Result<(), AllocError>
    ensures posts { OnOk result (posts.new.items ≡ posts.old.items
        ++ claims_post event (step_by step) placed.now placed.now.act) }
    ensures len { vec_len posts.new ≤ vec_len posts.old + 1 }
{
    match &placed.act {
        Act::Post(_, _) => {
            let placed = HeldPlaced::of(alloc, placed)?;
            posts.push(Claimed {
                event,
                at: step.at,
                node: step.node,
                placed,
            })?;
            Ok(())
        }
        _ => Ok(()),
    }
}

/// The posts that acts of a step claim. Fails only if out of memory.
fn posts_of(
    alloc: Global,
    event: u64,
    step: Acting,
    acts: &[Line2],
) -> Result<Vec<Claimed>, AllocError>
    ensures posts { IfOk result (λ posts. posts.items ≡ posts_in event (step_by step)
        (acts_of acts.now)) }
    ensures few { IfOk result (λ posts. vec_len posts ≤ length acts.now) }
{
    let mut posts = Vec::new(alloc);
    for line in acts {
        claim_one(&mut posts, alloc, event, step, &line.placed)?;
    }
    Ok(posts)
}

/// Whether lines of an event make a step: those of a take do only where there are some.
fn is_step(e: &Event, acts: &[Line2]) -> bool
    ensures { result ≡ makes_step e.now (acts_of acts.now) }
{
    match e {
        Event::Take { .. } => !acts.is_empty(),
        _ => true,
    }
}

/// The step of an event of this number at which a node acts, if one does, with the acts of these lines;
/// that of a take only where there are lines. Fails only if out of memory.
fn step_of(
    alloc: Global,
    event: u64,
    e: &Event,
    step: Option<Acting>,
    acts: &[Line2],
) -> Result<HeldStep, AllocError>
    ensures { IfOk result (λ held. (header : HeaderValue) (o : Option Step) → ActsIn header o step
        → HoldsStep header event (if makes_step e.now (acts_of acts.now) then o else None)
        (acts_of acts.now) held) }
{
    match step {
        Some(step) if is_step(e, acts) => {
            let lines = lines_of(alloc, step, acts)?;
            let posts = posts_of(alloc, event, step, acts)?;
            Ok(HeldStep { lines, posts })
        }
        _ => Ok(HeldStep {
            lines: Vec::new(alloc),
            posts: Vec::new(alloc),
        }),
    }
}

impl Claims {
    /// Makes room for so many lines of an event. Fails only if out of memory; either way the claims
    /// are what they were.
    fn make_room(&mut self, count: usize) -> Result<(), AllocError>
        requires { count ≤ 20000 }
        ensures room { OnOk result (HasRoomFor count self.new) }
        ensures same { StaysSame self.old self.new }
    {
        self.lines.make_room(count + 1)?;
        self.posts.reserve(count)?;
        Ok(())
    }

    /// Takes in an event and its step, with so many lines.
    fn join(&mut self, e: &Event, held: HeldStep, count: usize)
        requires node { NamesNode (length self.old.header.nodes) e.now }
        requires events { self.old.events < 20000 }
        requires lines { self.old.told + count ≤ 20000 }
        requires room { HasRoomFor count self.old }
        requires few { (vec_len held.lines ≤ count + 1) × (vec_len held.posts ≤ count) }
        ensures { JoinsEvent e.now held count self.old self.new }
    {
        self.events += 1;
        self.told += count as u64;
        self.tally = Tally::new();
        self.lines.append(held.lines);
        let mut posts = held.posts;
        let _ = self.posts.append(&mut posts);
        wake(&mut self.up, e);
    }

    /// Takes in an event at which a node acts in this step, if one does, and its lines. Fails only if out of
    /// memory, and then the claims are what they were.
    pub(crate) fn take_in(
        &mut self,
        e: &Event,
        step: Option<Acting>,
        acts: &[Line2],
    ) -> Result<(), AllocError>
        requires node { NamesNode (length self.old.header.nodes) e.now }
        requires events { self.old.events < 20000 }
        requires lines { self.old.told + length acts.now ≤ 20000 }
        requires step { ActsIn self.old.header (step_at self.old.header self.old.posts.items
            (up_in self.old.up.items) e.now) step }
        ensures taken { OnOk result ((header : HeaderValue) (claims : List Claim)
            → ClaimsStand header claims self.old
            → ClaimsStand header (claim_of e.now acts.now ∷ claims) self.new) }
        ensures counted { OnOk result (self.new.tally ≡ untold) }
        ensures refused { OnErr result (StaysSame self.old self.new) }
    {
        let held = step_of(*self.posts.allocator(), self.events + 1, e, step, acts)?;
        self.make_room(acts.len())?;
        self.join(e, held, acts.len());
        Ok(())
    }
}
