// Steps, which a caller holds between two calls, and the states of the search: the same numbers, the phase as a number.
#![tactic(auto)]

ghost use Rattle.std.specs.Prelude.{◌≡◌};
ghost use Rattle.table.specs.Model.{reading_in};
ghost use Rattle.wanted.specs.Model.{name_by};
ghost use Rattle.steps.specs.Model.{phase_of, number_of, refusal_of, is_found, state_of, step_of, shown_as, ended_step};

use lent::MOST_INTERMEDIATES;
use machine::{Phase, State};
use refusal::Refusal;

// What a step is: a question (whether a key signed a certificate), an offer (a path that only the caller can still refuse), or an end.
// SPENT: a budget was used up, so nothing is said about the paths that were not looked at.
pub const ASK: u16 = 1;

pub const OFFER: u16 = 2;

pub const FOUND: u16 = 3;

pub const REFUSED: u16 = 4;

pub const SPENT: u16 = 5;

// A search between two calls, in numbers alone: the path, the end entity first; the anchor that is tried; what is left of the budgets.
#[repr(C)]
#[derive(Clone, Copy)]
pub struct Step {
    pub path: [usize; 7],
    pub next: [usize; 7],
    pub depth: usize,
    pub at: usize,
    pub list: usize,
    pub anchor: usize,
    pub signatures: u64,
    pub extensions: u64,
    pub comparisons: u64,
    pub best: u16,
    pub phase: u16,
    pub refusal: u16,
}

// A search that ended before it began.
pub fn ended(refusal: Refusal, signatures: u64, extensions: u64, comparisons: u64) -> Step
    ensures { result ≡ ended_step refusal signatures extensions comparisons }
{
    Step {
        path: [0usize; 7],
        next: [0usize; 7],
        depth: 0,
        at: 0,
        list: 0,
        anchor: 0,
        signatures,
        extensions,
        comparisons,
        best: refusal.number(),
        phase: REFUSED,
        refusal: refusal.number(),
    }
}

#[tactic(auto, unfolding(crate::specs::Model::phase_of))]
fn phase_of(phase: u16, refusal: Refusal) -> Phase
    ensures { result ≡ phase_of phase refusal }
{
    match phase {
        ASK => Phase::Ask,
        OFFER => Phase::Offer,
        FOUND => Phase::Found,
        SPENT => Phase::Spent(refusal),
        _ => Phase::Refused(refusal),
    }
}

#[tactic(auto, unfolding(crate::specs::Model::number_of))]
fn number_of(p: Phase) -> u16
    ensures { result ≡ number_of p }
{
    match p {
        Phase::Ask => ASK,
        Phase::Offer => OFFER,
        Phase::Found => FOUND,
        Phase::Walk | Phase::Refused(_) => REFUSED,
        Phase::Spent(_) => SPENT,
    }
}

#[tactic(auto, unfolding(crate::specs::Model::refusal_of))]
fn refusal_of(p: Phase) -> u16
    ensures { result ≡ refusal_of p }
{
    match p {
        Phase::Refused(e) | Phase::Spent(e) => e.number(),
        _ => 0,
    }
}

#[tactic(auto, unfolding(crate::specs::Model::is_found))]
fn is_found(p: Phase) -> bool
    ensures { result ≡ is_found p }
{
    matches!(p, Phase::Found)
}

// The state that a step is. One that no search has, with a path that is too long, is an end.
#[tactic(auto, unfolding(crate::specs::Model::state_of))]
pub fn state_of(t: Step) -> State
    ensures { result ≡ state_of t }
{
    let path = t.path;
    let next = t.next;
    let s = State {
        path,
        next,
        depth: t.depth,
        at: t.at,
        list: t.list,
        anchor: t.anchor,
        signatures: t.signatures,
        extensions: t.extensions,
        comparisons: t.comparisons,
        best: Refusal::from(t.best),
        phase: phase_of(t.phase, Refusal::from(t.refusal)),
    };
    if MOST_INTERMEDIATES < t.depth {
        return State {
            depth: 0,
            phase: Phase::Refused(Refusal::MAXIMUM_PATH_DEPTH_EXCEEDED),
            ..s
        };
    }
    s
}

fn step_of(s: State, phase: u16, refusal: u16) -> Step
    ensures { result ≡ step_of s phase refusal }
{
    let path = s.path;
    let next = s.next;
    Step {
        path,
        next,
        depth: s.depth,
        at: s.at,
        list: s.list,
        anchor: s.anchor,
        signatures: s.signatures,
        extensions: s.extensions,
        comparisons: s.comparisons,
        best: s.best.number(),
        phase,
        refusal,
    }
}

// The step that a state is. A path that is found is one only if the end entity, whose row has the number i, is good for the name.
#[tactic(auto, unfolding(crate::specs::Model::shown_as))]
pub fn shown(table: &[[usize; 37]], i: usize, end: &[u8], kind: u8, name: &[u8], s: State) -> Step
    ensures { result ≡ shown_as (name_by (reading_in table.now i end.now) end.now kind name.now) s s.phase }
{
    if !is_found(s.phase) {
        return step_of(s, number_of(s.phase), refusal_of(s.phase));
    }
    let reading = table::reading(table, i, end);
    match wanted::refusal_for(reading, end, kind, name) {
        Ok(()) => step_of(s, FOUND, 0),
        Err(e) => step_of(s, REFUSED, e.number()),
    }
}
