// What an answer does to a state, before the walk goes on.
#![tactic(auto)]

ghost use Rattle.std.specs.Prelude.{◌≡◌, List, [], ℕ, ◌<◌};
ghost use Rattle.refusal.specs.Model.{worse_of};
ghost use Rattle.rows.specs.Model.{outlined};
ghost use Rattle.lent.specs.Lent.{each_now, readings, pre, some_of};
ghost use Rattle.entries.specs.Tally.{Leaves};
ghost use Rattle.machine.specs.declared.Phase.TheVariants.{Walk, Ask, Offer};
ghost use Rattle.dialogue.specs.Model.{Path, World};
ghost use Rattle.dialogue.specs.Dialogue.{give};
ghost use Rattle.machine.specs.Machine.{place_of, key_at, what_at, tree_of, effort, Heard};
ghost use Rattle.machine.specs.World.{meaning_of, is_bound, constrained_as, names_by, JudgesBy};

use lent::{Anchors, Lent, MOST_INTERMEDIATES};
use machine::{Phase, State};
use refusal::Refusal;
use rows::Outline;

// The refusal that an answer stands for, or 0. That a key cannot be read is a general one here: the key itself is asked for a better.
#[tactic(auto, unfolding(machine::specs::World::meaning_of))]
fn meaning(answer: u16) -> Refusal
    ensures { result ≡ meaning_of answer }
{
    match answer {
        0 => Refusal::from(0),
        2 => Refusal::UNSUPPORTED_SIGNATURE_ALGORITHM,
        3 => Refusal::UNSUPPORTED_SIGNATURE_ALGORITHM_FOR_PUBLIC_KEY,
        4 => Refusal::BAD_DER,
        _ => Refusal::INVALID_SIGNATURE_FOR_PUBLIC_KEY,
    }
}

// Whether an anchor has name constraints.
#[tactic(auto, unfolding(machine::specs::World::is_bound))]
fn is_bound(anchors: &Anchors, anchor: usize) -> bool
    ensures { result ≡ is_bound (each_now anchors.now.constraints.now) anchors.now.bound.now anchor }
{
    candidate::is_flagged(anchors.bound, anchor) && anchor < anchors.constraints.len()
}

// Whether a certificate has name constraints, as far as is known.
#[tactic(auto, unfolding(machine::specs::World::constrained_as))]
fn is_constrained(outline: Result<Outline, Refusal>) -> bool
    ensures { result ≡ constrained_as outline }
{
    match outline {
        Ok(o) => o.constrained,
        Err(_) => true,
    }
}

// The same of some certificate of a path.
fn some_constrained(lent: &Lent, path: [usize; 7], depth: usize) -> bool
    requires { depth < 7 }
    ensures { result ≡ some_of (λ n. constrained_as (outlined (readings lent.now n))) (pre path depth) }
{
    for k in (0..depth + 1).rev() {
        let n = lent::number_at(path, k);
        if is_constrained(lent.outline(n)) {
            return true;
        }
    }
    false
}

// The name constraints of a path at an anchor, with so many comparisons left.
fn names(
    lent: &Lent,
    anchors: &Anchors,
    path: [usize; 7],
    depth: usize,
    anchor: usize,
    left: &mut u64,
) -> Result<(), Refusal>
    requires { depth < 7 }
    ensures { Leaves left.old left.new result (names_by lent.now anchors.now anchor (pre path depth)) }
{
    if is_bound(anchors, anchor) {
        let content = anchors.constraints[anchor];
        return constraints::path_constraints(lent, path, depth, content, true, left);
    }
    if some_constrained(lent, path, depth) {
        return constraints::path_constraints(lent, path, depth, lent.end, false, left);
    }
    Ok(())
}

// Something is refused: the walk goes on.
fn refuse(s: State, e: Refusal) -> State
    ensures { result ≡ record s { best = worse_of s.best e; phase = Walk } }
{
    State {
        best: s.best.worse(e),
        phase: Phase::Walk,
        ..s
    }
}

// Every signature of the path holds: its name constraints are looked at, and it is offered.
fn settle(lent: &Lent, anchors: &Anchors, s: State) -> State
    requires { s.depth < 7 }
    ensures { (W : World) (K : List (List ℕ))
        → JudgesBy W lent.now K anchors.now
        → (a : ℕ)
        → s.phase ≡ Ask
        → W.reply (key_at s) (what_at s) a ≡ 0
        → place_of s ≡ 0
        → Heard W s result (give (tree_of W s) a) (effort W s) }
{
    let mut comparisons = s.comparisons;
    match names(lent, anchors, s.path, s.depth, s.anchor, &mut comparisons) {
        Ok(()) => State {
            comparisons,
            phase: Phase::Offer,
            ..s
        },
        Err(e) if e == Refusal::MAXIMUM_NAME_CONSTRAINT_COMPARISONS_EXCEEDED => State {
            comparisons,
            phase: Phase::Spent(e),
            ..s
        },
        Err(e) => refuse(State { comparisons, ..s }, e),
    }
}

// A signature holds that is not the last: the next is asked for.
fn ask_next(s: State, place: usize) -> State
    requires { (s.depth < 7) × (place ≡ place_of s) × (place ≡ 0 → ⊥) }
    ensures { (W : World) (a : ℕ)
        → ((key what : ℕ) (below : Path) (k : ℕ) → W.after key what below k ≡ [])
        → s.phase ≡ Ask
        → W.reply (key_at s) (what_at s) a ≡ 0
        → Heard W s result (give (tree_of W s) a) (effort W s) }
{
    if s.signatures == 0 {
        return State {
            phase: Phase::Spent(Refusal::MAXIMUM_SIGNATURE_CHECKS_EXCEEDED),
            ..s
        };
    }
    State {
        at: place - 1,
        list: 0,
        signatures: s.signatures - 1,
        phase: Phase::Ask,
        ..s
    }
}

// The answer to a question.
fn on_answer(lent: &Lent, anchors: &Anchors, s: State, answer: u16) -> State
    requires { (s.depth < 7) × (s.phase ≡ Ask) }
    ensures { (W : World)
        → JudgesBy W lent.now (each_now anchors.now.keys.now) anchors.now
        → Heard W s result (give (tree_of W s) answer) (effort W s) }
{
    // The check covers one copy of a state by value in a function; through a reference it covers each.
    let s = &s;
    let key = machine::asked(*s).key;
    let e = asked::reply_for(lent, anchors.keys, key, meaning(answer));
    if e.number() != 0 {
        return refuse(*s, e);
    }
    let place = machine::place(*s);
    if place == 0 {
        return settle(lent, anchors, *s);
    }
    ask_next(*s, place)
}

// The answer to an offer.
fn on_word(s: State, word: u16) -> State
    requires { (s.depth < 7) × (s.phase ≡ Offer) }
    ensures { (W : World) → Heard W s result (give (tree_of W s) word) (effort W s) }
{
    if word == 0 {
        return State {
            phase: Phase::Found,
            ..s
        };
    }
    refuse(s, Refusal::from(word))
}

// The state after an answer, which may still have to walk. Where no answer is due it is the same.
pub fn reply(lent: &Lent, anchors: &Anchors, s: State, answer: u16) -> State
    ensures { s.depth < 7
        → (s.phase ≡ Walk → ⊥)
        → (W : World)
        → JudgesBy W lent.now (each_now anchors.now.keys.now) anchors.now
        → Heard W s result (give (tree_of W s) answer) (effort W s) }
{
    if MOST_INTERMEDIATES < s.depth {
        return s;
    }
    match s.phase {
        Phase::Ask => on_answer(lent, anchors, s, answer),
        Phase::Offer => on_word(s, answer),
        _ => s,
    }
}
