// What taking a candidate up does to a state of the walk: an anchor is tried, or the path is extended.
#![tactic(auto)]

ghost use Rattle.std.specs.Prelude.{◌≡◌, ◌<◌};
ghost use Rattle.machine.specs.declared.Phase.TheVariants.{Walk};
ghost use Rattle.dialogue.specs.Model.{Path, World};
ghost use Rattle.machine.specs.Machine.{still, try_tree, extend_tree, extend_still, Heard, Grew};
ghost use Rattle.machine.specs.World.{checks_by};

use lent::{Lent, MOST_INTERMEDIATES, Policy};
use machine::{Phase, State};
use refusal::Refusal;

// Anchor i is tried: the first of its signatures is asked for.
pub fn anchor(s: State, i: usize) -> State
    ensures { s.depth < 7 → (W : World) → Heard W s result (try_tree W s i) (still W s) }
{
    if s.signatures == 0 {
        return State {
            phase: Phase::Spent(Refusal::MAXIMUM_SIGNATURE_CHECKS_EXCEEDED),
            ..s
        };
    }
    State {
        at: s.depth,
        list: 0,
        anchor: i,
        signatures: s.signatures - 1,
        phase: Phase::Ask,
        ..s
    }
}

// The path is extended with candidate i, or there is a reason not to. The extension is paid for first.
pub fn extend(lent: &Lent, policy: &Policy, s: State, i: usize) -> State
    ensures { s.depth < 7
        → s.phase ≡ Walk
        → (W : World)
        → ((p : Path) → W.check p ≡ checks_by lent.now policy.now p)
        → Grew W s result i (extend_tree W s i) (extend_still W s i) }
{
    if s.extensions == 0 {
        return State {
            phase: Phase::Spent(Refusal::MAXIMUM_PATH_BUILD_CALLS_EXCEEDED),
            ..s
        };
    }
    let extensions = s.extensions - 1;
    if MOST_INTERMEDIATES <= s.depth {
        return State {
            extensions,
            best: s.best.worse(Refusal::MAXIMUM_PATH_DEPTH_EXCEEDED),
            ..s
        };
    }
    let depth = s.depth + 1;
    let mut path = s.path;
    path[depth] = i;
    if let Err(e) = path::check(lent, policy, path, depth) {
        return State {
            extensions,
            best: s.best.worse(e),
            ..s
        };
    }
    let mut next = s.next;
    next[depth] = 0;
    State {
        path,
        next,
        depth,
        extensions,
        ..s
    }
}
