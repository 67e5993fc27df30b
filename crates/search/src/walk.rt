// The walk through the candidates, up to the next question or the end.
ghost use Rattle.std.specs.Prelude.{◌≡◌, [], ◌≤◌, ◌<◌};
ghost use Rattle.machine.specs.declared.Phase.TheVariants.{Walk};
ghost use Rattle.dialogue.specs.Model.{World};
ghost use Rattle.machine.specs.Machine.{following, noting, Moved, Halted};
ghost use Rattle.machine.specs.World.{world_by};

use candidate::Verdict;
use lent::Request;
use machine::{Phase, State};
use refusal::Refusal;

// Every candidate of a level was looked at: at the lowest the search is over, else the one below goes on.
fn leave(s: State) -> State
    requires { (s.depth < 7) × (s.phase ≡ Walk) }
    ensures { (W : World) → W.candidates ≤ following s → Moved W s result }
{
    if s.depth == 0 {
        return State {
            phase: Phase::Refused(s.best),
            ..s
        };
    }
    State {
        depth: s.depth - 1,
        ..s
    }
}

// A candidate is passed over, and its refusal noted.
fn note(s: State, e: Refusal) -> State
    ensures { result ≡ noting s e }
{
    State {
        best: s.best.worse(e),
        ..s
    }
}

// One move: a level is left, or its next candidate is looked at.
fn move_on(request: &Request, s: State) -> State
    requires { (s.depth < 7) × (s.phase ≡ Walk) }
    ensures { Moved (world_by request.now) s result }
{
    let candidates = request.anchors.subjects.len() + request.issuers.len();
    let i = s.next[s.depth];
    if candidates <= i {
        return leave(s);
    }
    let mut next = s.next;
    next[s.depth] = i + 1;
    let t = State { next, ..s };
    match candidate::verdict_on(request, s.path, s.depth, i) {
        Verdict::Pass(e) => note(t, e),
        Verdict::Anchor => taken::anchor(t, i),
        Verdict::Extend => taken::extend(&request.lent(), &request.policy, t, i),
    }
}

// On to the next question or to the end.
pub fn advance(request: &Request, s: State) -> State
    requires { s.depth < 7 }
    ensures { Halted (world_by request.now) s result [] }
{
    let mut t = s;
    while let Phase::Walk = t.phase {
        t = move_on(request, t);
    }
    t
}
