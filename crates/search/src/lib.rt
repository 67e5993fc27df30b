// The search for a path as a machine: it walks by itself, asks about one signature at a time, offers a finished path, and goes on with the answer.
#![tactic(auto)]

ghost use Rattle.std.specs.Prelude.{[]};
ghost use Rattle.machine.specs.Machine.{Answered, Came};
ghost use Rattle.machine.specs.World.{world_by, end_by};

use lent::{MOST_INTERMEDIATES, Request};
use machine::{Phase, State};
use refusal::Refusal;

mod walk;

// The next question or the end, after an answer. To a question 0 is yes; 1: the signature is wrong; 2: the algorithm is unknown; 3: it is
// not for this key; 4: the key cannot be read. To an offer 0 is content, any other number the refusal to note.
pub fn answer(request: &Request, s: State, given: u16) -> State
    ensures { Answered (world_by request.now) s given result }
{
    if MOST_INTERMEDIATES < s.depth {
        return s;
    }
    if let Phase::Walk = s.phase {
        return s;
    }
    let t = replies::reply(&request.lent(), &request.anchors, s, given);
    if let Phase::Walk = t.phase {
        return walk::advance(request, t);
    }
    t
}

// The first question, or the end: the search for a path to the end entity.
pub fn start(request: &Request, signatures: u64, extensions: u64, comparisons: u64) -> State
    ensures { Came (world_by request.now) (end_by request.now) signatures extensions comparisons [] result }
{
    let end = request.anchors.subjects.len() + request.issuers.len();
    let path = [end, 0, 0, 0, 0, 0, 0];
    let s = State {
        path,
        next: [0; 7],
        depth: 0,
        at: 0,
        list: 0,
        anchor: 0,
        signatures,
        extensions,
        comparisons,
        best: Refusal::UNKNOWN_ISSUER,
        phase: Phase::Walk,
    };
    if let Err(e) = path::check(&request.lent(), &request.policy, path, 0) {
        return State {
            phase: Phase::Refused(Refusal::UNKNOWN_ISSUER.worse(e)),
            ..s
        };
    }
    walk::advance(request, s)
}
