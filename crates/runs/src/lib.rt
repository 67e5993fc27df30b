// A whole search with the answers known beforehand.
#![tactic(auto)]

ghost use Rattle.machine.specs.Machine.{Came};
ghost use Rattle.machine.specs.World.{world_by, end_by};

use lent::Request;
use machine::State;

// The state that the answers, one after the other, lead to.
pub fn run(
    request: &Request,
    signatures: u64,
    extensions: u64,
    comparisons: u64,
    answers: &[u16],
) -> State
    ensures { Came (world_by request.now) (end_by request.now) signatures extensions comparisons answers.now result }
{
    let mut s = search::start(request, signatures, extensions, comparisons);
    for answer in answers {
        s = search::answer(request, s, *answer);
    }
    s
}
