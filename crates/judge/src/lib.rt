// The decision as its callers see it. A request is begun; each step is a question, an offer or the end; an answer gives the next step.
// Exported to C: include/pathjudge.h.
// A search lends a table of rows: what is read of each certificate when it begins is looked up there from then on, and read again where there is no
// row for it. What the later functions promise is for the table as the first left it.
#![tactic(auto)]

ghost use Rattle.std.specs.Prelude.{◌≡◌, map, true};
ghost use Rattle.cert.specs.Model.{read_certificate, read_anchor};
ghost use Rattle.table.specs.Model.{Held};
ghost use Rattle.asked.specs.Model.{question_of};
ghost use Rattle.machine.specs.Machine.{key_at, cert_at};
ghost use Rattle.conditions.specs.Model.{name_of};
ghost use Rattle.judge.specs.Steps.{request_of, budgets_of, Begun, Answered, Run, fault_of};
ghost use Rattle.steps.specs.Model.{state_of};
ghost use Rattle.told.specs.Model.{asked_of, trusted_of};

use lent::{Anchors, Lent, Policy, Request};
use steps::Step;
use told::{Asked, Trusted};

// Begins a search. `purpose` is an object identifier's content; `demanded`, if not 0, says that a certificate must list it. `kind` and
// `name`: the name that the end entity must be good for, if any. The table is filled: a row for each intermediate, and one for the end entity.
#[unsafe(no_mangle)]
pub extern "C" fn pathjudge_begin<'a>(
    issuers: &'a [&'a [u8]],
    end: &'a [u8],
    subjects: &'a [&'a [u8]],
    keys: &'a [&'a [u8]],
    constraints: &'a [&'a [u8]],
    bound: &'a [u8],
    distrusted: &'a [&'a [u8]],
    time: u64,
    purpose: &'a [u8],
    demanded: u8,
    kind: u8,
    name: &'a [u8],
    signatures: u64,
    extensions: u64,
    comparisons: u64,
    table: &'a mut [[usize; 37]],
) -> Step
    ensures { Held table.new (map (λ x. x.now) issuers.now) end.now
        × Begun (request_of (map (λ x. x.now) issuers.now) end.now (map (λ x. x.now) subjects.now)
        (map (λ x. x.now) keys.now) (map (λ x. x.now) constraints.now) bound.now (map (λ x. x.now) distrusted.now)
        time purpose.now demanded kind name.now)
        (budgets_of signatures extensions comparisons) result }
{
    table::fill(table, issuers, end);
    let i = issuers.len();
    if let Err(e) = table::reading(table, i, end) {
        return steps::ended(e, signatures, extensions, comparisons);
    }
    let request = Request {
        table,
        issuers,
        end,
        anchors: Anchors {
            subjects,
            keys,
            constraints,
            bound,
        },
        policy: Policy {
            distrusted,
            time,
            purpose,
            demanded: demanded != 0,
        },
    };
    let s = search::start(&request, signatures, extensions, comparisons);
    steps::shown(table, i, end, kind, name, s)
}

// The step after an answer. To a question: 0 yes; 1 the signature is wrong; 2 the algorithm is unknown; 3 it is not for this key; 4 the key
// cannot be read. To an offer: 0 content, any other number the refusal to go on with.
#[unsafe(no_mangle)]
pub extern "C" fn pathjudge_answer<'a>(
    issuers: &'a [&'a [u8]],
    end: &'a [u8],
    subjects: &'a [&'a [u8]],
    keys: &'a [&'a [u8]],
    constraints: &'a [&'a [u8]],
    bound: &'a [u8],
    distrusted: &'a [&'a [u8]],
    time: u64,
    purpose: &'a [u8],
    demanded: u8,
    kind: u8,
    name: &'a [u8],
    table: &'a [[usize; 37]],
    step: Step,
    answer: u16,
) -> Step
    ensures { Held table.now (map (λ x. x.now) issuers.now) end.now
        → Answered (request_of (map (λ x. x.now) issuers.now) end.now (map (λ x. x.now) subjects.now)
        (map (λ x. x.now) keys.now) (map (λ x. x.now) constraints.now) bound.now (map (λ x. x.now) distrusted.now)
        time purpose.now demanded kind name.now)
        step answer result }
{
    let request = Request {
        table,
        issuers,
        end,
        anchors: Anchors {
            subjects,
            keys,
            constraints,
            bound,
        },
        policy: Policy {
            distrusted,
            time,
            purpose,
            demanded: demanded != 0,
        },
    };
    let s = search::answer(&request, steps::state_of(step), answer);
    steps::shown(table, issuers.len(), end, kind, name, s)
}

// A whole run: the step that the answers, one after the other, lead to.
#[unsafe(no_mangle)]
pub extern "C" fn pathjudge_judge<'a>(
    issuers: &'a [&'a [u8]],
    end: &'a [u8],
    subjects: &'a [&'a [u8]],
    keys: &'a [&'a [u8]],
    constraints: &'a [&'a [u8]],
    bound: &'a [u8],
    distrusted: &'a [&'a [u8]],
    time: u64,
    purpose: &'a [u8],
    demanded: u8,
    kind: u8,
    name: &'a [u8],
    signatures: u64,
    extensions: u64,
    comparisons: u64,
    table: &'a mut [[usize; 37]],
    answers: &'a [u16],
) -> Step
    ensures { Run (request_of (map (λ x. x.now) issuers.now) end.now (map (λ x. x.now) subjects.now)
        (map (λ x. x.now) keys.now) (map (λ x. x.now) constraints.now) bound.now (map (λ x. x.now) distrusted.now)
        time purpose.now demanded kind name.now)
        (budgets_of signatures extensions comparisons) answers.now result }
{
    table::fill(table, issuers, end);
    let count = issuers.len();
    if let Err(e) = table::reading(table, count, end) {
        return steps::ended(e, signatures, extensions, comparisons);
    }
    let request = Request {
        table,
        issuers,
        end,
        anchors: Anchors {
            subjects,
            keys,
            constraints,
            bound,
        },
        policy: Policy {
            distrusted,
            time,
            purpose,
            demanded: demanded != 0,
        },
    };
    let s = runs::run(&request, signatures, extensions, comparisons, answers);
    steps::shown(table, count, end, kind, name, s)
}

// What the question of a step is about. `anchors` is how many anchors there are.
#[unsafe(no_mangle)]
pub extern "C" fn pathjudge_question<'a>(
    issuers: &'a [&'a [u8]],
    end: &'a [u8],
    keys: &'a [&'a [u8]],
    anchors: usize,
    table: &'a [[usize; 37]],
    step: Step,
) -> Asked
    ensures { Held table.now (map (λ x. x.now) issuers.now) end.now
        → result ≡ asked_of (key_at (state_of step)) (cert_at (state_of step))
        (question_of (map (λ x. x.now) issuers.now) end.now (map (λ x. x.now) keys.now) anchors (key_at (state_of step))
        (cert_at (state_of step))) }
{
    let lent = Lent {
        table,
        issuers,
        end,
        anchors,
    };
    let numbers = machine::asked(steps::state_of(step));
    told::question(&lent, keys, numbers.key, numbers.certificate)
}

// 0, or why the bytes are no certificate.
#[unsafe(no_mangle)]
#[tactic(auto, unfolding(crate::specs::Steps::fault_of))]
pub extern "C" fn pathjudge_read(certificate: &[u8]) -> u16
    ensures { result ≡ fault_of (read_certificate certificate.now true) }
{
    match cert::read(certificate, true) {
        Ok(_) => 0,
        Err(e) => e.number(),
    }
}

// The anchor that a trusted certificate is.
#[unsafe(no_mangle)]
pub extern "C" fn pathjudge_anchor(certificate: &[u8]) -> Trusted
    ensures { result ≡ trusted_of (read_anchor certificate.now) }
{
    told::anchor(certificate)
}

// Whether the end entity is good for a name: 0, or why not.
#[unsafe(no_mangle)]
pub extern "C" fn pathjudge_name(end: &[u8], kind: u8, name: &[u8]) -> u16
    ensures { result ≡ name_of end.now kind name.now }
{
    match wanted::refusal_for(cert::read(end, true), end, kind, name) {
        Ok(()) => 0,
        Err(e) => e.number(),
    }
}
