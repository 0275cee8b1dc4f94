// What each of a list of numbering calls answers.
ghost use Rattle.std.specs.Prelude.{◌≡◌, ◌≤◌, false, map, length, IfOk, IfErr};
ghost use Rattle.gnb.specs.Plans.{call_of};
ghost use Rattle.gnb.specs.Readings.{too_short};
ghost use Rattle.replay.specs.Answers.{answers_from, numbered_from};
ghost use Rattle.replay.specs.Scripts.{asked, exchange_in};
ghost use Rattle.replay.specs.Played.{answers_of, Fails};

use crate::failures::Failure;
use crate::scripts::Script;
use gnb::{Awaiting, Call, GrantEntry, Mark, Numbering};
use harq::Refusal;
use std::alloc::{AllocError, Global};

// Makes the calls one by one, and keeps what each answers.
fn number_each(
    heap: Global,
    numbering: &mut Numbering,
    table: &mut [GrantEntry],
    calls: &[Call],
) -> Result<Vec<Result<u32, Refusal>>, AllocError>
    requires { numbering.old.batch.numbered ≤ length table.old }
    ensures answers { IfOk result (λ v. v.items ≡ answers_from numbering.old.batch (length table.old) (map call_of calls.now)) }
    ensures fits { numbering.new.batch.numbered ≤ length table.new }
    ensures sps { numbering.new.batch.sps ≡ numbering.old.batch.sps }
{
    let mut answers = Vec::with_capacity(heap, calls.len())?;
    for call in calls {
        answers.push(numbering.number(table, call.occasion, call.grants))?;
    }
    Ok(answers)
}

// Nothing is heard of a batch.
fn spend(awaiting: Awaiting, table: &mut [GrantEntry], marks: &mut [Mark])
    requires { too_short awaiting.batch (length table.old) (length marks.old) ≡ false }
{
    let _ = awaiting.absent(table, marks).unwrap();
}

// What each numbering call answers, by a batch of its own. The calls come beside the script, since they borrow its grants.
pub(crate) fn answer_calls(
    heap: Global,
    script: &Script,
    calls: &[Call],
) -> Result<Vec<Result<u32, Refusal>>, Failure>
    requires { map call_of calls.now ≡ map asked script.now.requests.items }
    ensures answers { IfOk result (λ v. v.items ≡ answers_of (exchange_in script.now)) }
    ensures fails { IfErr result (Fails (exchange_in script.now)) }
{
    let sps = script.entries(heap)?;
    let mut table = vec![in heap; GrantEntry::default(); script.table]?;
    let mut marks = vec![in heap; Mark::default(); script.sps.len()]?;
    let (table, marks) = (table.as_mut_slice(), marks.as_mut_slice());
    let mut numbering = Numbering::open(script.config, sps.as_slice(), table, marks)?;
    let answers = number_each(heap, &mut numbering, table, calls);
    let (_expected, awaiting) = numbering.close();
    spend(awaiting, table, marks);
    Ok(answers?)
}

// How many are numbered after the last call that was accepted.
pub(crate) fn numbered_after(answers: &[Result<u32, Refusal>]) -> usize
    ensures { result ≡ numbered_from 0 answers.now }
{
    answers
        .iter()
        .fold(0, |numbered, answer| answer.unwrap_or(numbered)) as usize
}
