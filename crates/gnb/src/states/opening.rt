// Opening: a batch with nothing numbered.
ghost use Rattle.std.specs.Prelude.{◌≡◌, ◌≤◌, true, not, ◌++◌, length, drop, replicate, is_some, None};
ghost use Rattle.harq.specs.SpsLists.{unfit_from};
ghost use Rattle.gnb.specs.Opening.{opened, marks_opened, batch_of};
ghost use Rattle.gnb.specs.declared.marks.Mark.TheVariants.{Unanswered};

use super::Numbering;
use crate::batches::BatchState;
use crate::grants::GrantEntry;
use crate::marks::Mark;
use harq::sps::first_unfit;
use harq::{Config, Refusal, SpsEntry};
use std::marker::PhantomData;

// Whether an SPS list is within limits and in order.
fn is_in_order(config: &Config, sps: &[SpsEntry]) -> bool
    ensures is { result ≡ not (is_some (unfit_from (λ e. e) (λ _. true) config.now 0 None sps.now)) }
    ensures few { result ≡ true → length sps.now ≤ 64 }
{
    first_unfit(config, sps).is_none()
}

impl Numbering {
    // Opens a batch. The table is not judged; the marks of the SPS entries become unanswered.
    pub fn open(
        config: Config,
        sps: &[SpsEntry],
        _table: &[GrantEntry],
        marks: &mut [Mark],
    ) -> Result<Numbering, Refusal>
        ensures answer { batch_of result ≡ opened config sps.now (length marks.old) }
        ensures marks { marks.new ≡ marks_opened config sps.now marks.old }
    {
        if !config.is_within() {
            return Err(Refusal::Configuration);
        }
        if !is_in_order(&config, sps) {
            return Err(Refusal::Sps);
        }
        if marks.len() < sps.len() {
            return Err(Refusal::Table);
        }
        marks[..sps.len()].fill(Mark::Unanswered);
        let count = sps.len() as u32;
        Ok(Numbering {
            batch: BatchState {
                config,
                sps: count,
                last: None,
                numbered: 0,
                granted: count,
            },
            phase: PhantomData,
        })
    }
}
