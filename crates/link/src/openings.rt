// Opening the gNB by the UE's list of SPS receptions.
ghost use Rattle.std.specs.Prelude.{◌≡◌, map, length, take};
ghost use Rattle.gnb.specs.Opening.{opened, marks_opened, batch_of};
ghost use Rattle.ue.specs.declared.arrivals.SpsOutcome.{SpsOutcome};

use arrayvec::ArrayVec;
use gnb::{GrantEntry, Mark, Numbering};
use harq::{Config, Refusal, SpsEntry};
use ue::SpsOutcome;

// One entry more than a list may have: a longer list is declined as one that is too long by one.
const MOST: usize = 65;

// The entries of the first receptions.
fn entries_of(sps: &[SpsOutcome]) -> ArrayVec<SpsEntry, MOST>
    ensures { result.items ≡ take MOST (map (λ (s : SpsOutcome). s.entry) sps.now) }
{
    let mut entries = ArrayVec::new();
    // All of these fit.
    let _ = entries.extend(sps.iter().take(MOST).map(|s| s.entry));
    entries
}

// Opens the gNB with the list without its outcomes.
pub(crate) fn open(
    config: &Config,
    sps: &[SpsOutcome],
    table: &[GrantEntry],
    marks: &mut [Mark],
) -> Result<Numbering, Refusal>
    ensures answer { batch_of result ≡ opened config.now (map (λ (s : SpsOutcome). s.entry) sps.now) (length marks.old) }
    ensures marks { marks.new ≡ marks_opened config.now (map (λ (s : SpsOutcome). s.entry) sps.now) marks.old }
{
    Numbering::open(*config, &entries_of(sps), table, marks)
}
