// The checks of a report, in their order.
ghost use Rattle.std.specs.Prelude.{◌≡◌, ℕ, ◌*◌, ◌^◌, ◌<◌, ◌≤◌, length, IfOk, OnOk};
ghost use Rattle.harq.specs.Words.{onward};
ghost use Rattle.ue.specs.Checks.{config_judged, arrivals_judged, sps_judged, size_judged, judged, length_of};

use crate::arrivals::{Received, SpsOutcome};
use crate::declines::{Decline, Part};
use crate::reports::LONGEST_REPORT;
use crate::walks::Walker;
use harq::sps::first_unfit;
use harq::{Config, Refusal};

fn check_sps(config: &Config, sps: &[SpsOutcome]) -> Result<(), Decline>
    ensures is { result ≡ sps_judged config.now sps.now }
    ensures few { OnOk result (length sps.now ≤ 64) }
{
    if let Some(i) = first_unfit(config, sps) {
        return Err(Decline::new(Refusal::Sps, Part::Sps(i)));
    }
    Ok(())
}

// The length, the lent slots and the room, in this order.
fn check_size(
    config: &Config,
    slots: usize,
    sps: usize,
    lent: usize,
    room: usize,
) -> Result<(), Decline>
    requires { (slots < 2 ^ 40) × (sps ≤ 64) }
    ensures is { result ≡ size_judged config.now slots sps lent room }
    ensures short { OnOk result (length_of config.now slots sps ≤ 1706) }
{
    let length = config.bits_per_place() * slots + sps;
    if length > LONGEST_REPORT {
        return Err(Decline::new(Refusal::Length, Part::Whole));
    }
    if lent < slots {
        return Err(Decline::new(Refusal::Table, Part::Whole));
    }
    if room < length {
        return Err(Decline::new(Refusal::Room, Part::Whole));
    }
    Ok(())
}

impl Received<'_> {
    // All checks in their order: the slot count, or the first that refuses.
    pub(crate) fn judge(&self, lent: usize, room: usize) -> Result<usize, Decline>
        ensures is { result ≡ judged self.now.config.now self.now.arrivals.now self.now.sps.now lent room }
        ensures short { IfOk result (λ n. length_of self.now.config.now n (length self.now.sps.now) ≤ 1706) }
    {
        let slots = Walker::start(self.config)?.through(self.arrivals)?.slots();
        check_sps(self.config, self.sps)?;
        check_size(self.config, slots, self.sps.len(), lent, room)?;
        Ok(slots)
    }
}
