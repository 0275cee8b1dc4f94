// The report of a batch, into any sink.
ghost use Rattle.std.specs.Prelude.{◌≡◌, ℕ, false, length, drop, is_ok, Ok, OnOk};
ghost use Rattle.ue.specs.Checks.{judged};
ghost use Rattle.ue.specs.Clause.{ReportFor};
ghost use Rattle.sink.specs.Gains.{Gains};
ghost use Rattle.ue.specs.Reports.{held, report_bits, report_answer, gained_by, slots_by, refusal_in};

use crate::arrivals::Received;
use crate::bits::{put_places, put_sps};
use crate::declines::Decline;
use crate::filling::place_all;
use crate::slots::Slot;
use harq::Refusal;
use sink::BitSink;

// The longest report that a PUCCH carries, in bits.
pub const LONGEST_REPORT: usize = 1706;

impl Received<'_> {
    // The report of a batch that has been judged, in as many slots as it takes.
    fn write_report<S: BitSink>(&self, slots: &mut [Slot], sink: &mut S)
        requires { (lent : ℕ) × (judged self.now.config.now self.now.arrivals.now self.now.sps.now lent (S.room sink.old) ≡ Ok (length slots.old)) }
        ensures slots { slots.new ≡ held self.now.config.now self.now.arrivals.now }
        ensures gains { Gains S.taken S.room S.took sink.old (report_bits self.now.config.now self.now.arrivals.now self.now.sps.now) sink.new }
    {
        slots.fill(Slot::One(false));
        place_all(self.config, self.arrivals, slots);
        put_places(self.config, slots, sink);
        put_sps(self.sps, sink);
    }

    // The length of the report, which the sink gains, or why it is declined and by which part; a declined report changes nothing.
    pub fn report_located<S: BitSink>(
        &self,
        slots: &mut [Slot],
        sink: &mut S,
    ) -> Result<usize, Decline>
        ensures answer { result ≡ report_answer self.now.config.now self.now.arrivals.now self.now.sps.now (length slots.old) (S.room sink.old) }
        ensures slots { slots.new ≡ slots_by self.now.config.now self.now.arrivals.now slots.old result }
        ensures gains { Gains S.taken S.room S.took sink.old (gained_by self.now.config.now self.now.arrivals.now self.now.sps.now result) sink.new }
        ensures took { S.took sink.old (gained_by self.now.config.now self.now.arrivals.now self.now.sps.now result) sink.new }
        ensures kept { is_ok result ≡ false → sink.new ≡ sink.old }
    {
        let count = self.judge(slots.len(), S::room_left(sink))?;
        self.write_report(&mut slots[0..count], sink);
        Ok(self.config.bits_per_place() * count + self.sps.len())
    }

    // The length of the report, which the sink gains, or why it is declined; a declined report changes nothing.
    pub fn report<S: BitSink>(&self, slots: &mut [Slot], sink: &mut S) -> Result<usize, Refusal>
        ensures answer { result ≡ refusal_in (report_answer self.now.config.now self.now.arrivals.now self.now.sps.now (length slots.old) (S.room sink.old)) }
        ensures slots { slots.new ≡ slots_by self.now.config.now self.now.arrivals.now slots.old result }
        ensures gains { Gains S.taken S.room S.took sink.old (gained_by self.now.config.now self.now.arrivals.now self.now.sps.now result) sink.new }
        ensures took { S.took sink.old (gained_by self.now.config.now self.now.arrivals.now self.now.sps.now result) sink.new }
        ensures kept { is_ok result ≡ false → sink.new ≡ sink.old }
        ensures clause { OnOk result (ReportFor self.now.config.now self.now.arrivals.now self.now.sps.now (drop (length (S.taken sink.old)) (S.taken sink.new))) }
    {
        Ok(self.report_located(slots, sink)?)
    }
}
