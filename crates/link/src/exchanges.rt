// One exchange between gNB and UE: opening, numbering calls, closing, what arrives, the report, and reading it.
ghost use Rattle.link.specs.Played.{exchange_of, IsExchanged};

use crate::arrivals::arrive;
use crate::openings::open;
use crate::reports::{Heard, report_heard};
use crate::settlements::settle;
use crate::ways::Way;
use agreement::Fate;
use arrayvec::ArrayVec;
use gnb::{Call, Counts, GrantEntry, Mark};
use harq::{Config, Refusal};
use sink::BitSink;
use ue::{Received, Slot, SpsOutcome};

// What goes into an exchange: the configuration and the SPS list of both cards, the numbering calls at the gNB, and what becomes of the assignments
// on the air, the fates of number 1, 2, ..
#[derive(Clone, Copy)]
pub struct Batch<'a> {
    pub config: &'a Config,
    pub sps: &'a [SpsOutcome],
    pub calls: &'a [Call<'a>],
    pub fates: &'a [Fate],
}

// Both lengths, and the counts of the marks.
#[derive(Clone, Copy, Debug, PartialEq, Eq)]
pub struct Exchanged {
    // The length of the report that the gNB expects.
    pub expected: usize,
    // The length of the report, or why it was declined.
    pub report: Result<usize, Refusal>,
    pub counts: Counts,
}

impl Batch<'_> {
    // Opens the gNB, makes the numbering calls, closes, lets arrive what is not lost, puts the UE's report into the sink on its way, and has the
    // gNB read the bits that the sink's list gained, on the way back. A declined call leaves all as it was; a declined report is absent; where
    // opening is declined nothing changes.
    pub fn exchange<W: Way, S: BitSink>(
        &self,
        table: &mut [GrantEntry],
        marks: &mut [Mark],
        slots: &mut [Slot],
        sink: &mut S,
    ) -> Result<Exchanged, Refusal>
        ensures { IsExchanged S.taken S.room S.took W.aired (exchange_of self.now table.old marks.old slots.old (S.room sink.old)) sink.old result table.new marks.new slots.new sink.new }
    {
        let mut numbering = open(self.config, self.sps, table, marks)?;
        let sent = numbering.number_all(table, self.calls) as usize;
        let (expected, awaiting) = numbering.close();
        let mut arrivals = ArrayVec::new();
        arrive(self.fates, &table[0..sent], &mut arrivals);
        let received = Received {
            config: self.config,
            arrivals: &arrivals,
            sps: self.sps,
        };
        let Heard { report, bytes } = report_heard::<W, S>(&received, slots, sink);
        let counts = settle(awaiting, table, marks, report, &bytes);
        Ok(Exchanged {
            expected,
            report,
            counts,
        })
    }
}
