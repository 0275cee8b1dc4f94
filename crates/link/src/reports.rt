// The UE's report for what arrives, and what the gNB hears of it.
ghost use Rattle.std.specs.Prelude.{◌*◌, ◌≤◌, length, IfOk};
ghost use Rattle.ue.specs.Reports.{gained_by};
ghost use Rattle.agreement.specs.Agreement.{Hold};
ghost use Rattle.link.specs.Reported.{IsReported};

use crate::recorders::{REPORT_BYTES, Recorder};
use crate::ways::Way;
use harq::Refusal;
use sink::BitSink;
use ue::{Received, Slot};

// What the report answered, and the bytes that the gNB reads.
pub(crate) struct Heard {
    pub(crate) report: Result<usize, Refusal>,
    pub(crate) bytes: [u8; REPORT_BYTES],
}

// The report into the caller's sink; the bits that the sink's own list gained of it are kept for the gNB.
pub(crate) fn report_heard<W: Way, S: BitSink>(
    received: &Received,
    slots: &mut [Slot],
    sink: &mut S,
) -> Heard
    ensures reported { IsReported S.taken S.room S.took W.aired received.now.config.now received.now.arrivals.now received.now.sps.now slots.old sink.old result.report slots.new sink.new }
    ensures heard { Hold result.bytes (gained_by received.now.config.now received.now.arrivals.now received.now.sps.now result.report) }
    ensures held { IfOk result.report (λ n. n ≤ 8 * length result.bytes) }
{
    let mut recorder = Recorder::new(sink);
    let report = W::report(received, slots, &mut recorder);
    let mut bytes = [0; REPORT_BYTES];
    let _ = W::pack(recorder.bits(), &mut bytes);
    Heard { report, bytes }
}
