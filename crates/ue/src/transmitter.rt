// The transmitter: the one place where the sinks of the product are put together.
ghost use Rattle.std.specs.Prelude.{◌≡◌, false, not, map, length, is_ok};
ghost use Rattle.sink.specs.Bits.{bits_of};
ghost use Rattle.sink.specs.Ends.{capacity};
ghost use Rattle.sink.specs.Gains.{Gains};
ghost use Rattle.sink.specs.Written.{written};
ghost use Rattle.ue.specs.Reports.{report_answer, gained_by, slots_by, refusal_in};
ghost use Rattle.ue.specs.Transmitters.{on_air};

use crate::arrivals::Received;
use crate::slots::Slot;
use harq::Refusal;
use sink::{BitSink, Inverter, PackedBits};

impl Received<'_> {
    // The report through an inverter over the sink, as the transmitter reads it: 0 is ACK.
    pub fn report_inverted<S: BitSink>(
        &self,
        slots: &mut [Slot],
        sink: &mut S,
    ) -> Result<usize, Refusal>
        ensures answer { result ≡ refusal_in (report_answer self.now.config.now self.now.arrivals.now self.now.sps.now (length slots.old) (S.room sink.old)) }
        ensures slots { slots.new ≡ slots_by self.now.config.now self.now.arrivals.now slots.old result }
        ensures gains { Gains S.taken S.room S.took sink.old (map not (gained_by self.now.config.now self.now.arrivals.now self.now.sps.now result)) sink.new }
        ensures took { S.took sink.old (map not (gained_by self.now.config.now self.now.arrivals.now self.now.sps.now result)) sink.new }
        ensures kept { is_ok result ≡ false → sink.new ≡ sink.old }
    {
        let mut inverter = Inverter::new(sink);
        self.report(slots, &mut inverter)
    }

    // The report into the front of lent bytes, the top bit first, as it goes on air; a declined report changes nothing.
    pub fn transmit(&self, slots: &mut [Slot], bytes: &mut [u8]) -> Result<usize, Refusal>
        ensures answer { result ≡ refusal_in (report_answer self.now.config.now self.now.arrivals.now self.now.sps.now (length slots.old) (capacity (length bytes.old))) }
        ensures slots { slots.new ≡ slots_by self.now.config.now self.now.arrivals.now slots.old result }
        ensures bytes { bits_of bytes.new ≡ written (bits_of bytes.old) 0 (on_air (gained_by self.now.config.now self.now.arrivals.now self.now.sps.now result)) }
    {
        let mut packed = PackedBits::new(bytes);
        self.report_inverted(slots, &mut packed)
    }
}
