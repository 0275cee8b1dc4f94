// Settlement: the report is read, or declared absent.
ghost use Rattle.std.specs.Prelude.{◌≡◌, ℕ, ◌+◌, ◌≤◌, false, cond, not, ◌&&◌, [], length, take, is_some, Some, None};
ghost use Rattle.harq.specs.Words.{every};
ghost use Rattle.sink.specs.Bits.{bits_of};
ghost use Rattle.gnb.specs.Readings.{answering, bits_heard, mark_by, block_bit, marks_by, entry_read, firsts, table_read, sps_read, counted, too_short, has_place, reading_refused, absence_refused, settled, table_settled, marks_settled, settled_of};

use super::Awaiting;
use crate::batches::BatchState;
use crate::counts::Counts;
use crate::grants::GrantEntry;
use crate::marks::{Mark, Marks};
use harq::{Config, Mode, Refusal};
use sink::bit_at;

// The mark by a bit of a report; no report answers no block.
fn mark_at(report: Option<&[u8]>, index: usize) -> Mark
    ensures { result ≡ mark_by (is_some report.entry) (bits_heard report.entry) index }
{
    match report {
        Some(bytes) => Mark::from(bit_at(bytes, index).unwrap_or(false)),
        None => Mark::Unanswered,
    }
}

// Where the bit of a block stands: with two blocks each has its own, else both have one.
fn block_bit(config: &Config, number: u32, block: usize) -> usize
    requires { block ≤ 1 }
    ensures { result ≡ block_bit config.now number block }
{
    let place = (number as usize).saturating_sub(1);
    let within = match Mode::try_from(config.mode) {
        Ok(Mode::TwoBlocks) => block,
        _ => 0,
    };
    config.bits_per_place() * place + within
}

// Each block's mark by its own bit.
fn marks_at(config: &Config, report: Option<&[u8]>, number: u32, marks: Marks) -> Marks
    ensures { result ≡ marks_by config.now (is_some report.entry) (bits_heard report.entry) number marks }
{
    let first = mark_at(report, block_bit(config, number, 0));
    match marks {
        Marks::One(_) => Marks::One(first),
        Marks::Two(..) => {
            let second = mark_at(report, block_bit(config, number, 1));
            Marks::Two(first, second)
        }
    }
}

// Marks entries of the table.
fn mark_entries(config: &Config, report: Option<&[u8]>, entries: &mut [GrantEntry])
    ensures { entries.new ≡ firsts (λ _ e. entry_read config.now (is_some report.entry) (bits_heard report.entry) e) 0 (length entries.old) entries.old }
{
    for entry in entries.iter_mut() {
        entry.marks = marks_at(config, report, entry.number, entry.marks);
    }
}

// Marks SPS entries, whose bits begin at `start`.
fn mark_sps(report: Option<&[u8]>, start: usize, marks: &mut [Mark])
    requires { (start ≤ 1024) × (length marks.old ≤ 64) }
    ensures { marks.new ≡ firsts (λ i _. mark_by (is_some report.entry) (bits_heard report.entry) (start + i)) 0 (length marks.old) marks.old }
{
    for (i, mark) in marks.iter_mut().enumerate() {
        *mark = mark_at(report, start + i);
    }
}

// Whether an entry has a place in a report for n grants: its own number is one of theirs.
fn has_place(e: &GrantEntry, n: u32) -> bool
    ensures { result ≡ has_place n e.now }
{
    (1..=n).contains(&e.number)
}

// Whether each entry has one.
fn have_places(entries: &[GrantEntry], n: u32) -> bool
    ensures { result ≡ every (has_place n) entries.now }
{
    entries.iter().all(|e| has_place(e, n))
}

impl BatchState {
    // Whether the lent table or marks are too short for what is numbered.
    fn lacks(&self, table: usize, marks: usize) -> bool
        ensures { result ≡ too_short self.now table marks }
    {
        table < self.numbered as usize || marks < self.sps as usize
    }
}

impl Awaiting {
    // The report of so many bits, if it is the one that is expected and the bytes hold it.
    fn answered_by<'a>(&self, bytes: &'a [u8], bits: usize) -> Option<&'a [u8]>
        ensures { result ≡ cond (answering self.now.batch (length bytes.now) bits) (Some bytes.entry) None }
    {
        let expected = self.expected();
        (bits == expected && expected.div_ceil(8) <= bytes.len()).then_some(bytes)
    }

    // Whether there is a report, and a grant has no place in it.
    fn lacks_place(&self, report: Option<&[u8]>, table: &[GrantEntry]) -> bool
        requires { self.now.batch.numbered ≤ length table.now }
        ensures { result ≡ (is_some report.entry && not (every (has_place self.now.batch.numbered) (take self.now.batch.numbered table.now))) }
    {
        let grants = self.batch.numbered;
        report.is_some() && !have_places(&table[..grants as usize], grants)
    }

    // Marks all blocks, and counts the marks.
    fn settle(self, report: Option<&[u8]>, table: &mut [GrantEntry], marks: &mut [Mark]) -> Counts
        requires { too_short self.batch (length table.old) (length marks.old) ≡ false }
        ensures counts { result ≡ counted self.batch (table_read self.batch (is_some report.entry) (bits_heard report.entry) table.old) (sps_read self.batch (is_some report.entry) (bits_heard report.entry) marks.old) }
        ensures table { table.new ≡ table_read self.batch (is_some report.entry) (bits_heard report.entry) table.old }
        ensures marks { marks.new ≡ sps_read self.batch (is_some report.entry) (bits_heard report.entry) marks.old }
    {
        let Awaiting { batch, phase: _ } = self;
        let entries = &mut table[..batch.numbered as usize];
        let sps = &mut marks[..batch.sps as usize];
        mark_entries(&batch.config, report, entries);
        mark_sps(
            report,
            batch.config.bits_per_place() * batch.numbered as usize,
            sps,
        );
        Counts::none(batch.granted).with_all(entries).with_all(sps)
    }

    // Reads a report of that many bits, packed into bytes, the top bit first. The blocks are marked by their bits if it is the one that is
    // expected, else as unanswered, and the counts of the marks are answered; a declined reading changes nothing and hands the state back.
    pub fn read(
        self,
        table: &mut [GrantEntry],
        marks: &mut [Mark],
        bytes: &[u8],
        bits: usize,
    ) -> Result<Counts, (Refusal, Awaiting)>
        ensures answer { settled_of result ≡ settled (reading_refused self.batch table.old (length marks.old) (length bytes.now) bits) self.batch (answering self.batch (length bytes.now) bits) (bits_of bytes.now) table.old marks.old }
        ensures table { table.new ≡ table_settled (reading_refused self.batch table.old (length marks.old) (length bytes.now) bits) self.batch (answering self.batch (length bytes.now) bits) (bits_of bytes.now) table.old }
        ensures marks { marks.new ≡ marks_settled (reading_refused self.batch table.old (length marks.old) (length bytes.now) bits) self.batch (answering self.batch (length bytes.now) bits) (bits_of bytes.now) marks.old }
    {
        if self.batch.lacks(table.len(), marks.len()) {
            return Err((Refusal::Table, self));
        }
        let report = self.answered_by(bytes, bits);
        if self.lacks_place(report, table) {
            return Err((Refusal::Place, self));
        }
        Ok(self.settle(report, table, marks))
    }

    // No report came: every block is unanswered.
    pub fn absent(
        self,
        table: &mut [GrantEntry],
        marks: &mut [Mark],
    ) -> Result<Counts, (Refusal, Awaiting)>
        ensures answer { settled_of result ≡ settled (absence_refused self.batch table.old (length marks.old)) self.batch false (bits_of []) table.old marks.old }
        ensures table { table.new ≡ table_settled (absence_refused self.batch table.old (length marks.old)) self.batch false (bits_of []) table.old }
        ensures marks { marks.new ≡ marks_settled (absence_refused self.batch table.old (length marks.old)) self.batch false (bits_of []) marks.old }
    {
        if self.batch.lacks(table.len(), marks.len()) {
            return Err((Refusal::Table, self));
        }
        Ok(self.settle(None, table, marks))
    }
}
