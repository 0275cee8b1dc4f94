// Numbering calls, entries by number, and closing.
ghost use Rattle.std.specs.Prelude.{◌≡◌, ℕ, ◌+◌, ◌*◌, ◌<◌, ◌≤◌, ◌++◌, length, drop, OnOk};
ghost use Rattle.dai.specs.Values.{value};
ghost use Rattle.harq.specs.Configs.{layout_of};
ghost use Rattle.sink.specs.Written.{written};
ghost use Rattle.gnb.specs.Limits.{next_occasion};
ghost use Rattle.gnb.specs.Marks.{answered_blocks};
ghost use Rattle.gnb.specs.Calls.{allowed, grant_refused, grants_refused, occasion_refused, call_refused, field_by, entry_of, entries_of, blocks_in, call_answer, batch_after, table_after, expected};
ghost use Rattle.gnb.specs.Entries.{entry_at};

use super::{Awaiting, Numbering, State};
use crate::grants::{Call, Grant, GrantEntry};
use crate::marks::Marks;
use harq::{Config, Placer, Refusal};
use std::marker::PhantomData;

// The DAI field of number k, where `total` are numbered with its call.
fn field_of(config: &Config, format: u32, k: u32, total: u32) -> u32
    ensures { result ≡ field_by (layout_of config.now format) k total }
{
    config
        .layout(format)
        .map_or(0, |layout| dai::code(layout, k, total))
}

fn entry_of(config: &Config, occasion: u32, total: u32, k: u32, a: &Grant) -> GrantEntry
    ensures { result ≡ entry_of config.now occasion total k a.now }
{
    GrantEntry {
        cell: a.cell,
        occasion,
        format: a.format,
        blocks: a.blocks,
        number: k,
        field: field_of(config, a.format, k, total),
        marks: Marks::unanswered(a.blocks),
    }
}

// The counter of number k.
fn counter_of(span: u32, k: u32) -> u32
    requires { (0 < span) × (span ≤ 4) }
    ensures { result ≡ value span k }
{
    k.saturating_sub(1) % span + 1
}

// The blocks of a grant that ask an answer: one without a block counts as one.
fn answered_blocks(blocks: u32) -> u32
    ensures { result ≡ answered_blocks blocks }
{
    if blocks < 2 { 1 } else { 2 }
}

// The blocks that grants ask an answer for.
fn count_blocks(grants: &[Grant]) -> u32
    requires { length grants.now ≤ 16 }
    ensures is { result ≡ blocks_in grants.now }
    ensures few { result ≤ 2 * length grants.now }
{
    grants.iter().map(|a| answered_blocks(a.blocks)).sum()
}

impl<P> State<P> {
    // The entry of a number, none outside those numbered or the table.
    pub fn entry(&self, table: &[GrantEntry], number: u32) -> Option<GrantEntry>
        ensures { result ≡ entry_at self.now.batch.numbered table.now number }
    {
        if (1..=self.batch.numbered).contains(&number) {
            table.get(number as usize - 1).copied()
        } else {
            None
        }
    }
}

impl Numbering {
    // One grant, where `lowest` is the lowest cell that may come.
    fn check_grant(&self, occasion: u32, lowest: u32, a: &Grant) -> Result<(), Refusal>
        ensures { result ≡ allowed (grant_refused self.now.batch.config occasion lowest a.now) }
    {
        let config = &self.batch.config;
        if a.cell >= config.cells {
            return Err(Refusal::Range);
        }
        if a.cell < lowest {
            return Err(Refusal::Order);
        }
        if !config.counts(a.cell, occasion) {
            return Err(Refusal::Early);
        }
        if config.layout(a.format).is_none() {
            return Err(Refusal::Field);
        }
        if !config.blocks_within(a.blocks) {
            return Err(Refusal::Blocks);
        }
        Ok(())
    }

    // The grants of a call in turn: at most one for each cell.
    fn check_grants(&self, occasion: u32, grants: &[Grant]) -> Result<(), Refusal>
        ensures is { result ≡ allowed (grants_refused self.now.batch.config occasion 0 grants.now) }
        ensures few { OnOk result (length grants.now ≤ self.now.batch.config.cells) }
    {
        // A loop, since each grant is held against the one before it.
        let mut lowest = 0;
        for a in grants {
            self.check_grant(occasion, lowest, a)?;
            lowest = a.cell + 1;
        }
        Ok(())
    }

    fn check_occasion(&self, occasion: u32) -> Result<(), Refusal>
        ensures { result ≡ allowed (occasion_refused self.now.batch occasion) }
    {
        if occasion >= self.batch.config.occasions {
            return Err(Refusal::Range);
        }
        if self.batch.last.is_some_and(|last| occasion <= last) {
            return Err(Refusal::Order);
        }
        Ok(())
    }

    // A call is judged: the occasion, each grant, then the table.
    fn check_call(&self, table: usize, call: &Call) -> Result<(), Refusal>
        ensures is { result ≡ allowed (call_refused self.now.batch table call.now.occasion call.now.grants.now) }
        ensures few { OnOk result (length call.now.grants.now ≤ self.now.batch.config.cells) }
        ensures space { OnOk result (self.now.batch.numbered + length call.now.grants.now ≤ table) }
        ensures later { OnOk result ((call.now.occasion < self.now.batch.config.occasions) × (next_occasion self.now.batch.last ≤ call.now.occasion)) }
    {
        self.check_occasion(call.occasion)?;
        self.check_grants(call.occasion, call.grants)?;
        if table < self.batch.numbered as usize + call.grants.len() {
            return Err(Refusal::Table);
        }
        Ok(())
    }

    // Places the entries of a call's grants in the table, each by its counter, behind those before.
    fn place_entries(&self, call: &Call, table: &mut [GrantEntry])
        requires few { length call.now.grants.now ≤ self.now.batch.config.cells }
        requires space { self.now.batch.numbered + length call.now.grants.now ≤ length table.old }
        ensures { table.new ≡ written table.old self.now.batch.numbered (entries_of self.now.batch.config call.now.occasion (self.now.batch.numbered + length call.now.grants.now) self.now.batch.numbered call.now.grants.now) }
    {
        let Call { occasion, grants } = *call;
        let config = &self.batch.config;
        let span = config.span();
        let numbered = self.batch.numbered;
        let total = numbered + grants.len() as u32;
        let mut placer = Placer::after(span, numbered);
        for (i, a) in grants.iter().enumerate() {
            let k = numbered + i as u32 + 1;
            // The place is in the table: its space has been judged.
            let _ = placer.place(
                table,
                counter_of(span, k),
                entry_of(config, occasion, total, k, a),
            );
        }
    }

    // Numbers the grants of one occasion on behind those before, and answers how many are numbered now; a declined call changes nothing.
    pub fn number(
        &mut self,
        table: &mut [GrantEntry],
        occasion: u32,
        grants: &[Grant],
    ) -> Result<u32, Refusal>
        ensures answer { result ≡ call_answer self.old.batch (length table.old) occasion grants.now }
        ensures batch { self.new.batch ≡ batch_after self.old.batch (length table.old) occasion grants.now }
        ensures table { table.new ≡ table_after self.old.batch occasion grants.now table.old }
    {
        let call = Call { occasion, grants };
        self.check_call(table.len(), &call)?;
        self.place_entries(&call, table);
        let numbered = self.batch.numbered + grants.len() as u32;
        let granted = self.batch.granted + count_blocks(grants);
        self.batch.last = Some(occasion);
        self.batch.numbered = numbered;
        self.batch.granted = granted;
        Ok(numbered)
    }

    // Ends numbering: the length of the report to expect, and the state that awaits it.
    pub fn close(self) -> (usize, Awaiting)
        ensures length { result.0 ≡ expected self.batch }
        ensures batch { result.1.batch ≡ self.batch }
    {
        let Numbering { batch, phase: _ } = self;
        let awaiting = Awaiting {
            batch,
            phase: PhantomData,
        };
        (awaiting.expected(), awaiting)
    }
}

impl Awaiting {
    // The length of the report that answers all.
    pub(super) fn expected(&self) -> usize
        ensures { result ≡ expected self.now.batch }
    {
        let grants = self.batch.numbered as usize;
        self.batch.config.bits_per_place() * grants + self.batch.sps as usize
    }
}
