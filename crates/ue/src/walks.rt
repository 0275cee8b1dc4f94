// The walk over the arrivals, which judges them one by one.
ghost use Rattle.std.specs.Prelude.{◌≡◌, ℕ, ◌^◌, ◌<◌, Ok, IfOk};
ghost use Rattle.std.specs.Option.{ok_or};
ghost use Rattle.harq.specs.Words.{onward};
ghost use Rattle.ue.specs.Walks.{start, above, known_total, joined, step, walk_from, slots_after, Sound, sound_prop};
ghost use Rattle.ue.specs.Batches.{brought};
ghost use Rattle.ue.specs.Checks.{config_judged};

use crate::arrivals::Arrival;
use crate::declines::{Decline, Part};
use harq::{Config, Placer, Refusal};

// The total of the last occasion that counted, if one of its arrivals carried one.
#[derive(Clone, Copy)]
pub struct Known {
    pub occasion: u32,
    pub total: Option<u32>,
}

// How far the arrivals have been judged.
#[derive(Clone, Copy)]
pub struct Walk {
    // Occasion and cell of the last arrival.
    pub last: Option<(u32, u32)>,
    pub known: Option<Known>,
    pub placer: Placer,
}

fn is_above(last: Option<(u32, u32)>, a: &Arrival) -> bool
    ensures { result ≡ above last a.now }
{
    last < Some((a.occasion, a.cell))
}

// The block count, and each outcome that the arrival brings.
fn is_brought(config: &Config, a: &Arrival) -> bool
    ensures { result ≡ brought config.now a.now }
{
    let mut outcomes = a.outcomes.iter().take(a.blocks as usize);
    config.blocks_within(a.blocks) && outcomes.all(|outcome| *outcome <= 1)
}

fn known_total(known: Option<Known>, occasion: u32) -> Option<u32>
    ensures { result ≡ known_total known occasion }
{
    known.filter(|k| k.occasion == occasion)?.total
}

// The total of an occasion with one arrival more.
fn join(known: Option<u32>, total: Option<u32>) -> Result<Option<u32>, Refusal>
    ensures { result ≡ ok_or (joined known total) Refusal.Totals }
{
    match (known, total) {
        (Some(u), Some(t)) if u != t => Err(Refusal::Totals),
        _ => Ok(known.or(total)),
    }
}

// A walk under a configuration that is within limits, so that its numbers are small.
#[derive(Clone, Copy)]
pub(crate) struct Walker<'a> {
    config: &'a Config,
    walk: Walk,
    ghost sound: { Sound config.now walk } by { sound_prop config.now walk },
}

impl<'a> Walker<'a> {
    // Before the first arrival.
    pub(crate) fn start(config: &'a Config) -> Result<Self, Decline>
        ensures is { onward result (λ _. Ok tt) ≡ config_judged config.now }
        ensures at { IfOk result (λ w. (w.config.now ≡ config.now) × (w.walk ≡ start config.now)) }
    {
        if !config.is_within() {
            return Err(Decline::new(Refusal::Configuration, Part::Configuration));
        }
        let walk = Walk {
            last: None,
            known: None,
            placer: Placer::new(config.span()),
        };
        Ok(Walker { config, walk })
    }

    // One arrival behind those before it.
    fn step(self, a: &Arrival) -> Result<Self, Refusal>
        ensures is { onward result (λ w. Ok w.walk) ≡ step self.entry.config.now self.entry.walk a.now }
        ensures config { IfOk result (λ w. w.config.now ≡ self.entry.config.now) }
    {
        let Walker { config, walk } = self;
        if !config.in_range(a.cell, a.occasion) {
            return Err(Refusal::Range);
        }
        if !is_above(walk.last, a) {
            return Err(Refusal::Order);
        }
        let (counter, total) = config.read_dai(a.format, a.field).ok_or(Refusal::Field)?;
        if !is_brought(config, a) {
            return Err(Refusal::Blocks);
        }
        let last = Some((a.occasion, a.cell));
        if !config.counts(a.cell, a.occasion) {
            let walk = Walk { last, ..walk };
            return Ok(Walker { config, walk });
        }
        let total = join(known_total(walk.known, a.occasion), total)?;
        let known = Some(Known {
            occasion: a.occasion,
            total,
        });
        let mut placer = walk.placer;
        placer.advance(counter);
        let walk = Walk {
            last,
            known,
            placer,
        };
        Ok(Walker { config, walk })
    }

    // The arrivals in turn.
    pub(crate) fn through(self, arrivals: &[Arrival]) -> Result<Self, Decline>
        ensures { onward result (λ w. Ok w.walk) ≡ walk_from self.entry.config.now self.entry.walk 0 arrivals.now }
    {
        let mut walker = self;
        for (i, a) in arrivals.iter().enumerate() {
            walker = walker
                .step(a)
                .map_err(|refusal| Decline::new(refusal, Part::Arrival(i)))?;
        }
        Ok(walker)
    }

    // How many slots there are behind the last arrival.
    pub(crate) fn slots(&self) -> usize
        ensures is { result ≡ slots_after self.now.walk }
        ensures small { result < 2 ^ 40 }
    {
        let placer = self.walk.placer;
        match self.walk.known {
            None => 0,
            Some(k) => placer.slots_at(k.total.unwrap_or(placer.previous())),
        }
    }
}
