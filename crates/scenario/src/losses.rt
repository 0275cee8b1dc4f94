// Runs of losses, and totals that arrived.
ghost use Rattle.std.specs.Prelude.{◌≡◌, ◌+◌, ◌^◌, ◌<◌, true, map, ◌↔◌};
ghost use Rattle.harq.specs.Configs.{carries_total};
ghost use Rattle.harq.specs.Losses.{longest, LostRun, RunsShort};
ghost use Rattle.scenario.specs.Arrived.{arrived};
ghost use Rattle.scenario.specs.Runs.{run_after, longer};
ghost use Rattle.scenario.specs.Totals.{brings_total, first_total};

use crate::playing::Sent;
use dai::Layout;
use harq::Config;

// The numbers before + 1 up to before + long.
#[derive(Clone, Copy, Default)]
pub struct Run {
    pub before: usize,
    pub long: usize,
}

impl Run {
    // The run of losses that ends with the next number, which arrived or not.
    fn after(self, arrived: bool) -> Run
        requires { self.before + self.long + 1 < 2 ^ 64 }
        ensures { result ≡ run_after self arrived }
    {
        if arrived {
            Run {
                before: self.before + self.long + 1,
                long: 0,
            }
        } else {
            Run {
                before: self.before,
                long: self.long + 1,
            }
        }
    }

    // The longer of two runs, this one where they are equally long.
    fn or_longer(self, other: Run) -> Run
        ensures { result ≡ longer self other }
    {
        if self.long < other.long { other } else { self }
    }
}

// The first of the longest runs of losses.
pub fn longest_run(sent: &[Sent]) -> Run
    ensures long { result.long ≡ longest (map arrived sent.now) }
    ensures lost { LostRun (map arrived sent.now) result.before result.long }
{
    let mut best = Run::default();
    let mut run = Run::default();
    for s in sent {
        run = run.after(s.fate.arrived);
        best = best.or_longer(run);
    }
    best
}

// Whether every run of losses is shorter than the counter's span.
pub fn runs_short(span: u32, sent: &[Sent]) -> bool
    ensures { (result ≡ true) ↔ RunsShort span (map arrived sent.now) }
{
    longest_run(sent).long < span as usize
}

// Whether assignments of a format carry a total.
fn carries_total(config: &Config, format: u32) -> bool
    ensures { result ≡ carries_total config.now format }
{
    config.layout(format) == Some(Layout::Four)
}

// Whether an assignment arrived with a total of an occasion.
fn brings_total(config: &Config, occasion: u32, s: &Sent) -> bool
    ensures { result ≡ brings_total config.now occasion s.now }
{
    s.fate.arrived && (s.entry.occasion == occasion && carries_total(config, s.entry.format))
}

// The number of the first assignment that arrived with a total of an occasion, if there is one.
pub fn first_total(config: &Config, occasion: u32, sent: &[Sent]) -> Option<u32>
    ensures { result ≡ first_total config.now occasion sent.now }
{
    sent.iter()
        .find(|s| brings_total(config, occasion, *s))
        .map(|s| s.entry.number)
}
