// What goes into an exchange.
ghost use Rattle.std.specs.Prelude.{◌≡◌, map, IfOk};
ghost use Rattle.ue.specs.declared.arrivals.SpsOutcome.{SpsOutcome};
ghost use Rattle.gnb.specs.Plans.{call_of};
ghost use Rattle.replay.specs.Scripts.{asked};

use agreement::Fate;
use gnb::{Call, Grant};
use harq::{Config, SpsEntry};
use link::Batch;
use std::alloc::{AllocError, Global};
use ue::SpsOutcome;

// A numbering call that owns its grants.
#[derive(Drop)]
pub struct Request {
    pub occasion: u32,
    pub grants: Vec<Grant>,
}

#[derive(Drop)]
pub struct Script {
    pub config: Config,
    pub sps: Vec<SpsOutcome>,
    // The length of the grant table.
    pub table: usize,
    pub requests: Vec<Request>,
    // Of the assignments sent, in order.
    pub fates: Vec<Fate>,
}

impl Script {
    // The SPS list without its outcomes.
    pub(crate) fn entries(&self, heap: Global) -> Result<Vec<SpsEntry>, AllocError>
        ensures { IfOk result (λ v. v.items ≡ map (λ (s : SpsOutcome). s.entry) self.now.sps.items) }
    {
        self.sps.iter().map(|s| s.entry).collect(heap)
    }

    // The numbering calls.
    pub(crate) fn calls(&self, heap: Global) -> Result<Vec<Call<'_>>, AllocError>
        ensures { IfOk result (λ v. map call_of v.items ≡ map asked self.now.requests.items) }
    {
        self.requests
            .iter()
            .map(|request| Call {
                occasion: request.occasion,
                grants: request.grants.as_slice(),
            })
            .collect(heap)
    }

    // What goes into the call of both cards.
    pub(crate) fn batch<'a>(&'a self, calls: &'a [Call<'a>]) -> Batch<'a>
        ensures config { result.config.now ≡ self.now.config }
        ensures sps { result.sps.now ≡ self.now.sps.items }
        ensures calls { result.calls.now ≡ calls.now }
        ensures fates { result.fates.now ≡ self.now.fates.items }
    {
        Batch {
            config: &self.config,
            sps: self.sps.as_slice(),
            calls,
            fates: self.fates.as_slice(),
        }
    }
}
