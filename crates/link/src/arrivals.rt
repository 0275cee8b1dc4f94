// The assignments that arrive at the UE.
ghost use Rattle.std.specs.Prelude.{◌≡◌, ◌≤◌, cond, [], map, length};
ghost use Rattle.gnb.specs.Sending.{assignment_in};
ghost use Rattle.agreement.specs.Fates.{fate_of, arrival_of, arrivals_of};

use agreement::Fate;
use arrayvec::ArrayVec;
use gnb::GrantEntry;
use ue::Arrival;

// A batch numbers one assignment for each of 16 cells and 32 occasions at most.
const MOST: usize = 512;

// An assignment arrives unaltered, with the outcomes of its blocks.
fn arrival_of(e: &GrantEntry, fate: Fate) -> Arrival
    ensures { result ≡ arrival_of (assignment_in e.now) fate }
{
    // A local, since the borrow checker does not cover an array that is read out of a field straight into a literal.
    let outcomes = fate.outcomes;
    Arrival {
        cell: e.cell,
        occasion: e.occasion,
        format: e.format,
        field: e.field,
        blocks: e.blocks,
        outcomes,
    }
}

// The arrival of the entry's assignment, if it is not lost.
fn arrival_in(fates: &[Fate], e: &GrantEntry) -> Option<Arrival>
    ensures { result ≡ cond (fate_of fates.now e.now.number).arrived (Some (arrival_of (assignment_in e.now) (fate_of fates.now e.now.number))) None }
{
    let fate = Fate::of(fates, e.number);
    fate.arrived.then(|| arrival_of(e, fate))
}

// Those of the entries' assignments that are not lost, into an empty list. It is lent, since a list of that size would be copied where it is answered.
pub(crate) fn arrive(fates: &[Fate], entries: &[GrantEntry], arrivals: &mut ArrayVec<Arrival, MOST>)
    requires empty { arrivals.old.items ≡ [] }
    requires fits { length entries.now ≤ MOST }
    ensures { arrivals.new.items ≡ arrivals_of fates.now (map assignment_in entries.now) }
{
    // All of these fit.
    let _ = arrivals.extend(entries.iter().filter_map(|e| arrival_in(fates, e)));
}
