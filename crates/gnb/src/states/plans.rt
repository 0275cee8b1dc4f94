// A batch planned: what a list of numbering calls would send, and the length of the report that would answer it.
ghost use Rattle.std.specs.Prelude.{◌≡◌, ◌≤◌, map, length};
ghost use Rattle.gnb.specs.Opening.{marks_opened};
ghost use Rattle.gnb.specs.Sending.{batch_run, table_run};
ghost use Rattle.gnb.specs.Plans.{call_of, planned, table_planned};

use super::{Awaiting, Numbering};
use crate::grants::{Call, GrantEntry};
use crate::marks::Mark;
use harq::{Config, Refusal, SpsEntry};

impl Numbering {
    fn number_each(&mut self, table: &mut [GrantEntry], calls: &[Call])
        ensures batch { self.new.batch ≡ batch_run self.old.batch table.old (map call_of calls.now) }
        ensures table { table.new ≡ table_run self.old.batch table.old (map call_of calls.now) }
    {
        for call in calls {
            // A declined call leaves all as it was.
            let _ = self.number(table, call.occasion, call.grants);
        }
    }

    // Numbers the grants of each call in turn, and answers how many are numbered then; a declined call leaves all as it was.
    pub fn number_all(&mut self, table: &mut [GrantEntry], calls: &[Call]) -> u32
        ensures answer { result ≡ (batch_run self.old.batch table.old (map call_of calls.now)).numbered }
        ensures few { result ≤ 512 }
        ensures batch { self.new.batch ≡ batch_run self.old.batch table.old (map call_of calls.now) }
        ensures table { table.new ≡ table_run self.old.batch table.old (map call_of calls.now) }
    {
        self.number_each(table, calls);
        self.batch.numbered
    }
}

// Opens a batch, numbers each call in turn and closes it. Nothing is sent, so that no report is awaited: the table tells what would be sent,
// and the answer is the length of the report that would be expected.
pub fn plan(
    config: Config,
    sps: &[SpsEntry],
    calls: &[Call],
    table: &mut [GrantEntry],
    marks: &mut [Mark],
) -> Result<usize, Refusal>
    ensures answer { result ≡ planned config sps.now (map call_of calls.now) table.old (length marks.old) }
    ensures table { table.new ≡ table_planned config sps.now (map call_of calls.now) table.old (length marks.old) }
    ensures marks { marks.new ≡ marks_opened config sps.now marks.old }
{
    let mut numbering = Numbering::open(config, sps, table, marks)?;
    numbering.number_all(table, calls);
    let (expected, awaiting) = numbering.close();
    let Awaiting { batch: _, phase: _ } = awaiting;
    Ok(expected)
}
