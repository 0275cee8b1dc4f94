// Tables that hold of the definitions, one function for each: its contract is the table. Where a definition changes so that a row no longer
// holds, the check shows the row by its name, with what came.
#![tactic(auto)]

ghost use Rattle.tables.specs.Counting.{CountersTold, TotalsTold, UncountedTold};
ghost use Rattle.tables.specs.Dai.{NumbersTold, FieldsRead};
ghost use Rattle.tables.specs.Exchanged.{ExchangesWorked, CountsWorked};
ghost use Rattle.tables.specs.FirstFaults.{FirstTold};
ghost use Rattle.tables.specs.Longest.{OneBlockTold, TwoBlocksTold, LengthOrderTold};
ghost use Rattle.tables.specs.Numbered.{OpeningsTold, CallsTold, ReasonsTold, SendingTold};
ghost use Rattle.tables.specs.PlaceBits.{PlacesTold, SpsTold};
ghost use Rattle.tables.specs.Refused.{RefusalsNumbered, ConfigurationsJudged, ArrivalsJudged, FieldsJudged, BlocksJudged, TotalsJudged, UncountedJudged, SpsJudged, WholeJudged};
ghost use Rattle.tables.specs.Settled.{MarkedTold, AnswersTold, RefusalsTold};
ghost use Rattle.tables.specs.Worked.{FieldsWorked, BatchesWorked, SlotsWorked};

// DAI values, layouts by format, and fields coded and read.
pub fn dai_told()
    ensures numbers { NumbersTold }
    ensures fields { FieldsRead }
{}

// Batches with losses: their DAI fields, reports and slots, and both cards with the marks and counts.
pub fn worked_batches()
    ensures fields { FieldsWorked }
    ensures reports { BatchesWorked }
    ensures slots { SlotsWorked }
    ensures exchanges { ExchangesWorked }
    ensures counts { CountsWorked }
{}

// Which slots a report has.
pub fn counting_told()
    ensures counters { CountersTold }
    ensures totals { TotalsTold }
    ensures uncounted { UncountedTold }
{}

// The bits of a place in each mode, and the SPS bits behind.
pub fn bits_told()
    ensures places { PlacesTold }
    ensures sps { SpsTold }
{}

// Each refusal, and each limit from both sides.
pub fn refusals_told()
    ensures numbers { RefusalsNumbered }
    ensures configurations { ConfigurationsJudged }
    ensures arrivals { ArrivalsJudged }
    ensures fields { FieldsJudged }
    ensures blocks { BlocksJudged }
    ensures totals { TotalsJudged }
    ensures uncounted { UncountedJudged }
    ensures sps { SpsJudged }
    ensures whole { WholeJudged }
{}

// The first of two reasons in the order of the checks.
pub fn first_fault_told()
    ensures { FirstTold }
{}

// The limit of the length, and its place in the order of the checks.
pub fn longest_told()
    ensures one { OneBlockTold }
    ensures two { TwoBlocksTold }
    ensures order { LengthOrderTold }
{}

// The gNB: openings, numbering calls and their answers, which reason is told first, fields and lengths.
pub fn numbering_told()
    ensures openings { OpeningsTold }
    ensures calls { CallsTold }
    ensures reasons { ReasonsTold }
    ensures sending { SendingTold }
{}

// Reports read at the gNB, whoever made them: marks and counts, whether a report answers, and why reading is declined.
pub fn readings_told()
    ensures marked { MarkedTold }
    ensures answers { AnswersTold }
    ensures refusals { RefusalsTold }
{}
