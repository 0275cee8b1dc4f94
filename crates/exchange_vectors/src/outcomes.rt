// How the outcome of an exchange is told.
ghost use Rattle.std.specs.Prelude.{◌≡◌, ℕ, List, ◌++◌, map, IfOk, string_bytes, decimal, OnOk};
ghost use Rattle.gnb.specs.declared.grants.GrantEntry.{GrantEntry};
ghost use Rattle.exchange_vectors.specs.Outcomes.{answer_text, mark_text, marks_text, each_behind, joined_by, or_dash, counts_text, report_text, grants_text, fields_text, all_marks_text, rest_text, outcome_text, declined_text};

use gnb::{Counts, GrantEntry, Mark, Marks};
use harq::Refusal;
use replay::Played;
use std::alloc::{AllocError, Global};

// What has a word in the line of an outcome, as a text of its own: `Display` of numbers, results and marks is not this program's to write.
pub trait Worded {
    ghost worded: { Self → List ℕ };

    fn word(&self, heap: Global) -> Result<String, AllocError>
        ensures { IfOk result (λ s. string_bytes s ≡ worded self.now) };
}

impl Worded for u32 {
    ghost worded = { decimal };

    fn word(&self, heap: Global) -> Result<String, AllocError> {
        let number = *self;
        format!(in heap; "{number}")
    }
}

// As for `u32`: a trait over both widths would be longer than these lines.
impl Worded for usize {
    ghost worded = { decimal };

    fn word(&self, heap: Global) -> Result<String, AllocError> {
        let number = *self;
        format!(in heap; "{number}")
    }
}

// What is answered, or minus the refusal's number.
impl<T: Worded> Worded for Result<T, Refusal> {
    ghost worded = { answer_text T.Worded.worded };

    fn word(&self, heap: Global) -> Result<String, AllocError> {
        match self {
            Ok(answer) => answer.word(heap),
            Err(refusal) => {
                let number = refusal.number();
                format!(in heap; "-{number}")
            }
        }
    }
}

impl Worded for Mark {
    ghost worded = { mark_text };

    fn word(&self, heap: Global) -> Result<String, AllocError> {
        self.number().word(heap)
    }
}

fn pair_text(heap: Global, first: u32, second: u32) -> Result<String, AllocError>
    ensures { IfOk result (λ s. string_bytes s ≡ decimal first ++ decimal second) }
{
    format!(in heap; "{first}{second}")
}

// A digit for each block.
impl Worded for Marks {
    ghost worded = { marks_text };

    fn word(&self, heap: Global) -> Result<String, AllocError> {
        match *self {
            Marks::One(first) => first.word(heap),
            Marks::Two(first, second) => pair_text(heap, first.number(), second.number()),
        }
    }
}

// Puts the words behind a text, each with another text before it. Word by word: a list of them all for the library's join takes a heap block for each.
fn push_each<W: Worded>(
    heap: Global,
    line: &mut String,
    list: &[W],
    between: &str,
) -> Result<(), AllocError>
    ensures { OnOk result (string_bytes line.new ≡ string_bytes line.old ++ each_behind between.now (map W.worded list.now)) }
{
    for item in list {
        let word = item.word(heap)?;
        line.push_str(between)?;
        line.push_str(word.as_str())?;
    }
    Ok(())
}

// The words in order, with a text between each two.
fn joined<W: Worded>(heap: Global, list: &[W], between: &str) -> Result<String, AllocError>
    ensures { IfOk result (λ s. string_bytes s ≡ joined_by between.now (map W.worded list.now)) }
{
    let [first, rest @ ..] = list else {
        return Ok(String::new(heap));
    };
    let mut line = first.word(heap)?;
    push_each(heap, &mut line, rest, between)?;
    Ok(line)
}

// A text, `-` where it is empty.
fn or_dash(text: &str) -> &str
    ensures { result.now ≡ or_dash text.now }
{
    if text.is_empty() { "-" } else { text }
}

// The same of words in order.
fn joined_or_dash<W: Worded>(heap: Global, list: &[W], between: &str) -> Result<String, AllocError>
    ensures { IfOk result (λ s. string_bytes s ≡ or_dash (joined_by between.now (map W.worded list.now))) }
{
    let text = joined(heap, list, between)?;
    if text.is_empty() {
        String::from_str(heap, "-")
    } else {
        Ok(text)
    }
}

fn counts_text(heap: Global, counts: Counts) -> Result<String, AllocError>
    ensures { IfOk result (λ s. string_bytes s ≡ counts_text counts) }
{
    let Counts {
        granted,
        delivered,
        negative,
        unanswered,
    } = counts;
    format!(in heap; "{granted} {delivered} {negative} {unanswered}")
}

// Both lengths and the bits of the report.
fn report_text(heap: Global, played: &Played) -> Result<String, AllocError>
    ensures { IfOk result (λ s. string_bytes s ≡ report_text played.now) }
{
    let expected = played.exchanged.expected;
    let length = played.exchanged.report.word(heap)?;
    let bits = or_dash(played.digits.as_str());
    format!(in heap; "{expected} {length} {bits}")
}

// Marks and fields by a function each: one over the field would state it by a closure's predicates, and be no shorter.
fn marks_of(heap: Global, sent: &[GrantEntry]) -> Result<Vec<Marks>, AllocError>
    ensures { IfOk result (λ v. v.items ≡ map (λ (e : GrantEntry). e.marks) sent.now) }
{
    sent.iter().map(|e| e.marks).collect(heap)
}

fn fields_of(heap: Global, sent: &[GrantEntry]) -> Result<Vec<u32>, AllocError>
    ensures { IfOk result (λ v. v.items ≡ map (λ (e : GrantEntry). e.field) sent.now) }
{
    sent.iter().map(|e| e.field).collect(heap)
}

fn grants_text(heap: Global, sent: &[GrantEntry]) -> Result<String, AllocError>
    ensures { IfOk result (λ s. string_bytes s ≡ grants_text sent.now) }
{
    let marks = marks_of(heap, sent)?;
    joined_or_dash(heap, marks.as_slice(), ".")
}

fn fields_text(heap: Global, sent: &[GrantEntry]) -> Result<String, AllocError>
    ensures { IfOk result (λ s. string_bytes s ≡ fields_text sent.now) }
{
    let fields = fields_of(heap, sent)?;
    joined_or_dash(heap, fields.as_slice(), ".")
}

// The marks of the grants and of the SPS entries, and the DAI fields.
fn marks_text(heap: Global, played: &Played) -> Result<String, AllocError>
    ensures { IfOk result (λ s. string_bytes s ≡ all_marks_text played.now) }
{
    let sent = played.sent.as_slice();
    let marks = grants_text(heap, sent)?;
    let sps = joined_or_dash(heap, played.marks.as_slice(), "")?;
    let fields = fields_text(heap, sent)?;
    format!(in heap; "{marks} {sps} {fields}")
}

// What stands behind the answers of the calls.
fn rest_text(heap: Global, played: &Played) -> Result<String, AllocError>
    ensures { IfOk result (λ s. string_bytes s ≡ rest_text played.now) }
{
    let report = report_text(heap, played)?;
    let counts = counts_text(heap, played.exchanged.counts)?;
    let marks = marks_text(heap, played)?;
    format!(in heap; "{report} {counts} {marks}")
}

// The line of an exchange.
pub fn outcome_line(heap: Global, played: &Played) -> Result<String, AllocError>
    ensures { IfOk result (λ s. string_bytes s ≡ outcome_text played.now) }
{
    let rest = rest_text(heap, played)?;
    if played.answers.is_empty() {
        return Ok(rest);
    }
    let answers = joined(heap, played.answers.as_slice(), " ")?;
    format!(in heap; "{answers} {rest}")
}

// The line where opening is declined.
pub fn declined_line(heap: Global, refusal: Refusal) -> Result<String, AllocError>
    ensures { IfOk result (λ s. string_bytes s ≡ declined_text refusal) }
{
    let number = refusal.number();
    format!(in heap; "declined {number}")
}
