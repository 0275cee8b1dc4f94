// What happened in a scenario, section by section.
use crate::lengths::tell_lengths;
use crate::playing::{Outcome, Sent};
use crate::scenarios::Scenario;
use gnb::{Counts, GrantEntry, Mark, Marks};
use harq::{Config, Format, Mode, Refusal, SpsEntry};
use link::Fate;
use replay::{Request, Script};
use std::fmt;
use ue::SpsOutcome;

// A scenario with what came of it, or why opening was declined.
#[derive(Drop)]
pub struct Story {
    pub scenario: Scenario,
    pub outcome: Result<Outcome, Refusal>,
}

// The name, if there is one, and what both cards are set to.
fn tell_heading<W: fmt::Write>(
    f: &mut fmt::Formatter<W>,
    name: &str,
    config: &Config,
) -> fmt::Result {
    if name.is_empty() {
        f.write_str("scenario\n")?;
    } else {
        writeln!(f, "scenario {name}")?;
    }
    let Config {
        cells,
        occasions,
        width,
        mode,
        ..
    } = *config;
    write!(
        f,
        "  cells {cells}, occasions {occasions}, width {width}, mode {mode} ("
    )?;
    match Mode::try_from(mode) {
        Ok(mode) => write!(f, "{mode}")?,
        Err(_) => f.write_str("unknown")?,
    }
    let span = config.span();
    writeln!(f, "), span {span}")
}

// The refusal's number and words. In a scenario the gNB codes every field, and the table is that of the grants.
fn tell_refusal<W: fmt::Write>(f: &mut fmt::Formatter<W>, refusal: Refusal) -> fmt::Result {
    let number = refusal.number();
    write!(f, "declined, {number} (")?;
    match refusal {
        Refusal::Field => f.write_str("format barred")?,
        Refusal::Table => f.write_str("grant table too short")?,
        _ => write!(f, "{refusal}")?,
    }
    f.write_str(")\n")
}

// Each call with its answer.
fn tell_calls<W: fmt::Write>(
    f: &mut fmt::Formatter<W>,
    requests: &[Request],
    answers: &[Result<u32, Refusal>],
) -> fmt::Result {
    f.write_str("\ncalls\n")?;
    if requests.is_empty() {
        return f.write_str("  none\n");
    }
    for (request, answer) in requests.iter().zip(answers.iter()) {
        let occasion = request.occasion;
        let grants = request.grants.len();
        write!(f, "  occasion {occasion:>2}, grants {grants:>2}: ")?;
        match answer {
            Ok(numbered) => writeln!(f, "{numbered} numbered")?,
            Err(refusal) => tell_refusal(f, *refusal)?,
        }
    }
    Ok(())
}

fn outcome_text(outcome: u8) -> &'static str {
    if outcome == 1 { "ACK" } else { "NACK" }
}

// What became of an assignment on the air.
fn tell_fate<W: fmt::Write>(f: &mut fmt::Formatter<W>, blocks: u32, fate: Fate) -> fmt::Result {
    let Fate { arrived, outcomes } = fate;
    if !arrived {
        return f.write_str("lost\n");
    }
    let first = outcome_text(outcomes[0]);
    let second = outcome_text(outcomes[1]);
    match blocks {
        0 => f.write_str("arrived\n"),
        1 => writeln!(f, "arrived, {first}"),
        _ => writeln!(f, "arrived, {first} {second}"),
    }
}

// The counter of a field, and the total if it carries one.
fn tell_dai<W: fmt::Write>(
    f: &mut fmt::Formatter<W>,
    dai: Option<(u32, Option<u32>)>,
) -> fmt::Result {
    match dai {
        Some((counter, Some(total))) => write!(f, "  {counter:>7}  {total:>5}"),
        Some((counter, None)) => write!(f, "  {counter:>7}      -"),
        None => f.write_str("        -      -"),
    }
}

// An assignment as it was sent.
fn tell_entry<W: fmt::Write>(
    f: &mut fmt::Formatter<W>,
    config: &Config,
    e: &GrantEntry,
) -> fmt::Result {
    let GrantEntry {
        number,
        occasion,
        cell,
        blocks,
        field,
        ..
    } = *e;
    // What was sent has a format with a layout, and the name of each has three characters.
    let format = Format::try_from(e.format).unwrap_or(Format::OneTwo);
    write!(
        f,
        "  {number:>6}  {occasion:>8}  {cell:>4}     {format}  {blocks:>6}  {field:>5}"
    )?;
    tell_dai(f, config.read_dai(e.format, field))
}

// Each assignment, and its fate.
fn tell_sent<W: fmt::Write>(
    f: &mut fmt::Formatter<W>,
    config: &Config,
    sent: &[Sent],
) -> fmt::Result {
    f.write_str("\nsent\n")?;
    if sent.is_empty() {
        return f.write_str("  nothing\n");
    }
    f.write_str("  number  occasion  cell  format  blocks  field  counter  total  fate\n")?;
    for s in sent {
        tell_entry(f, config, &s.entry)?;
        f.write_str("  ")?;
        tell_fate(f, s.entry.blocks, s.fate)?;
    }
    Ok(())
}

// So many of the digits, from one on.
fn tell_bits<W: fmt::Write>(
    f: &mut fmt::Formatter<W>,
    digits: &str,
    from: usize,
    count: usize,
) -> fmt::Result {
    // Digits are ASCII: bytes are passed over at once, where characters would be decoded one by one.
    for digit in digits.as_bytes().iter().skip(from).take(count) {
        f.write_str(if *digit == b'1' { "1" } else { "0" })?;
    }
    f.write_str("\n")
}

// Who stands at each place of the report, and the bits there.
fn tell_places<W: fmt::Write>(
    f: &mut fmt::Formatter<W>,
    bits: usize,
    places: usize,
    outcome: &Outcome,
) -> fmt::Result {
    if places > 0 {
        f.write_str("  place  number  bits\n")?;
    }
    for (place, holder) in outcome.holders.iter().enumerate().take(places) {
        match holder {
            Some(number) => write!(f, "  {place:>5}  {number:>6}  ")?,
            None => write!(f, "  {place:>5}  nobody  ")?,
        }
        tell_bits(f, outcome.digits.as_str(), place.saturating_mul(bits), bits)?;
    }
    Ok(())
}

fn tell_sps<W: fmt::Write>(f: &mut fmt::Formatter<W>, entry: SpsEntry) -> fmt::Result {
    let SpsEntry {
        cell,
        configuration,
        slot,
    } = entry;
    write!(
        f,
        "  SPS cell {cell}, configuration {configuration}, slot {slot}: "
    )
}

// The places, the SPS bits, and all bits in a row.
fn tell_report<W: fmt::Write>(
    f: &mut fmt::Formatter<W>,
    script: &Script,
    outcome: &Outcome,
) -> fmt::Result {
    f.write_str("\nreport\n")?;
    let length = match outcome.exchanged.report {
        Ok(length) => length,
        Err(refusal) => {
            f.write_str("  ")?;
            return tell_refusal(f, refusal);
        }
    };
    let digits = outcome.digits.as_str();
    let behind = length.saturating_sub(script.sps.len());
    let bits = script.config.bits_per_place();
    tell_places(f, bits, behind / bits, outcome)?;
    for (i, s) in script.sps.iter().enumerate() {
        tell_sps(f, s.entry)?;
        tell_bits(f, digits, behind.saturating_add(i), 1)?;
    }
    if length == 0 {
        return f.write_str("  no bits\n");
    }
    f.write_str("  bits ")?;
    tell_bits(f, digits, 0, length)
}

// Every mark of every block and SPS entry.
fn tell_marks<W: fmt::Write>(
    f: &mut fmt::Formatter<W>,
    sent: &[Sent],
    sps: &[SpsOutcome],
    marks: &[Mark],
) -> fmt::Result {
    f.write_str("\nmarks\n")?;
    if sent.is_empty() && sps.is_empty() {
        return f.write_str("  none\n");
    }
    for s in sent {
        let GrantEntry { number, marks, .. } = s.entry;
        write!(f, "  number {number:>3}: ")?;
        match marks {
            Marks::One(only) => writeln!(f, "{only}")?,
            Marks::Two(first, second) => writeln!(f, "{first}, {second}")?,
        }
    }
    for (s, mark) in sps.iter().zip(marks) {
        tell_sps(f, s.entry)?;
        writeln!(f, "{mark}")?;
    }
    Ok(())
}

fn tell_counts<W: fmt::Write>(f: &mut fmt::Formatter<W>, counts: Counts) -> fmt::Result {
    let Counts {
        granted,
        delivered,
        negative,
        unanswered,
    } = counts;
    writeln!(
        f,
        "\ncounts\n  granted {granted}, delivered {delivered}, negative {negative}, unanswered {unanswered}"
    )
}

// What both cards did once the gNB was opened.
fn tell_outcome<W: fmt::Write>(
    f: &mut fmt::Formatter<W>,
    script: &Script,
    outcome: &Outcome,
) -> fmt::Result {
    let sent = outcome.sent.as_slice();
    tell_calls(f, script.requests.as_slice(), outcome.answers.as_slice())?;
    tell_sent(f, &script.config, sent)?;
    tell_report(f, script, outcome)?;
    tell_lengths(f, &script.config, outcome)?;
    tell_marks(f, sent, script.sps.as_slice(), outcome.marks.as_slice())?;
    tell_counts(f, outcome.exchanged.counts)
}

impl fmt::Display for Story {
    fn fmt<W: fmt::Write>(&self, f: &mut fmt::Formatter<W>) -> fmt::Result {
        let script = &self.scenario.script;
        tell_heading(f, self.scenario.name.as_str(), &script.config)?;
        match &self.outcome {
            Ok(outcome) => tell_outcome(f, script, outcome),
            Err(refusal) => {
                f.write_str("\nopening\n  ")?;
                tell_refusal(f, *refusal)
            }
        }
    }
}
