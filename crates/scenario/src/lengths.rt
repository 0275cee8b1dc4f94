// Why the lengths of report and expectation agree or differ.
use crate::losses::{first_total, longest_run, runs_short};
use crate::playing::{Outcome, Sent};
use harq::Config;
use link::Exchanged;
use std::fmt;

// The longest run of losses beside the counter's span.
fn tell_run<W: fmt::Write>(f: &mut fmt::Formatter<W>, span: u32, sent: &[Sent]) -> fmt::Result {
    let run = longest_run(sent);
    if run.long == 0 {
        return f.write_str("  nothing lost\n");
    }
    let long = run.long;
    let first = run.before.saturating_add(1);
    let last = run.before.saturating_add(long);
    if long == 1 {
        write!(f, "  longest run of losses 1, number {first}: ")?;
    } else {
        write!(
            f,
            "  longest run of losses {long}, numbers {first} to {last}: "
        )?;
    }
    if runs_short(span, sent) {
        writeln!(f, "below the span {span}, no turn of the counter is missed")
    } else {
        writeln!(
            f,
            "not below the span {span}, a turn of the counter is missed"
        )
    }
}

// Whether the UE saw the last occasion used to its end.
fn tell_end<W: fmt::Write>(
    f: &mut fmt::Formatter<W>,
    config: &Config,
    last: &Sent,
    sent: &[Sent],
) -> fmt::Result {
    let number = last.entry.number;
    let occasion = last.entry.occasion;
    if last.fate.arrived {
        return writeln!(f, "  end known: number {number}, the last, arrived");
    }
    match first_total(config, occasion, sent) {
        Some(with) => writeln!(
            f,
            "  end known: number {number}, the last, is lost, and number {with} brought the total of occasion {occasion}"
        ),
        None => writeln!(
            f,
            "  end unknown: number {number}, the last, is lost, and no total of occasion {occasion} arrived"
        ),
    }
}

// Both lengths, and why they are equal or not.
pub fn tell_lengths<W: fmt::Write>(
    f: &mut fmt::Formatter<W>,
    config: &Config,
    outcome: &Outcome,
) -> fmt::Result {
    f.write_str("\nlengths\n")?;
    let Exchanged {
        expected,
        report,
        ..
    } = outcome.exchanged;
    match report {
        Ok(length) if length == expected => {
            writeln!(f, "  expected {expected}, reported {length}: equal")?
        }
        Ok(length) => writeln!(f, "  expected {expected}, reported {length}: different")?,
        Err(_) => writeln!(f, "  expected {expected}, no report")?,
    }
    let sent = outcome.sent.as_slice();
    match sent.last() {
        Some(last) => {
            tell_run(f, config.span(), sent)?;
            tell_end(f, config, last, sent)
        }
        None => f.write_str("  nothing sent\n"),
    }
}
