// The text that answers a split.
ghost use Rattle.std.specs.Prelude.{Some, string_bytes};
ghost use Rattle.std.specs.List.{flat_map};
ghost use Rattle.split.specs.Refusals.{number_of};
ghost use Rattle.console.specs.Answers.{split_text};
ghost use Rattle.console.specs.Lines.{refusal_line, reason_line, told_lines};
ghost use Rattle.console.specs.Texts.{Appends};

use split::{MOST_BEARERS, Reason, Refusal, Stake};
use std::alloc::{AllocError, Global};
use std::fmt;

// The line of a refused split.
#[derive(Clone, Copy)]
struct Refused(Refusal);

impl fmt::Display for Refused {
    ghost output = { λ line. Some (refusal_line (number_of line.0)) };

    fn fmt<W: fmt::Write>(&self, f: &mut fmt::Formatter<W>) -> fmt::Result {
        writeln!(f, "refused {}", self.0.number())
    }
}

// The line of the rule that a share follows from, with its numbers.
#[derive(Clone, Copy)]
struct Because<'a> {
    sum: u64,
    reason: &'a Reason,
}

impl fmt::Display for Because<'_> {
    ghost output = { λ line. Some (reason_line line.sum line.reason.now) };

    fn fmt<W: fmt::Write>(&self, f: &mut fmt::Formatter<W>) -> fmt::Result {
        let sum = self.sum;
        let reason = self.reason;
        let own = reason.division;
        // the division that the share follows from
        write!(
            f,
            "# {}: {sum} x {} / {} = {}",
            own.code, own.weight, reason.total, own.whole
        )?;
        // what it leaves, and how the bearer stands for an odd dollar
        write!(
            f,
            ", remainder {}; rank {}, odd dollars {}",
            own.remainder, reason.rank, reason.odd
        )?;
        writeln!(f, ": gets {}", if reason.extra { "one" } else { "none" })
    }
}

// What is said of the bearers, in their order: the share of each, and while explanations are printed why it is that.
fn print_all(
    explaining: bool,
    sum: u64,
    reasons: &[Reason],
    out: &mut String,
) -> Result<(), AllocError>
    ensures { Appends result (string_bytes out.old) (string_bytes out.new) (flat_map (told_lines explaining sum) reasons.now) }
{
    for reason in reasons {
        writeln!(out, "share {} {}", reason.division.code, reason.share)?;
        if explaining {
            write!(out, "{}", Because { sum, reason })?;
        }
    }
    Ok(())
}

// Splits the sum, and appends the text that answers it. A reason holds its bearer's code and share, so the reasons alone
// are asked for. No more places are lent than a row may have bearers: a longer one is refused however many there are.
pub(crate) fn answer_split(
    heap: Global,
    explaining: bool,
    sum: u64,
    bearers: &[Stake],
    out: &mut String,
) -> Result<(), AllocError>
    ensures { Appends result (string_bytes out.old) (string_bytes out.new) (split_text explaining sum bearers.now) }
{
    let places = bearers.len().min(MOST_BEARERS);
    let mut reasons = vec![in heap; Reason::BLANK; places]?;
    match split::explain(sum, bearers, reasons.as_mut_slice()) {
        Ok(()) => print_all(explaining, sum, reasons.as_slice(), out),
        Err(refusal) => write!(out, "{}", Refused(refusal)),
    }
}
