//! The report of mode tokens: how often each line occurs.
ghost use Rattle.std.specs.Prelude.{◌≡◌, ◌<◌, ◌++◌, length, IfOk, IfErr, OnOk, OnErr, encode_utf8_all};
ghost use Rattle.std.specs.List.{flat_map};
ghost use Rattle.std.specs.Str.{chars};
ghost use Rattle.std.specs.String.{string_bytes};
ghost use Rattle.smol_tokens_core.specs.Counts.{count_line};
ghost use Rattle.smol_tokens_core.specs.declared.mode.Mode.TheVariants.{Tokens};
ghost use Rattle.smol_tokens_core.specs.Lines.{lines};
ghost use Rattle.smol_tokens_core.specs.Tally.{tally, seen_once};
ghost use Rattle.smol_tokens_core.specs.Report.{tokens_report};
ghost use Rattle.smol_tokens_core.specs.ReportFaults.{HasNoReport};

use crate::fault::RunFault;
use crate::lines::Lines;
use crate::tally::Tally;
use smol_str::SmolStr;
use std::alloc::{AllocError, Global};
use std::fmt;
use std::hash::BuildHasher;

/// The count of each different line of a text, and the line, in order of first sight.
///
/// The lines are hashed by `state`, on which the report does not depend.
pub fn count_lines<S: BuildHasher + Drop>(
    alloc: Global,
    state: S,
    text: &str,
) -> Result<String, RunFault>
    ensures ok { IfOk result (λ out. string_bytes out ≡ encode_utf8_all (tokens_report (chars text.now))) }
    ensures fault { IfErr result (HasNoReport Tokens (chars text.now)) }
{
    let tally = tally_lines(alloc, state, text)?;
    Ok(write_counts(alloc, &tally)?)
}

/// The lines of a text as tokens, each with how often it occurs.
fn tally_lines<S: BuildHasher + Drop>(
    alloc: Global,
    state: S,
    text: &str,
) -> Result<Tally<S>, RunFault>
    ensures ok { IfOk result (λ counts. counts ≡ tally (seen_once (lines (chars text.now)))) }
    ensures fault { IfErr result (HasNoReport Tokens (chars text.now)) }
{
    let mut tally = Tally::with_hasher(alloc, state);
    for line in Lines::of(text) {
        if !tally.add_text(alloc, line, 1)? {
            return Err(RunFault::Full);
        }
    }
    Ok(tally)
}

/// The count line of each token.
pub(crate) fn write_counts<S: BuildHasher>(
    alloc: Global,
    tally: &Tally<S>,
) -> Result<String, AllocError>
    ensures ok { IfOk result (λ out. string_bytes out ≡ encode_utf8_all (flat_map count_line tally.now)) }
    ensures refused { OnErr result (0 < length tally.now) }
{
    let mut out = String::new(alloc);
    for (token, count) in tally.iter() {
        push_count(&mut out, token, *count)?;
    }
    Ok(out)
}

/// Appends the count line of a token.
#[tactic(auto, using(crate::proofs::ReportLemmas::lines_in_bytes))]
fn push_count(out: &mut String, token: &SmolStr, count: u64) -> Result<(), AllocError>
    ensures { OnOk result (string_bytes out.new ≡ string_bytes out.old
        ++ encode_utf8_all (count_line (token.now.text, count))) }
{
    let token = token.as_str();
    fmt::Write::write_fmt(out, format_args!("{count} {token}\n")).or(Err(AllocError))
}
