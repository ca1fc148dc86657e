//! The report of mode merge: counts that were written by mode tokens, added up.
ghost use Rattle.std.specs.Prelude.{◌≡◌, ◌≢◌, ◌<◌, ◌^◌, ℕ, List, [], ◌∷◌, ◌++◌, length, MatchOption, IfSome, IfOk, OnOk, IfErr, encode_utf8_all};
ghost use Rattle.std.specs.Fmt.{decimal};
ghost use Rattle.std.specs.List.{flat_map};
ghost use Rattle.std.specs.Str.{chars};
ghost use Rattle.std.specs.String.{string_bytes};
ghost use Rattle.smol_str.specs.Cut.{Occurs, IsFirstAfter};
ghost use Rattle.smol_tokens_core.specs.declared.mode.Mode.TheVariants.{Merge};
ghost use Rattle.smol_tokens_core.specs.Counts.{count_line, IsMerge, BeginsWith};
ghost use Rattle.smol_tokens_core.specs.ReportFaults.{HasNoReport};

use crate::fault::RunFault;
use crate::tally::Tally;
use crate::tokens::write_counts;
use smol_str::kernel::next_match;
use std::alloc::Global;
use std::hash::BuildHasher;

/// The count line of each different token of a text of count lines, with the sum of its counts, in order of first sight.
///
/// The tokens are hashed by `state`; the report does not depend on it. A malformed line is reported before an overflow;
/// memory may be refused before either.
pub fn merge_counts<S: BuildHasher + Drop>(
    alloc: Global,
    state: S,
    text: &str,
) -> Result<String, RunFault>
    ensures ok { IfOk result (λ out. (report : List ℕ) × IsMerge (chars text.now) report
        × (string_bytes out ≡ encode_utf8_all report)) }
    ensures fault { IfErr result (HasNoReport Merge (chars text.now)) }
{
    let tally = sum_counts(alloc, state, text)?;
    Ok(write_counts(alloc, &tally)?)
}

/// The tokens of count lines, each with the sum of its counts.
fn sum_counts<S: BuildHasher + Drop>(
    alloc: Global,
    state: S,
    text: &str,
) -> Result<Tally<S>, RunFault>
    ensures ok { IfOk result (λ sums. IsMerge (chars text.now) (flat_map count_line sums)) }
    ensures some { IfOk result (λ sums. 0 < length sums → 0 < length (chars text.now)) }
    ensures fault { IfErr result (HasNoReport Merge (chars text.now)) }
{
    let mut tally = Tally::with_hasher(alloc, state);
    add_counts(alloc, &mut tally, text)?;
    Ok(tally)
}

/// Adds up the counts of count lines, in an empty tally.
fn add_counts<S: BuildHasher>(
    alloc: Global,
    tally: &mut Tally<S>,
    text: &str,
) -> Result<(), RunFault>
    requires { tally.old ≡ [] }
    ensures ok { OnOk result (IsMerge (chars text.now) (flat_map count_line tally.new)) }
    ensures some { OnOk result (0 < length tally.new → 0 < length (chars text.now)) }
    ensures fault { IfErr result (HasNoReport Merge (chars text.now)) }
{
    let (mut rest, mut lines, mut fits) = (text, 0, true);
    while let Some((count, token, after)) = first_count(rest) {
        // The lines after an overflow are read too: one may be malformed.
        if fits {
            fits = tally.add_text(alloc, token, count)?;
        }
        rest = after;
        lines += 1;
    }
    if !rest.is_empty() {
        return Err(RunFault::NotCounts(lines + 1));
    }
    if !fits {
        return Err(RunFault::Full);
    }
    Ok(())
}

/// The count and the token of the count line that a text begins with, and the text behind that line.
#[inline(always)]
fn first_count(text: &str) -> Option<(u64, &str, &str)>
    ensures cut { MatchOption result ((e : List ℕ × ℕ) (rest : List ℕ) → ¬ BeginsWith (chars text.now) (e ∷ []) rest)
        (λ cut. BeginsWith (chars text.now) ((chars cut.1.now, cut.0) ∷ []) (chars cut.2.now)) }
    ensures shorter { IfSome result (λ cut. length cut.2.now < length text.now) }
{
    let (digits, behind) = cut_at(text, " ")?;
    let (token, after) = cut_at(behind, "\n")?;
    Some((read_decimal(digits)?, token, after))
}

/// The text before the first match of a pattern, and the text behind the match.
#[inline(always)]
fn cut_at<'a>(text: &'a str, pattern: &str) -> Option<(&'a str, &'a str)>
    requires { 0 < length pattern.now }
    ensures cut { MatchOption result (¬ Occurs (chars pattern.now) (chars text.now))
        (λ cut. IsFirstAfter (chars pattern.now) (chars cut.0.now)
        × (chars text.now ≡ chars cut.0.now ++ (chars pattern.now ++ chars cut.1.now))) }
    ensures shorter { IfSome result (λ cut. length cut.1.now < length text.now) }
{
    let at = next_match(text, 0, pattern)?;
    Some((&text[..at], &text[at + pattern.len()..]))
}

/// Parses a canonical decimal `u64`: no sign, no leading zero.
fn read_decimal(digits: &str) -> Option<u64>
    ensures { MatchOption result ((n : ℕ) → n < 2 ^ 64 → chars digits.now ≢ decimal n) (λ n. chars digits.now ≡ decimal n) }
{
    let first = *digits.as_bytes().first()?;
    if first == b'+' || (first == b'0' && digits.len() > 1) {
        return None;
    }
    digits.parse::<u64>().ok()
}
