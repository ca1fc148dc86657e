//! Callers of the program's core: the report on some bytes, behind what a `Vec` has, and words counted.
ghost use Rattle.std.specs.Prelude.{◌≡◌, ◌≢◌, ◌<◌, ◌⊎◌, ◌+◌, ◌^◌, ℕ, List, [], ◌++◌, length, Some, None, IsOk, OnOk, OnErr, IfErr, IfSome, encode_utf8_all, bytes_eq, option_map, slice_get};
ghost use Rattle.std.specs.Map.{lookup};
ghost use Rattle.std.specs.Str.{chars, IsUtf8};
ghost use Rattle.smol_tokens_core.specs.Counts.{IsWhole, IsFirstOther};
ghost use Rattle.smol_tokens_core.specs.Report.{IsReport, tokens_report};
ghost use Rattle.smol_tokens_core.specs.ReportFaults.{HasALineTooOften, CountsTooFar};
ghost use Rattle.smol_tokens_core.specs.Tally.{times_of};
ghost use Rattle.smol_tokens_core.specs.declared.mode.Mode.TheVariants.{Join, Merge};

use smol_str::SmolStr;
use smol_str::stream::read_all;
use smol_tokens_core::fault::RunFault;
use smol_tokens_core::laws;
use smol_tokens_core::mode::Mode;
use smol_tokens_core::run::run_with_hasher;
use smol_tokens_core::tally::{AddFault, Tally};
use std::alloc::Global;
use std::hash::{BuildHasher, BuildHasherDefault, FoldHasher};
use std::io::{Read, Write};

/// Appends the report on the bytes. Where there is none, `out` is as before, or the bytes are a text and a beginning of
/// its report was appended.
pub fn append_report<S: BuildHasher + Drop>(
    alloc: Global,
    state: S,
    mode: Mode,
    bytes: &mut &[u8],
    out: &mut Vec<u8>,
) -> Result<(), RunFault>
    ensures text { OnOk result (IsUtf8 bytes.old.now) }
    ensures end { OnOk result (bytes.new.now ≡ []) }
    ensures report { OnOk result ((report : List ℕ) × IsReport mode (chars bytes.old.now) report
        × (out.new.items ≡ out.old.items ++ encode_utf8_all report)) }

    ensures not_text { IfErr result (λ fault. fault ≡ RunFault.NotUtf8 →
        (¬ (IsUtf8 bytes.old.now)) × (bytes.new.now ≡ []) × (out.new.items ≡ out.old.items)) }
    ensures memory { IfErr result (λ fault. fault ≡ RunFault.OutOfMemory →
        ((mode ≡ Join) ⊎ (0 < length bytes.old.now)) × (out.new.items ≡ out.old.items)) }
    ensures left { IfErr result (λ fault. fault ≡ RunFault.OutOfMemory →
        (bytes.new.now ≡ []) ⊎ (length bytes.new.now < length bytes.old.now)) }
    ensures not_counts { IfErr result (λ fault. (n : ℕ) → fault ≡ RunFault.NotCounts n →
        (mode ≡ Merge) × IsFirstOther (chars bytes.old.now) n × (bytes.new.now ≡ []) × (out.new.items ≡ out.old.items)) }
    ensures full { IfErr result (λ fault. fault ≡ RunFault.Full →
        CountsTooFar mode (chars bytes.old.now) × (bytes.new.now ≡ []) × (out.new.items ≡ out.old.items)) }
    ensures beginning { OnErr result ((out.new.items ≡ out.old.items)
        ⊎ ((bytes.new.now ≡ []) × IsUtf8 bytes.old.now × ((report : List ℕ) × IsReport mode (chars bytes.old.now) report
        × ((front : List ℕ) × (rest : List ℕ) × (encode_utf8_all report ≡ front ++ rest)
        × (0 < length rest) × (out.new.items ≡ out.old.items ++ front))))) }
{
    run_with_hasher(alloc, state, mode, bytes, out)
}

/// Appends the report of mode tokens.
pub fn append_counts<S: BuildHasher + Drop>(
    alloc: Global,
    state: S,
    bytes: &mut &[u8],
    out: &mut Vec<u8>,
) -> Result<(), RunFault>
    ensures report { OnOk result (out.new.items ≡ out.old.items ++ encode_utf8_all (tokens_report (chars bytes.old.now))) }
    ensures full { IfErr result (λ fault. fault ≡ RunFault.Full → HasALineTooOften (chars bytes.old.now)) }
{
    run_with_hasher(alloc, state, Mode::Tokens, bytes, out)
}

/// Merges the reports of mode tokens on two parts of a text, cut at a line end: that is the report on the whole text.
pub fn append_merge<S: BuildHasher + Drop>(
    alloc: Global,
    state: S,
    reports: &mut &[u8],
    out: &mut Vec<u8>,
) -> Result<(), RunFault>
    ensures whole { (a b : List ℕ) → IsWhole a → ¬ HasALineTooOften (a ++ b) →
        chars reports.old.now ≡ tokens_report a ++ tokens_report b →
        OnOk result (out.new.items ≡ out.old.items ++ encode_utf8_all (tokens_report (a ++ b))) }
    ensures counts { (a b : List ℕ) → IsWhole a → ¬ HasALineTooOften (a ++ b) →
        chars reports.old.now ≡ tokens_report a ++ tokens_report b →
        IfErr result (λ fault. (fault ≢ RunFault.Full) × ((n : ℕ) → fault ≢ RunFault.NotCounts n)) }
{
    laws::counted_by_parts();
    laws::counts_read_back();
    run_with_hasher(alloc, state, Mode::Merge, reports, out)
}

/// What a reader gives after a run that was refused memory, or in which it failed or the writer did: those of its bytes
/// that the run has not read.
pub fn rest_after_run<S: BuildHasher + Drop, R: Read, W: Write>(
    alloc: Global,
    state: S,
    mode: Mode,
    reader: &mut R,
    writer: &mut W,
    bytes: &[u8],
) -> Option<Vec<u8>>
    requires known { R.remaining reader.old ≡ Some bytes.now }
    ensures { IfSome result (λ rest. (front : List ℕ) × (bytes.now ≡ front ++ rest.items)) }
{
    match run_with_hasher(alloc, state, mode, reader, writer) {
        Err(RunFault::OutOfMemory | RunFault::Io(_)) => read_all(alloc, reader).ok(),
        _ => None,
    }
}

/// What is left of the input where the run came to its end: nothing.
pub fn nothing_after_text<S: BuildHasher + Drop, R: Read, W: Write>(
    alloc: Global,
    state: S,
    mode: Mode,
    reader: &mut R,
    writer: &mut W,
    bytes: &[u8],
) -> Option<Vec<u8>>
    requires known { R.remaining reader.old ≡ Some bytes.now }
    ensures { IfSome result (λ rest. rest.items ≡ []) }
{
    match run_with_hasher(alloc, state, mode, reader, writer) {
        Ok(()) | Err(RunFault::NotUtf8 | RunFault::NotCounts(_) | RunFault::Full) => read_all(
            alloc, reader,
        ).ok(),
        Err(RunFault::OutOfMemory | RunFault::Io(_)) => None,
    }
}

/// The report on the bytes, in a function whose error is any error.
pub fn reported(alloc: Global, mode: Mode, mut bytes: &[u8]) -> anyhow::Result<Vec<u8>> {
    let (state, mut out) = (BuildHasherDefault::<FoldHasher>::new(), Vec::new(alloc));
    append_report(alloc, state, mode, &mut bytes, &mut out)?;
    Ok(out)
}

/// A tally with a word more, in such a function.
pub fn counted(mut words: Tally, word: SmolStr) -> anyhow::Result<Tally> {
    words.add(word, 1)?;
    Ok(words)
}

/// A word once more that is counted already, and not too often: it is never refused.
pub fn count_again<S: BuildHasher>(words: &mut Tally<S>, word: SmolStr) -> Result<u64, AddFault>
    requires there { ¬ (lookup (bytes_eq word.text) words.old ≡ None) }
    requires few { times_of word.text words.old + 1 < 2 ^ 64 }
    ensures { IsOk result }
{
    words.add(word, 1)
}

/// The word that was seen first, and its count.
pub fn first_seen<S: BuildHasher>(words: &Tally<S>) -> Option<(&SmolStr, &u64)>
    ensures { option_map (λ word. (word.0.now.text, word.1.now)) result ≡ slice_get words.now 0 }
{
    words.iter().next()
}
