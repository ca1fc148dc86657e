//! The program, over any reader and writer.
ghost use Rattle.std.specs.Prelude.{◌≡◌, ℕ, List, IfOk, OnOk, IfErr, encode_utf8_all};
ghost use Rattle.std.specs.Str.{chars};
ghost use Rattle.std.specs.String.{string_bytes};
ghost use Rattle.smol_tokens_core.specs.Report.{IsReport};
ghost use Rattle.smol_tokens_core.specs.ReportFaults.{HasNoReport};
ghost use Rattle.smol_tokens_core.specs.Faults.{streams, WroteReport, AfterFault};

use crate::fault::RunFault;
use crate::merge::merge_counts;
use crate::mode::Mode;
use crate::report::{join, report_lines};
use crate::tokens::count_lines;
use simdutf8::compat::from_utf8;
use smol_str::stream::{read_all, write_fully};
use std::alloc::Global;
use std::hash::{BuildHasher, BuildHasherDefault, FoldHasher};
use std::io::{Read, Write};

/// Reads to the end, tests UTF-8, puts the report together, and writes it.
///
/// This is the promise of the program. After `Ok` the reader is at its end, its bytes are the UTF-8
/// of some text, and exactly the report on that text was written. Nothing is written before the
/// whole report is there. So after [`RunFault::Io`] nothing was written, or a beginning of the report, and after every
/// other fault nothing. Of a reader or writer whose bytes are not known nothing is claimed.
///
/// Modes tokens and merge hash by a fixed seed, so whoever picks the input can make them take quadratic time. For input of a
/// stranger call [`run_with_hasher`].
pub fn run<R: Read, W: Write>(
    alloc: Global,
    mode: Mode,
    reader: &mut R,
    writer: &mut W,
) -> Result<(), RunFault>
    ensures ok { OnOk result
        (WroteReport mode (streams R.remaining reader.old reader.new W.contents writer.old writer.new)) }
    ensures fault { IfErr result
        (AfterFault mode (streams R.remaining reader.old reader.new W.contents writer.old writer.new)) }
{
    let state = BuildHasherDefault::<FoldHasher>::new();
    run_with_hasher(alloc, state, mode, reader, writer)
}

/// [`run`], where modes tokens and merge hash by `state`. The promise holds for every state.
pub fn run_with_hasher<S: BuildHasher + Drop, R: Read, W: Write>(
    alloc: Global,
    state: S,
    mode: Mode,
    reader: &mut R,
    writer: &mut W,
) -> Result<(), RunFault>
    ensures ok { OnOk result
        (WroteReport mode (streams R.remaining reader.old reader.new W.contents writer.old writer.new)) }
    ensures fault { IfErr result
        (AfterFault mode (streams R.remaining reader.old reader.new W.contents writer.old writer.new)) }
{
    let input = read_all(alloc, reader)?;
    let Ok(text) = from_utf8(input.as_slice()) else {
        return Err(RunFault::NotUtf8);
    };
    let report = make_report(alloc, state, &mode, text)?;
    write_fully(writer, report.as_bytes())?;
    Ok(())
}

/// The whole report on a text. Modes tokens and merge alone hash, by `state`, and no report depends on it.
fn make_report<S: BuildHasher + Drop>(
    alloc: Global,
    state: S,
    mode: &Mode,
    text: &str,
) -> Result<String, RunFault>
    ensures ok { IfOk result (λ out. (report : List ℕ) × IsReport mode.now (chars text.now) report
        × (string_bytes out ≡ encode_utf8_all report)) }
    ensures fault { IfErr result (HasNoReport mode.now (chars text.now)) }
{
    let report = match mode {
        Mode::Show | Mode::Lower | Mode::Upper | Mode::Replace(_, _) => {
            report_lines(alloc, mode, text)?
        }
        Mode::Join => join(alloc, text)?,
        Mode::Tokens => count_lines(alloc, state, text)?,
        Mode::Merge => merge_counts(alloc, state, text)?,
    };
    Ok(report)
}
