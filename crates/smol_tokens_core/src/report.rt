//! The report of the modes that tell where a text is kept: of each line, or of all lines joined.
ghost use Rattle.std.specs.Prelude.{◌≡◌, ◌<◌, ◌++◌, length, IfOk, OnOk, OnErr, encode_utf8_all};
ghost use Rattle.std.specs.List.{flat_map};
ghost use Rattle.std.specs.Str.{chars};
ghost use Rattle.std.specs.String.{string_bytes};
ghost use Rattle.smol_str.specs.Text.{size};
ghost use Rattle.smol_str.specs.Meaning.{IsValueOf};
ghost use Rattle.smol_str.specs.declared.value.place.Place.TheVariants.{Inline};
ghost use Rattle.smol_tokens_core.specs.Lines.{lines};
ghost use Rattle.smol_tokens_core.specs.Report.{place_word, report_line, value_line, join_report, mapped_line};

use crate::lines::Lines;
use crate::mode::Mode;
use smol_str::{INLINE_CAP, Place, SmolStr, SmolStrBuilder, StrExt};
use std::alloc::{AllocError, Global};
use std::fmt;

/// The bytes that a report line has round an inline text, whose size has two digits at most.
const AROUND_INLINE: usize = "inline 00 \n".len();

/// One report line for each line of the text, after the mode's mapping.
pub(crate) fn report_lines(alloc: Global, mode: &Mode, text: &str) -> Result<String, AllocError>
    ensures ok { IfOk result (λ out. string_bytes out ≡ encode_utf8_all
        (flat_map (λ line. value_line (mapped_line mode.now line)) (lines (chars text.now)))) }
    ensures refused { OnErr result (0 < length (chars text.now)) }
{
    let mut out = String::new(alloc);
    for line in Lines::of(text) {
        push_line(alloc, &mut out, &mapped_value(alloc, mode, line)?)?;
    }
    Ok(out)
}

/// The value of a line after the mode's mapping.
fn mapped_value(alloc: Global, mode: &Mode, line: &str) -> Result<SmolStr, AllocError>
    ensures { IfOk result (λ v. IsValueOf (mapped_line mode.now (chars line.now)) v) }
{
    match mode {
        Mode::Lower => line.to_ascii_lowercase_smolstr(alloc),
        Mode::Upper => line.to_ascii_uppercase_smolstr(alloc),
        Mode::Replace(from, to) => line.replace_smolstr(alloc, from.as_str(), to.as_str()),
        _ => SmolStr::new(alloc, line),
    }
}

/// One report line: of all lines joined.
pub(crate) fn join(alloc: Global, text: &str) -> Result<String, AllocError>
    ensures { IfOk result (λ out. string_bytes out ≡ encode_utf8_all (join_report (chars text.now))) }
{
    let value = SmolStr::from_strs(alloc, Lines::of(text))?;
    let mut out = String::new(alloc);
    push_line(alloc, &mut out, &value)?;
    Ok(out)
}

/// Appends the report line of a value.
///
/// One that fits in a builder's own buffer is printed there first. Any other is printed into the report, since it would be
/// copied once more.
fn push_line(alloc: Global, out: &mut String, value: &SmolStr) -> Result<(), AllocError>
    ensures { OnOk result (string_bytes out.new ≡ string_bytes out.old
        ++ encode_utf8_all (report_line value.now.place (size value.now.text) value.now.text)) }
{
    if value.place() == Place::Inline && value.len() <= INLINE_CAP - AROUND_INLINE {
        push_inline(alloc, out, value)
    } else {
        print_line(out, value)
    }
}

/// Prints the report line of a value into the report.
#[tactic(auto, using(crate::proofs::ReportLemmas::lines_in_bytes))]
fn print_line(out: &mut String, value: &SmolStr) -> Result<(), AllocError>
    ensures { OnOk result (string_bytes out.new ≡ string_bytes out.old
        ++ encode_utf8_all (report_line value.now.place (size value.now.text) value.now.text)) }
{
    let (place, size) = (place_word(value.place()), value.len());
    fmt::Write::write_fmt(out, format_args!("{place} {size} {value}\n")).or(Err(AllocError))
}

/// Prints the report line of an inline value into a builder, and appends that.
fn push_inline(alloc: Global, out: &mut String, value: &SmolStr) -> Result<(), AllocError>
    ensures { OnOk result (string_bytes out.new ≡ string_bytes out.old
        ++ encode_utf8_all (report_line Inline (size value.now.text) value.now.text)) }
{
    let size = value.len();
    let mut line = SmolStrBuilder::new(alloc);
    write!(line, "inline {size} {value}\n").or(Err(AllocError))?;
    out.push_str(line.as_str())
}

/// The word that a report line has for a place.
fn place_word(place: Place) -> &'static str
    ensures { result.now ≡ place_word place }
{
    match place {
        Place::Inline => "inline",
        Place::Static => "static",
        Place::Heap => "heap",
    }
}
