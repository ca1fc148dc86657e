//! Log records on the wire, and as lines of JSON.
ghost use Rattle.std.specs.Prelude.{◌≡◌, ◌∷◌, [], ◌++◌, length, map, All, codes, IfOk, IfErr, IfSome, OnOk, OnErr, string_bytes};
ghost use Rattle.std.specs.Io.KnownBytes.{Appends};
ghost use Rattle.smol_str.specs.Json.{compact_text, json_value};
ghost use Rattle.smol_str.specs.Stream.{Gave, AppendsBeginning};
ghost use Rattle.uses_wire.specs.declared.log_records.Record.{Record};
ghost use Rattle.uses_wire.specs.LogRecords.{HasForm, form, forms, texts, AfterRecordFault, AfterNextFault, AfterReadFault};

use smol_str::borsh::{BorshSerialize, EncodeFault, LimitedFault, deserialize_limited};
use smol_str::json_string::to_json;
use smol_str::{SmolStr, laws};
use std::alloc::{AllocError, Global};
use std::io::{Read, Write};

/// The most bytes of a level that are read.
pub const LEVEL_LIMIT: usize = 16;

/// What happened, and how grave it is.
#[derive(Drop)]
pub struct Record {
    pub level: SmolStr,
    pub message: SmolStr,
}

/// Writes a record.
#[tactic(auto, using(smol_str::proofs::CallerLemmas::parts))]
pub fn write_record<W: Write>(writer: &mut W, entry: &Record) -> Result<(), EncodeFault>
    ensures sized { OnOk result (HasForm entry.now) }
    ensures ok { OnOk result (Appends (W.contents writer.old) (W.contents writer.new) (form entry.now)) }
    ensures fault { OnErr result (AppendsBeginning (W.contents writer.old) (W.contents writer.new) (form entry.now)) }
{
    entry.level.serialize(writer)?;
    entry.message.serialize(writer)
}

/// Reads a record whose message has at most `limit` bytes.
#[tactic(auto, using(smol_str::proofs::CallerLemmas::parts))]
pub fn read_record<R: Read>(
    alloc: Global,
    reader: &mut R,
    limit: usize,
) -> Result<Record, LimitedFault>
    ensures ok { IfOk result (λ r. Gave R.remaining reader.old reader.new (form r)) }
    ensures sized { IfOk result HasForm }
    ensures fault { IfErr result
        (AfterRecordFault LEVEL_LIMIT limit (R.remaining reader.old) (R.remaining reader.new)) }
{
    let level = deserialize_limited(alloc, reader, LEVEL_LIMIT)?;
    let message = deserialize_limited(alloc, reader, limit)?;
    Ok(Record { level, message })
}

/// Reads so many records, and no byte behind them.
#[tactic(auto, using(std::proofs::lemmas::Grind::common_steps))]
pub fn read_all<R: Read>(
    alloc: Global,
    reader: &mut R,
    count: usize,
    limit: usize,
) -> Result<Vec<Record>, LimitedFault>
    ensures ok { IfOk result (λ records. Gave R.remaining reader.old reader.new (forms records.items)) }
    ensures count { IfOk result (λ records. length records.items ≡ count) }
    ensures sized { IfOk result (λ records. All HasForm records.items) }
    ensures fault { IfErr result
        (AfterReadFault count LEVEL_LIMIT limit (R.remaining reader.old) (R.remaining reader.new)) }
{
    let mut records = Vec::new(alloc);
    for i in 0..count {
        read_next(alloc, reader, &mut records, limit)?;
    }
    Ok(records)
}

/// Reads one record more, at the end of those so far.
#[tactic(auto, using(smol_str::proofs::CallerLemmas::items), unfolding(crate::specs::LogRecords::AfterNextFault))]
fn read_next<R: Read>(
    alloc: Global,
    reader: &mut R,
    records: &mut Vec<Record>,
    limit: usize,
) -> Result<(), LimitedFault>
    ensures ok { OnOk result ((entry : Record) × HasForm entry × (records.new.items ≡ records.old.items ++ entry ∷ [])
        × Gave R.remaining reader.old reader.new (form entry)) }
    ensures fault { IfErr result
        (AfterNextFault LEVEL_LIMIT limit (R.remaining reader.old) (R.remaining reader.new)) }
{
    let entry = read_record(alloc, reader, limit)?;
    records.push(entry)?;
    Ok(())
}

/// Records that were written are read back, and what is behind them is left.
pub fn read_back<'a>(
    alloc: Global,
    bytes: &'a [u8],
    records: &[Record],
    rest: &[u8],
    limit: usize,
) -> Option<(Vec<Record>, &'a [u8])>
    requires sized { All HasForm records.now }
    requires written { bytes.now ≡ forms records.now ++ rest.now }
    ensures same { IfSome result (λ read. map texts read.0.items ≡ map texts records.now) }
    ensures left { IfSome result (λ read. read.1.now ≡ rest.now) }
{
    laws::wire_forms();
    let mut reader = bytes;
    match read_all(alloc, &mut reader, records.len(), limit) {
        Ok(read) => Some((read, reader)),
        Err(_fault) => None,
    }
}

/// A record as a line of JSON.
pub fn json_line(alloc: Global, entry: &Record) -> Result<String, AllocError>
    ensures { IfOk result (λ line. string_bytes line ≡ codes "{\"level\":" ++ (compact_text (json_value entry.now.level.text)
        ++ (codes ",\"message\":" ++ (compact_text (json_value entry.now.message.text) ++ codes "}\n")))) }
{
    let level = to_json(alloc, &entry.level)?;
    let message = to_json(alloc, &entry.message)?;
    format!(in alloc; "{{\"level\":{level},\"message\":{message}}}\n")
}
