//! Calls on bytes: a wire form of the text, or the text itself.
use OnForm::*;
use smol_str::SmolStr;
use smol_str::borsh::{BorshDeserialize, DecodeFault, deserialize_limited, from_wire, split_wire};
use smol_str::stream::{CHUNK, fill, read_all, read_up_to, write_fully};
use test_support::*;

pub enum OnForm {
    /// With more bytes behind the form, as `ReadLimited`.
    FromWire,
    SplitWire,
    /// Of a body that fits in a chunk, and of a longer one.
    ReadChunk,
    ReadForm,
    /// By a limit of the text's size, a greater and the greatest, as the two above.
    ReadLimitedChunk,
    ReadLimited,
    ReadUpTo,
    ReadAll,
    Fill,
    WriteFully,
    /// A byte behind the text that begins no character.
    NotUtf8,
    /// The size is one more than the text's, and by single bytes more than the limit.
    EndsEarly,
    /// The same, of a slice.
    SliceEndsEarly,
}

/// How many bytes a reader gives a call.
static STEPS: [usize; 3] = [1, 1000, usize::MAX];

impl Call for OnForm {
    /// What is read, room for the text, and how many bytes the reader gives a call.
    type Input = (Vec<u8>, Vec<u8>, usize);

    /// From a slice, and from readers that give one byte a call, some, and all.
    fn ways(&self) -> usize {
        match self {
            FromWire | SplitWire | WriteFully | NotUtf8 | SliceEndsEarly => 1,
            _ => 3,
        }
    }

    fn takes(&self, text: &str) -> bool {
        match self {
            ReadChunk | ReadLimitedChunk => text.len() <= CHUNK,
            ReadForm | ReadLimited => text.len() > CHUNK,
            _ => true,
        }
    }

    fn input(&self, test: &Test, text: &'static str, way: usize) -> (Vec<u8>, Vec<u8>, usize) {
        let mut form = Vec::new(test.alloc);
        if !matches!(self, ReadUpTo | ReadAll | Fill | WriteFully | NotUtf8) {
            ok(test, form.extend_from_slice(&self.size_of(text)));
        }
        ok(test, form.extend_from_slice(text.as_bytes()));
        ok(test, form.extend_from_slice(self.behind(text)));
        (form, self.room(test, text), STEPS[way % 3])
    }

    fn run(
        &self,
        alloc: Global,
        text: &str,
        (form, mut room, step): (Vec<u8>, Vec<u8>, usize),
    ) -> Outcome {
        let mut reader = trickle_of(&form, step, 0);
        let limit = text.len().saturating_add(step.saturating_sub(1));
        match self {
            FromWire => found(from_wire(alloc, &form)),
            SplitWire => found(split_wire(alloc, &form)),
            SliceEndsEarly => faulty(found(from_wire(alloc, &form))),
            NotUtf8 => faulty(made(SmolStr::from_utf8(alloc, &form))),
            WriteFully => changed(write_fully(&mut room, &form).is_ok(), room),
            Fill => changed(fill(&mut reader, &mut room).is_ok(), room),
            _ => self.read(alloc, &mut reader, limit),
        }
    }
}

impl OnForm {
    /// The text's size, as its form has it.
    fn size_of(&self, text: &str) -> [u8; 4] {
        let more = usize::from(matches!(self, EndsEarly | SliceEndsEarly));
        u32::try_from(text.len().saturating_add(more))
            .unwrap_or(0)
            .to_le_bytes()
    }

    /// What comes behind the text.
    fn behind<'a>(&self, text: &'a str) -> &'a [u8] {
        match self {
            FromWire | ReadLimitedChunk | ReadLimited => text.as_bytes(),
            NotUtf8 => b"\xff",
            _ => b"",
        }
    }

    fn room(&self, test: &Test, text: &str) -> Vec<u8> {
        let mut room = Vec::new(test.alloc);
        match self {
            Fill => ok(test, room.resize(text.len(), 0)),
            WriteFully => ok(test, room.reserve(text.len())),
            _ => {}
        }
        room
    }

    fn read(&self, alloc: Global, reader: &mut Trickle<'_>, limit: usize) -> Outcome {
        match self {
            EndsEarly => faulty(made(deserialize_limited(alloc, reader, limit))),
            ReadLimitedChunk | ReadLimited => made(deserialize_limited(alloc, reader, limit)),
            ReadUpTo => made(read_up_to(alloc, reader, limit)),
            ReadAll => made(read_all(alloc, reader)),
            ReadChunk | ReadForm => made(SmolStr::deserialize_reader(alloc, reader)),
            _ => Err(Thing::Fault),
        }
    }
}

/// What a call returned that is to end with a fault of its own, which does not speak of memory.
pub fn faulty(outcome: Outcome) -> Outcome {
    match outcome {
        Ok(_) => Err(Thing::Fault),
        Err(Thing::Fault) => Ok(Thing::Nothing),
        Err(left) => Err(left),
    }
}

fn found<R: Drop>(outcome: Result<(SmolStr, R), DecodeFault>) -> Outcome {
    match outcome {
        Ok((value, _)) => Ok(Thing::Value(value)),
        Err(fault) => Err(fault.into_thing()),
    }
}
