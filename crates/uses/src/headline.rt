//! The headline of the library, clause by clause: a contract for every way to make a value, and what any two values have in
//! common. Each repeats what the library's own contract says, so that a clause that gets weaker there is refused here.
//! Clause `value` says that the value has exactly the expected text, in the place of that text, and `refused` that memory
//! may be refused only for text that is not resident, or not short where it comes in parts.
ghost use Rattle.std.specs.Prelude.{◌≡◌, ◌<◌, ◌≤◌, ◌⊎◌, ◌↔◌, ◌++◌, [], ◌∷◌, length, IfOk, OnOk, OnErr, IsTrue, ◌-◌, chars, IsUtf8, string_bytes};
ghost use Rattle.std.specs.Ordering.{nat_cmp};
ghost use Rattle.std.specs.Cmp.Lexicographic.{slice_cmp};
ghost use Rattle.std.specs.Box.{boxed_str_bytes};
ghost use Rattle.std.specs.Cow.{cow_str_bytes};
ghost use Rattle.std.specs.Iterator.{IsFinite};
ghost use Rattle.std.specs.Rc.{rc_str_bytes};
ghost use Rattle.smol_str.specs.Text.{IsShort, IsResident, blank_run, place_of};
ghost use Rattle.smol_str.specs.Meaning.{IsValueOf};
ghost use Rattle.smol_str.specs.Joined.{joined, joined_strs, joined_strings, joined_string_refs, string_text, str_text};
ghost use Rattle.smol_str.specs.Collect.{Collected, Outgrown, AppendedAll, StoppedAt};
ghost use Rattle.smol_str.specs.Steps.{step_text};
ghost use Rattle.smol_str.specs.Case.{lower, upper, lowercased, uppercased, converted};
ghost use Rattle.smol_str.specs.Replace.{replaced, replaced_all};

use smol_str::kernel::AsciiCase;
use smol_str::{
    BLANK_NEWLINES, BLANK_SPACES, INLINE_CAP, Place, SmolStr, SmolStrBuilder, Step, StrExt,
    ValueAlloc, build,
};
use std::alloc::{AllocError, Global};
use std::borrow::CowStr;
use std::boxed::BoxedStr;
use std::cmp::Ordering;
use std::hash::{Hash, Hasher};
use std::rc::RcStr;

/// A whole text.
pub fn of_text(alloc: Global, text: &str) -> Result<SmolStr, AllocError>
    ensures value { IfOk result (λ v. IsValueOf (chars text.now) v) }
    ensures refused { OnErr result (¬ (IsResident (chars text.now))) }
{
    SmolStr::new(alloc, text)
}

/// A whole text, by the other name of the call.
pub fn of_str(alloc: Global, text: &str) -> Result<SmolStr, AllocError>
    ensures value { IfOk result (λ v. IsValueOf (chars text.now) v) }
    ensures refused { OnErr result (¬ (IsResident (chars text.now))) }
{
    SmolStr::from_str(alloc, text)
}

/// A short text, which is never refused.
pub fn of_short_text(text: &str) -> SmolStr
    requires { length text.now ≤ INLINE_CAP }
    ensures value { IsValueOf (chars text.now) result }
{
    SmolStr::new_inline(text)
}

/// A short text in a case of ASCII, which is never refused.
pub fn of_short_text_in_case(text: &str, case: AsciiCase) -> SmolStr
    requires { length text.now ≤ INLINE_CAP }
    ensures value { IsValueOf (converted case (chars text.now)) result }
{
    SmolStr::new_inline_in_case(text, case)
}

/// No text, which is never refused.
pub fn of_nothing() -> SmolStr
    ensures value { IsValueOf [] result }
{
    SmolStr::default()
}

/// Newlines and then spaces, within the limits, which are never refused.
pub fn of_blank(newlines: usize, spaces: usize) -> SmolStr
    requires few_newlines { newlines ≤ BLANK_NEWLINES }
    requires few_spaces { spaces ≤ BLANK_SPACES }
    ensures value { IsValueOf (blank_run newlines spaces) result }
{
    SmolStr::blank(newlines, spaces)
}

/// A text that lives as long as the program, pinned to place Static; it is never refused.
pub fn of_constant(text: &'static str) -> SmolStr
    ensures value { result.text ≡ chars text.now }
    ensures place { result.place ≡ Place.Static }
{
    SmolStr::new_static(text)
}

/// A whole text in bytes.
pub fn of_bytes(alloc: Global, bytes: &[u8]) -> Result<SmolStr, AllocError>
    requires { IsUtf8 bytes.now }
    ensures value { IfOk result (λ v. IsValueOf (chars bytes.now) v) }
    ensures refused { OnErr result (¬ (IsResident (chars bytes.now))) }
{
    SmolStr::from_utf8(alloc, bytes).map_err(|_| AllocError)
}

/// A whole text in bytes that are known to be UTF-8.
pub fn of_known_bytes(alloc: Global, bytes: &[u8]) -> Result<SmolStr, AllocError>
    requires { IsUtf8 bytes.now }
    ensures value { IfOk result (λ v. IsValueOf (chars bytes.now) v) }
    ensures refused { OnErr result (¬ (IsResident (chars bytes.now))) }
{
    SmolStr::from_utf8_unchecked(alloc, bytes)
}

/// A `String`, lent.
pub fn of_string_ref(alloc: Global, text: &String) -> Result<SmolStr, AllocError>
    ensures value { IfOk result (λ v. IsValueOf (chars (string_bytes text.now)) v) }
    ensures refused { OnErr result (¬ (IsResident (chars (string_bytes text.now)))) }
{
    SmolStr::from_string_ref(alloc, text)
}

/// A `String`, handed over.
pub fn of_string(alloc: Global, text: String) -> Result<SmolStr, AllocError>
    ensures value { IfOk result (λ v. IsValueOf (chars (string_bytes text)) v) }
    ensures refused { OnErr result (¬ (IsResident (chars (string_bytes text)))) }
{
    SmolStr::from_string(alloc, text).or(Err(AllocError))
}

/// A `String`, handed over: the value keeps its memory, and a refusal drops it.
pub fn of_owned(text: String) -> Result<SmolStr, AllocError>
    ensures value { IfOk result (λ v. IsValueOf (chars (string_bytes text)) v) }
    ensures refused { OnErr result (¬ (IsResident (chars (string_bytes text)))) }
{
    SmolStr::from_owned(text)
}

/// A boxed `str`.
pub fn of_boxed_str(alloc: Global, text: BoxedStr) -> Result<SmolStr, AllocError>
    ensures value { IfOk result (λ v. IsValueOf (chars (boxed_str_bytes text)) v) }
    ensures refused { OnErr result (¬ (IsResident (chars (boxed_str_bytes text)))) }
{
    SmolStr::from_boxed_str(alloc, text).or(Err(AllocError))
}

/// A text that is borrowed or owned.
pub fn of_cow_str(alloc: Global, text: CowStr<'_>) -> Result<SmolStr, AllocError>
    ensures value { IfOk result (λ v. IsValueOf (chars (cow_str_bytes text.entry)) v) }
    ensures refused { OnErr result (¬ (IsResident (chars (cow_str_bytes text.entry)))) }
{
    SmolStr::from_cow_str(alloc, text).or(Err(AllocError))
}

/// A shared text, which is never refused.
pub fn of_shared(text: RcStr) -> SmolStr
    ensures value { IsValueOf (chars (rc_str_bytes text)) result }
{
    SmolStr::from_rc_str(text)
}

/// A shared text, by the trait's call.
pub fn from_shared(text: RcStr) -> SmolStr
    ensures value { IsValueOf (chars (rc_str_bytes text)) result }
{
    SmolStr::from(text)
}

/// One character, which is never refused.
pub fn of_character(character: char) -> SmolStr
    ensures value { IsValueOf (character ∷ []) result }
{
    SmolStr::from(character)
}

/// Characters, one after another.
#[tactic(auto, using(smol_str::proofs::CallerLemmas::collecting_chars))]
pub fn of_characters(alloc: Global, text: &str) -> Result<SmolStr, AllocError>
    ensures value { IfOk result (λ v. IsValueOf (chars text.now) v) }
    ensures refused { OnErr result (¬ (IsShort (chars text.now))) }
{
    SmolStr::from_chars(alloc, text.chars())
}

/// Pieces, one after another.
#[tactic(auto, using(smol_str::proofs::CallerLemmas::collecting_strings))]
pub fn of_pieces(alloc: Global, pieces: &[String]) -> Result<SmolStr, AllocError>
    ensures value { IfOk result (λ v. IsValueOf (joined string_text pieces.now) v) }
    ensures refused { OnErr result (¬ (IsShort (joined string_text pieces.now))) }
{
    SmolStr::from_string_refs(alloc, pieces.iter())
}

/// The characters of any iterator that ends.
pub fn of_any_chars<A: ValueAlloc, I: Iterator<Item = char>>(
    alloc: A,
    iter: I,
) -> Result<A::Value, AllocError>
    requires can { I.can_next iter }
    requires ends { IsFinite (I.remaining iter) }
    ensures value { IfOk result (Collected (λ items. items) I.next_gives iter A.meaning) }
    ensures refused { OnErr result (Outgrown (λ items. items) I.next_gives iter) }
{
    SmolStr::from_chars(alloc, iter)
}

/// The `&str`s of any iterator that ends.
pub fn of_any_strs<'a, A: ValueAlloc, I: Iterator<Item = &'a str>>(
    alloc: A,
    iter: I,
) -> Result<A::Value, AllocError>
    requires can { I.can_next iter }
    requires ends { IsFinite (I.remaining iter) }
    ensures value { IfOk result (Collected joined_strs I.next_gives iter A.meaning) }
    ensures refused { OnErr result (Outgrown joined_strs I.next_gives iter) }
{
    SmolStr::from_strs(alloc, iter)
}

/// The texts of a list as one, by a function that is generic in an iterator and speaks of its run.
#[tactic(auto, using(smol_str::proofs::CallerLemmas::collecting_strs))]
pub fn of_list(alloc: Global, parts: &[&str]) -> Result<SmolStr, AllocError>
    ensures value { IfOk result (λ v. IsValueOf (joined str_text parts.now) v) }
    ensures refused { OnErr result (¬ (IsShort (joined str_text parts.now))) }
{
    of_any_strs(alloc, parts.iter().copied())
}

/// The `String`s of any iterator that ends.
pub fn of_any_strings<A: ValueAlloc, I: Iterator<Item = String>>(
    alloc: A,
    iter: I,
) -> Result<A::Value, AllocError>
    requires can { I.can_next iter }
    requires ends { IsFinite (I.remaining iter) }
    ensures value { IfOk result (Collected joined_strings I.next_gives iter A.meaning) }
    ensures refused { OnErr result (Outgrown joined_strings I.next_gives iter) }
{
    SmolStr::from_strings(alloc, iter)
}

/// The borrowed `String`s of any iterator that ends.
pub fn of_any_string_refs<'a, A: ValueAlloc, I: Iterator<Item = &'a String>>(
    alloc: A,
    iter: I,
) -> Result<A::Value, AllocError>
    requires can { I.can_next iter }
    requires ends { IsFinite (I.remaining iter) }
    ensures value { IfOk result (Collected joined_string_refs I.next_gives iter A.meaning) }
    ensures refused { OnErr result (Outgrown joined_string_refs I.next_gives iter) }
{
    SmolStr::from_string_refs(alloc, iter)
}

/// A builder, and after its text the characters of any iterator that ends.
pub fn with_any_chars<I: Iterator<Item = char>>(
    builder: &mut SmolStrBuilder,
    iter: I,
) -> Result<(), AllocError>
    requires can { I.can_next iter }
    requires ends { IsFinite (I.remaining iter) }
    ensures value { OnOk result (AppendedAll (λ items. items) I.next_gives iter builder.old builder.new) }
    ensures refused { OnErr result (StoppedAt (λ items. items) I.next_gives iter builder.old builder.new) }
{
    builder.extend_chars(iter)
}

/// A builder, and after its text the `&str`s of any iterator that ends.
pub fn with_any_strs<'a, I: Iterator<Item = &'a str>>(
    builder: &mut SmolStrBuilder,
    iter: I,
) -> Result<(), AllocError>
    requires can { I.can_next iter }
    requires ends { IsFinite (I.remaining iter) }
    ensures value { OnOk result (AppendedAll joined_strs I.next_gives iter builder.old builder.new) }
    ensures refused { OnErr result (StoppedAt joined_strs I.next_gives iter builder.old builder.new) }
{
    builder.extend_strs(iter)
}

/// A builder, and after its text the borrowed `String`s of any iterator that ends.
pub fn with_any_strings<'a, I: Iterator<Item = &'a String>>(
    builder: &mut SmolStrBuilder,
    iter: I,
) -> Result<(), AllocError>
    requires can { I.can_next iter }
    requires ends { IsFinite (I.remaining iter) }
    ensures value { OnOk result (AppendedAll joined_string_refs I.next_gives iter builder.old builder.new) }
    ensures refused { OnErr result (StoppedAt joined_string_refs I.next_gives iter builder.old builder.new) }
{
    builder.extend_strings(iter)
}

/// A builder's calls, each kind of them.
#[tactic(auto, using(smol_str::proofs::CallerLemmas::builders))]
pub fn of_calls(alloc: Global, front: &str, last: char) -> Result<SmolStr, AllocError>
    ensures value { IfOk result (λ v. IsValueOf (chars front.now ++ (last ∷ [])) v) }
    ensures refused { OnErr result (¬ (IsShort (chars front.now ++ (last ∷ [])))) }
{
    let mut builder = SmolStrBuilder::new(alloc);
    builder.push_str(front)?;
    builder.push(last)?;
    Ok(builder.finish()?)
}

/// A builder, however it was filled.
pub fn of_builder(builder: SmolStrBuilder) -> Result<SmolStr, AllocError>
    ensures value { IfOk result (λ v. IsValueOf builder.text v) }
    ensures refused { OnErr result (¬ (IsResident builder.text)) }
{
    Ok(SmolStr::from_builder(builder)?)
}

/// A builder, however it was filled: the value keeps its memory, and a refusal drops it.
pub fn of_own_builder(builder: SmolStrBuilder) -> Result<SmolStr, AllocError>
    ensures value { IfOk result (λ v. IsValueOf builder.text v) }
    ensures refused { OnErr result (¬ (IsResident builder.text)) }
{
    builder.into_value()
}

/// Any list of a builder's calls, with any capacity.
pub fn of_steps(alloc: Global, capacity: usize, steps: &[Step]) -> Result<SmolStr, AllocError>
    ensures value { IfOk result (λ v. IsValueOf (joined step_text steps.now) v) }
    ensures refused { OnErr result ((INLINE_CAP < capacity) ⊎ (¬ (IsShort (joined step_text steps.now)))) }
{
    build(alloc, capacity, steps)
}

/// A text in lower case of ASCII.
pub fn in_lower_case(alloc: Global, text: &str) -> Result<SmolStr, AllocError>
    ensures value { IfOk result (λ v. IsValueOf (lower (chars text.now)) v) }
    ensures refused { OnErr result (¬ (IsShort (chars text.now))) }
{
    text.to_ascii_lowercase_smolstr(alloc)
}

/// A text in upper case of ASCII.
pub fn in_upper_case(alloc: Global, text: &str) -> Result<SmolStr, AllocError>
    ensures value { IfOk result (λ v. IsValueOf (upper (chars text.now)) v) }
    ensures refused { OnErr result (¬ (IsShort (chars text.now))) }
{
    text.to_ascii_uppercase_smolstr(alloc)
}

/// A text in lower case, as Unicode maps it.
pub fn in_full_lower_case(alloc: Global, text: &str) -> Result<SmolStr, AllocError>
    ensures value { IfOk result (λ v. IsValueOf (lowercased (chars text.now)) v) }
    ensures refused { OnErr result (¬ (IsShort (lowercased (chars text.now)))) }
{
    text.to_lowercase_smolstr(alloc)
}

/// A text in upper case, as Unicode maps it.
pub fn in_full_upper_case(alloc: Global, text: &str) -> Result<SmolStr, AllocError>
    ensures value { IfOk result (λ v. IsValueOf (uppercased (chars text.now)) v) }
    ensures refused { OnErr result (¬ (IsShort (uppercased (chars text.now)))) }
{
    text.to_uppercase_smolstr(alloc)
}

/// A text with another in place of each match.
pub fn with_replaced(alloc: Global, text: &str, from: &str, to: &str) -> Result<SmolStr, AllocError>
    ensures value { IfOk result (λ v.
        IsValueOf (replaced_all (chars text.now) (chars from.now) (chars to.now)) v) }
    ensures refused { OnErr result (¬ (IsShort (replaced_all (chars text.now) (chars from.now) (chars to.now)))) }
{
    text.replace_smolstr(alloc, from, to)
}

/// A text with another in place of the first so many matches.
pub fn with_some_replaced(
    alloc: Global,
    text: &str,
    from: &str,
    to: &str,
    count: usize,
) -> Result<SmolStr, AllocError>
    ensures value { IfOk result (λ v.
        IsValueOf (replaced (chars text.now) (chars from.now) (chars to.now) count) v) }
    ensures refused { OnErr result
        (¬ (IsShort (replaced (chars text.now) (chars from.now) (chars to.now) count))) }
{
    text.replacen_smolstr(alloc, from, to, count)
}

/// A clone, which means what the value means.
pub fn cloned(value: &SmolStr) -> Result<SmolStr, AllocError>
    ensures value { IfOk result (λ copy. copy ≡ value.now) }
    ensures refused { OnErr result (¬ (IsResident value.now.text)) }
{
    value.clone()
}

/// The place of any value at all.
pub fn lies(value: &SmolStr) -> Place
    ensures { (result ≡ place_of value.now.text) ⊎ (result ≡ Place.Static) }
{
    value.place()
}

/// Any two values: whether they are equal, and their order.
pub fn compared(left: &SmolStr, right: &SmolStr) -> (bool, Ordering)
    ensures equal { IsTrue result.0 ↔ (left.now.text ≡ right.now.text) }
    ensures order { result.1 ≡ slice_cmp nat_cmp left.now.text right.now.text }
{
    (left == right, left.cmp(right))
}

/// Two values of one text, neither of them pinned, lie in one place.
pub fn lie_alike(left: &SmolStr, right: &SmolStr) -> bool
    requires one_text { left.now.text ≡ right.now.text }
    requires left_by_text { left.now.place ≡ place_of left.now.text }
    requires right_by_text { right.now.place ≡ place_of right.now.text }
    ensures { IsTrue result }
{
    left.place() == right.place()
}

/// Two values of one text, pinned or not, hash alike.
pub fn hash_alike<H: Hasher>(left: &SmolStr, right: &SmolStr, state: &mut H, right_state: &mut H)
    requires one_text { left.now.text ≡ right.now.text }
    requires one_state { state.now ≡ right_state.now }
    ensures { state.new ≡ right_state.new }
{
    left.hash(state);
    right.hash(right_state);
}

/// A value feeds a hasher what its text feeds it as a `str`.
#[tactic(auto, using(smol_str::proofs::CallerLemmas::texts))]
pub fn hashes_as_text<H: Hasher>(value: &SmolStr, text: &str, state: &mut H, text_state: &mut H)
    requires one_text { value.now.text ≡ chars text.now }
    requires one_state { state.now ≡ text_state.now }
    ensures { state.new ≡ text_state.new }
{
    value.hash(state);
    text.hash(text_state);
}
