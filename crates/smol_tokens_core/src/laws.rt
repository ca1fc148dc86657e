//! What the definitions in `specs/` mean: laws over every text and every list of pairs, each the
//! contract of a function that does nothing.
ghost use Rattle.std.specs.Prelude.{◌≡◌, ◌≢◌, ◌⊎◌, ◌↔◌, ◌+◌, ◌<◌, ◌^◌, ℕ, List, [], ◌∷◌, ◌++◌, All, AllPairs, unwrap_or, count_by, bytes_eq};
ghost use Rattle.std.specs.List.{flat_map, onto_first, slice_split};
ghost use Rattle.std.specs.Map.{lookup};
ghost use Rattle.indexmap.specs.IndexMap.{insert_entry};
ghost use Rattle.smol_str.specs.Cut.{IsCut, joined_by};
ghost use Rattle.smol_str.specs.Replace.{no_limit};
ghost use Rattle.smol_tokens_core.specs.Counts.{count_line, IsCounts, IsMerge, IsFirstOther, IsWhole, HasATokenTooOften};
ghost use Rattle.smol_tokens_core.specs.Lines.{is_newline, newline, lines, without_empty_last, HasNoNewline, ended};
ghost use Rattle.smol_tokens_core.specs.Report.{tokens_report};
ghost use Rattle.smol_tokens_core.specs.ReportFaults.{HasALineTooOften};
ghost use Rattle.smol_tokens_core.specs.Tally.{tokens, times_of, tally, seen_once};

/// The lines of a text are the pieces between newlines that std's `split` of a slice gives, without
/// a last piece that is empty.
pub fn lines_are_pieces()
    ensures { (t : List ℕ) → lines t ≡ without_empty_last (slice_split is_newline t) }
{}

/// The lines of a text are the pieces of its unlimited cut at the newline, without a last piece that
/// is empty. They hold no newline, and joined or written again they give the text.
///
/// The last law needs its premises: a newline in one of the lines would end that line.
pub fn lines_of_a_text()
    ensures pieces { (t : List ℕ) (pieces : List (List ℕ)) →
        IsCut t newline (no_limit t) pieces → lines t ≡ without_empty_last pieces }
    ensures joined { (t : List ℕ) →
        (joined_by newline (lines t) ≡ t) ⊎ (joined_by newline (lines t) ++ newline ≡ t) }
    ensures no_newline { (t : List ℕ) → All HasNoNewline (lines t) }
    ensures read_back { (whole : List (List ℕ)) (last : List ℕ) →
        All HasNoNewline whole → HasNoNewline last →
        lines (ended whole ++ last) ≡ whole ++ without_empty_last (last ∷ []) }
{}

/// The lines of a text from its left, character by character.
pub fn lines_from_left()
    ensures empty { lines [] ≡ [] }
    ensures newline_ends_a_line { (t : List ℕ) → lines (newline ++ t) ≡ [] ∷ lines t }
    ensures other_character { (c : ℕ) (t : List ℕ) →
        HasNoNewline (c ∷ []) → lines (c ∷ t) ≡ onto_first c (lines t) }
{}

/// A tally counts each token once, in order of first sight, and can be taken up again. A text that was
/// seen once each time has as many times as it occurs in the list.
pub fn tallies()
    ensures taken_up_again { (pairs more : List (List ℕ × ℕ)) →
        tally (tally pairs ++ more) ≡ tally (pairs ++ more) }
    ensures counts { (pairs : List (List ℕ × ℕ)) →
        All (λ entry. entry.1 ≡ times_of entry.0 pairs) (tally pairs) }
    ensures sums { (t : List ℕ) (pairs : List (List ℕ × ℕ)) →
        times_of t (tally pairs) ≡ times_of t pairs }
    ensures once { (pairs : List (List ℕ × ℕ)) → AllPairs (λ s t. s ≢ t) (tokens (tally pairs)) }
    ensures of_texts { (t : List ℕ) (texts : List (List ℕ)) →
        times_of t (seen_once texts) ≡ count_by (bytes_eq t) texts }
    ensures old_tokens_first { (pairs more : List (List ℕ × ℕ)) →
        (new : List (List ℕ)) × (tokens (tally (pairs ++ more)) ≡ tokens (tally pairs) ++ new) }
{}

/// Adding one pair to a tally is one look-up and one insert of a map in insertion order.
///
/// Only a list without repeats is a tally: that of two pairs of one token has one entry.
pub fn tally_by_steps()
    ensures added { (pairs : List (List ℕ × ℕ)) (t : List ℕ) (times : ℕ) →
        tally (pairs ++ (t, times) ∷ []) ≡ insert_entry bytes_eq (tally pairs) t (times_of t pairs + times) }
    ensures found { (pairs : List (List ℕ × ℕ)) (t : List ℕ) →
        unwrap_or (lookup (bytes_eq t) (tally pairs)) 0 ≡ times_of t pairs }
    ensures without_repeats { (pairs : List (List ℕ × ℕ)) →
        AllPairs (λ s t. s ≢ t) (tokens pairs) → tally pairs ≡ pairs }
{}

/// A text has a line too often exactly where not all counts of its lines are `u64`s.
pub fn lines_too_often()
    ensures { (t : List ℕ) →
        All (λ entry. entry.1 < 2 ^ 64) (tally (seen_once (lines t))) ↔ ¬ HasALineTooOften t }
{}

/// A text is the count lines of one list of pairs at most, and has one merge at most; it has none if one of its lines is
/// not a count line. At most one line is the first that is none.
pub fn counts_read_back()
    ensures once { (t : List ℕ) (pairs others : List (List ℕ × ℕ)) →
        IsCounts t pairs → IsCounts t others → pairs ≡ others }
    ensures merge { (t out other : List ℕ) → IsMerge t out → IsMerge t other → out ≡ other }
    ensures other { (t : List ℕ) (n : ℕ) (pairs : List (List ℕ × ℕ)) → IsFirstOther t n → ¬ IsCounts t pairs }
    ensures line { (t : List ℕ) (m n : ℕ) → IsFirstOther t m → IsFirstOther t n → m ≡ n }
{}

/// A text that is cut at line ends can be counted in parts: the merge of their reports is the report on the whole text.
///
/// Cut inside a line it cannot: the two halves count as two lines.
pub fn counted_by_parts()
    ensures lines { (a b : List ℕ) → IsWhole a → lines (a ++ b) ≡ lines a ++ lines b }
    ensures tally { (a b : List ℕ) → IsWhole a →
        tally (seen_once (lines (a ++ b))) ≡ tally (tally (seen_once (lines a)) ++ tally (seen_once (lines b))) }
    ensures read { (t : List ℕ) → ¬ HasALineTooOften t → IsCounts (tokens_report t) (tally (seen_once (lines t))) }
    ensures report { (a b : List ℕ) → IsWhole a → ¬ HasALineTooOften (a ++ b) →
        IsMerge (tokens_report a ++ tokens_report b) (tokens_report (a ++ b)) }
    ensures full { (a b : List ℕ) → IsWhole a →
        HasATokenTooOften (tally (seen_once (lines a)) ++ tally (seen_once (lines b))) ↔ HasALineTooOften (a ++ b) }
{}

/// Merges can be merged: the merge of two merges is that of all their count lines.
pub fn merged_again()
    ensures behind { (a b : List ℕ) (pairs more : List (List ℕ × ℕ)) →
        IsCounts a pairs → IsCounts b more → IsCounts (a ++ b) (pairs ++ more) }
    ensures tally { (pairs more : List (List ℕ × ℕ)) → tally (tally pairs ++ tally more) ≡ tally (pairs ++ more) }
    ensures read { (t : List ℕ) (pairs : List (List ℕ × ℕ)) → IsCounts t pairs → ¬ HasATokenTooOften pairs →
        IsMerge t (flat_map count_line (tally pairs)) }
    ensures again { (a b x y out : List ℕ) → IsMerge a x → IsMerge b y → IsMerge (x ++ y) out ↔ IsMerge (a ++ b) out }
{}
