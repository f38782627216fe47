//! Laws of texts: what is written is read as itself, and each value has one text.

ghost use Rattle.std.specs.List.{join_with_byte, list_all};
ghost use Rattle.std.specs.Option.{ok_or};
ghost use Rattle.std.specs.Prelude.{decimal, drop, length, true, List, ℕ, ◌*◌, ◌^◌, ◌<◌, ◌≡◌, ◌≤◌};
ghost use Rattle.sl_text.specs.Forms as forms;
ghost use Rattle.sl_text.specs.Numbers as numbers;
ghost use Rattle.sl_text.specs.Walks.{past_words, read_by, unread};

/// A number below 2^64 is written as a number's text, which is read as that number, and has no other text.
#[tactic(auto, using(crate::proofs::NumberLaws::texts))]
pub fn numbers_have_one_text()
    ensures text { (n : ℕ) → n < 2 ^ 64 → numbers.is_number_text (decimal n) ≡ true }
    ensures read { (n : ℕ) → n < 2 ^ 64 → numbers.number_of (decimal n) ≡ n }
    ensures one { (w : List ℕ) → numbers.is_number_text w ≡ true → numbers.number_of w < 2 ^ 64 → decimal (numbers.number_of w) ≡ w }
{}

/// Bytes are written as a hex word, which is read as those bytes, and have no other hex word.
#[tactic(auto, using(crate::proofs::HexLaws::texts))]
pub fn bytes_have_one_hex_word()
    ensures word { (low high : ℕ) (bytes : List ℕ) → numbers.IsBytes bytes → low ≤ 2 * length bytes → 2 * length bytes ≤ high
        → numbers.is_hex_word low high (numbers.hex_text bytes) ≡ true }
    ensures read { (bytes : List ℕ) → numbers.IsBytes bytes → numbers.hex_bytes (numbers.hex_text bytes) ≡ bytes }
    ensures one { (low high : ℕ) (w : List ℕ) → numbers.is_hex_word low high w ≡ true → numbers.hex_text (numbers.hex_bytes w) ≡ w }
{}

/// A text that is cut at each separator and joined again is the text; pieces without the separator that are joined are cut
/// into themselves. At spaces this is so of the words of a line, at colons of the parts of a word.
#[tactic(auto, using(crate::proofs::PieceLaws::cuts_and_joins))]
pub fn pieces_are_cut_as_they_are_joined()
    ensures joined { (c : ℕ) (text : List ℕ) → join_with_byte c (forms.pieces c text) ≡ text }
    ensures cut { (c : ℕ) (ws : List (List ℕ)) → list_all (forms.is_free_of c) ws ≡ true → 0 < length ws → forms.pieces c (join_with_byte c ws) ≡ ws }
    ensures free { (c : ℕ) (text : List ℕ) → list_all (forms.is_free_of c) (forms.pieces c text) ≡ true }
{}

/// Lines without line feeds that are written one after another are read as themselves.
#[tactic(auto, using(crate::proofs::LineLaws::written_lines))]
pub fn lines_are_read_as_written()
    ensures { (ls : List (List ℕ)) → list_all (forms.is_free_of 10) ls ≡ true → forms.lines_of (forms.as_bytes ls) ≡ ls }
{}

/// Forms that are followed word by word from the left make what they make of the whole line; where they fail, it is at the
/// column of the first word that no form takes behind the words before it.
#[tactic(auto, using(crate::proofs::FormLaws::whole_lines))]
pub fn forms_are_followed_from_the_left<A>()
    ensures { (fs : List (forms.Form A)) (line : List ℕ) → read_by fs (unread 32 line) ≡ ok_or (forms.made_by fs (forms.words_of line)) (forms.bad_column fs (forms.words_of line)) }
{}

/// A reader comes word by word to each word's column, and behind the last word to one past the end.
#[tactic(auto, using(crate::proofs::FormLaws::places_of_readers))]
pub fn readers_know_their_column()
    ensures { (k : ℕ) (line : List ℕ) → k ≤ length (forms.words_of line)
        → past_words k (unread 32 line) ≡ record { column = forms.column_of (forms.words_of line) k; words = drop k (forms.words_of line) } }
{}
