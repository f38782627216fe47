//! Whether short texts are the same, and whether one begins with another. They are compared byte by byte: a search by groups of bytes costs more
//! than most words are long.

ghost use Rattle.std.specs.List.{starts_with};
ghost use Rattle.std.specs.Prelude.{bytes_eq, nat_eq, ◌≡◌};

/// Whether two texts have the same bytes. It compares lengths first, then byte by byte.
#[tactic(auto, using(crate::proofs::SameTexts::other_length))]
pub fn is_same(a: &[u8], b: &[u8]) -> bool
    ensures { result ≡ bytes_eq a.now b.now }
{
    if a.len() != b.len() {
        return false;
    }
    for index in 0..a.len() {
        if a[index] != b[index] {
            return false;
        }
    }
    true
}

/// Whether a text begins with this front.
#[tactic(auto, using(crate::proofs::SameTexts::shorter))]
pub fn begins_with(text: &[u8], front: &[u8]) -> bool
    ensures { result ≡ starts_with nat_eq text.now front.now }
{
    if text.len() < front.len() {
        return false;
    }
    is_same(front, text.split_at(front.len()).0)
}
