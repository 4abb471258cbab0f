//! The words of a line.

ghost use Rattle.std.specs.Prelude.{◌≡◌, ◌≢◌, [], ◌∷◌, IfSome, IfNone};
ghost use Rattle.texts.specs.Words.{Text, words_of};

/// The first word of a line and what follows its space; nothing where the line is one word.
pub fn first_word(line: &str) -> Option<(&str, &str)>
    ensures some { IfSome result (λ w. words_of line.now ≡ w.0.now ∷ words_of w.1.now) }
    ensures none { IfNone result (words_of line.now ≡ line.now ∷ []) }
{
    line.split_once(' ')
}

/// The words of a line of two.
pub fn two_words(line: &str) -> Option<(&str, &str)>
    ensures some { IfSome result (λ w. words_of line.now ≡ w.0.now ∷ w.1.now ∷ []) }
    ensures none { IfNone result ((a b : Text) → words_of line.now ≢ a ∷ b ∷ []) }
{
    let (first, rest) = first_word(line)?;
    match first_word(rest) {
        Some(_) => None,
        None => Some((first, rest)),
    }
}

/// The words of a line of three.
pub fn three_words(line: &str) -> Option<(&str, &str, &str)>
    ensures some { IfSome result (λ w. words_of line.now ≡ w.0.now ∷ w.1.now ∷ w.2.now ∷ []) }
    ensures none { IfNone result ((a b c : Text) → words_of line.now ≢ a ∷ b ∷ c ∷ []) }
{
    let (first, rest) = first_word(line)?;
    let (second, third) = two_words(rest)?;
    Some((first, second, third))
}

/// The words of a line of four.
pub fn four_words(line: &str) -> Option<(&str, &str, &str, &str)>
    ensures some { IfSome result (λ w. words_of line.now
        ≡ w.0.now ∷ w.1.now ∷ w.2.now ∷ w.3.now ∷ []) }
    ensures none { IfNone result ((a b c d : Text) → words_of line.now ≢ a ∷ b ∷ c ∷ d ∷ []) }
{
    let (first, rest) = first_word(line)?;
    let (second, third, fourth) = three_words(rest)?;
    Some((first, second, third, fourth))
}
