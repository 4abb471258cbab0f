//! The lines of a text.

ghost use Rattle.std.specs.Prelude.{◌≡◌, ◌<◌, [], ◌∷◌, IfSome, IfNone, length, position};
ghost use Rattle.texts.specs.Lines.{is_line_feed, lines_of};

/// The first line of a text, without the line feed that ends it, and what follows; nothing where the
/// text is empty. A last line need not end with a line feed.
pub fn next_line(text: &str) -> Option<(&str, &str)>
    ensures some { IfSome result (λ w. lines_of text.now ≡ w.0.now ∷ lines_of w.1.now) }
    ensures shorter { IfSome result (λ w. length w.1.now < length text.now) }
    ensures none { IfNone result (lines_of text.now ≡ []) }
{
    if text.is_empty() {
        return None;
    }
    match text.split_once('\n') {
        Some(cut) => Some(cut),
        None => Some((text, "")),
    }
}

/// `next_line` of a text of any bytes.
pub fn next_line_of_bytes(text: &[u8]) -> Option<(&[u8], &[u8])>
    ensures some { IfSome result (λ w. lines_of text.now ≡ w.0.now ∷ lines_of w.1.now) }
    ensures shorter { IfSome result (λ w. length w.1.now < length text.now) }
    ensures none { IfNone result (lines_of text.now ≡ []) }
{
    if text.is_empty() {
        return None;
    }
    match first_line_feed(text) {
        Some(end) => Some((&text[..end], &text[end + 1..])),
        None => Some((text, &text[text.len()..])),
    }
}

// Where the first line feed stands.
fn first_line_feed(text: &[u8]) -> Option<usize>
    ensures value { result ≡ position is_line_feed text.now }
    ensures within { IfSome result (λ end. end < length text.now) }
{
    text.iter().position(|byte| *byte == b'\n')
}
