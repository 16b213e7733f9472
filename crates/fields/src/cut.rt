// Cutting a text at a byte, by slice patterns, as in `numbers`.
ghost use Rattle.std.specs.Prelude.{◌≡◌, ◌<◌, length, IfSome};
ghost use Rattle.std.specs.Option.{option_map};
ghost use Rattle.fields.specs.Lines.{cut as halves-at};

/// The text before the first `mark` and the text after it; none where there is no `mark`.
pub fn cut(text: &[u8], mark: u8) -> Option<(&[u8], &[u8])>
    ensures halves { option_map (λ h. (h.0.now, h.1.now)) result ≡ halves-at mark text.now }
    ensures shorter { IfSome result (λ h. length h.1.now < length text.now) }
{
    let mut left = text;
    while let [first, rest @ ..] = left {
        if *first == mark {
            return Some((&text[..text.len() - left.len()], rest));
        }
        left = rest;
    }
    None
}
