// A line's value, by its key.
ghost use Rattle.std.specs.Prelude.{◌≡◌};
ghost use Rattle.std.specs.Option.{option_map};
ghost use Rattle.fields.specs.Lines.{line_with};

use crate::cut::cut;

/// The value of the first line, which begins with `key`, and the text after the line; none where the text has no whole
/// line or the line begins otherwise.
pub fn line<'a>(text: &'a [u8], key: &[u8]) -> Option<(&'a [u8], &'a [u8])>
    ensures { option_map (λ h. (h.0.now, h.1.now)) result ≡ line_with key.now text.now }
{
    let (line, rest) = cut(text, b'\n')?;
    let value = line.strip_prefix(key)?;
    Some((value, rest))
}
