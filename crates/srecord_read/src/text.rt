// The lines of a text, one after the other.
ghost use Rattle.std.specs.Prelude.{◌≡◌, ◌==◌, MatchOption, position};
ghost use Rattle.srecord.specs.Records.{lf};
ghost use Rattle.srecord.specs.Reading.{bare};
ghost use Rattle.srecord_read.specs.LineEndLaws.{NoLf};
ghost use Rattle.srecord_read.specs.Texts.{Splits, clear_from};

fn line_end(text: &[u8]) -> Option<usize>
    ensures { result ≡ position (λ b. b == lf) text.now }
{
    text.iter().position(|b| *b == b'\n')
}

// The first line, without its LF, and the text behind it; none where no LF stands in a text. Loops go on with that text and are no
// `for`, since an end asks for what is behind it.
pub(crate) fn next_line(text: &[u8]) -> Option<(&[u8], &[u8])>
    ensures { MatchOption result (NoLf text.now) (λ p. Splits text.now p.0.now p.1.now) }
{
    let end = line_end(text)?;
    Some((&text[..end], &text[end + 1..]))
}

// A line without a CR at its end.
pub(crate) fn bare(line: &[u8]) -> &[u8]
    ensures { result.now ≡ bare line.now }
{
    match line {
        [front @ .., b'\r'] => front,
        _ => line,
    }
}

// Whether nothing but empty lines stands in a text, each with its LF.
pub(crate) fn clear(text: &[u8]) -> bool
    ensures { result ≡ clear_from text.now }
{
    let mut rest = text;
    while let Some((line, after)) = next_line(rest) {
        if !bare(line).is_empty() {
            return false;
        }
        rest = after;
    }
    rest.is_empty()
}
