//! Standard input, cut into the four texts.

ghost use Rattle.std.specs.Prelude.{◌≡◌, ◌++◌, ◌<◌, [], ◌∷◌, IfSome, IfNone, length};
ghost use Rattle.deb_text.specs.Cuts.{before, after};
ghost use Rattle.plan_reader.specs.Input.{whole_lines, text_of_lines, is_divider, input_texts};
ghost use Rattle.plan_reader.specs.TextsView.{texts_view};

use memchr::memchr;

/// The four texts that a verdict is about.
#[derive(Clone, Copy)]
pub struct Texts<'a> {
    pub packages: &'a [u8],
    pub sources: &'a [u8],
    pub farm: &'a [u8],
    pub plan: &'a [u8],
}

/// The first line of a text with its newline, and the text behind it.
fn next_line(text: &[u8]) -> Option<(&[u8], &[u8])>
    ensures none { IfNone result (text.now ≡ []) }
    ensures line { IfSome result (λ cut. whole_lines text.now ≡ cut.0.now ∷ whole_lines cut.1.now) }
    ensures both { IfSome result (λ cut. text.now ≡ cut.0.now ++ cut.1.now) }
    ensures shorter { IfSome result (λ cut. length cut.1.now < length text.now) }
{
    if text.is_empty() {
        return None;
    }
    match memchr(b'\n', text) {
        Some(end) => Some(text.split_at(end + 1)),
        None => Some((text, &text[text.len()..])),
    }
}

fn is_divider(line: &[u8]) -> bool
    ensures { result ≡ is_divider line.now }
{
    line == b"%%\n".as_slice() || line == b"%%".as_slice()
}

/// The text before the first line that divides, and what stands behind that line.
fn cut_text(input: &[u8]) -> (&[u8], &[u8])
    ensures text { result.0.now ≡ text_of_lines (before is_divider (whole_lines input.now)) }
    ensures rest { whole_lines result.1.now ≡ after is_divider (whole_lines input.now) }
{
    let mut rest = input;
    while let Some((line, behind)) = next_line(rest) {
        if is_divider(line) {
            return (&input[..input.len() - rest.len()], behind);
        }
        rest = behind;
    }
    (input, rest)
}

/// Cuts the input at the first three lines that are exactly `%%`. A text that is missing is empty.
pub fn texts_of(input: &[u8]) -> Texts
    ensures { texts_view result ≡ input_texts input.now }
{
    let (packages, rest) = cut_text(input);
    let (sources, rest) = cut_text(rest);
    let (farm, plan) = cut_text(rest);
    Texts {
        packages,
        sources,
        farm,
        plan,
    }
}
