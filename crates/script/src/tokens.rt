// The lines of a text, and the words of a line.
ghost use Rattle.std.specs.Prelude.{◌≡◌, ◌<◌, ◌≤◌, ℕ, Bool, [], ◌∷◌, length, MatchOption};
ghost use Rattle.script.specs.Tokens.{blank, SplitsWhere, lines_of, words_in, words_of};

fn is_blank(byte: u8) -> bool
    ensures { result ≡ blank byte }
{
    matches!(byte, b' ' | b'\t' | b'\r')
}

// The bytes in front of the first that stops, and those from it on.
fn split_where<F: Fn(u8) -> bool>(bytes: &[u8], stops: F) -> (&[u8], &[u8])
    requires { F.IsAlwaysCallable stops }
    ensures { (stop : ℕ → Bool) → ((b : ℕ) (r : Bool) → F.post stops b r → r ≡ stop b) → SplitsWhere stop bytes.now result.0.now result.1.now }
{
    let front = bytes.iter().position(|byte| stops(*byte));
    bytes.split_at(front.unwrap_or(bytes.len()))
}

// The first line of a text and what stands behind it, unless the text is empty.
pub(crate) fn split_line(text: &[u8]) -> Option<(&[u8], &[u8])>
    ensures line { MatchOption result (lines_of text.now ≡ []) (λ x. lines_of text.now ≡ x.0.now ∷ lines_of x.1.now) }
    ensures shorter { MatchOption result (length text.now ≡ 0) (λ x. length x.1.now < length text.now) }
{
    if text.is_empty() {
        return None;
    }
    let (line, rest) = split_where(text, |byte| byte == b'\n');
    match rest {
        [_, behind @ ..] => Some((line, behind)),
        [] => Some((line, rest)),
    }
}

// What a line says: no comment, and no blanks in front.
pub(crate) fn said(line: &[u8]) -> &[u8]
    ensures words { words_in result.now ≡ words_of line.now }
    ensures some { 0 < length result.now → 0 < length (words_of line.now) }
{
    let (code, _) = split_where(line, |byte| byte == b'#');
    let (_, code) = split_where(code, |byte| !is_blank(byte));
    code
}

// The first word of some bytes and what stands behind it, if there is one.
pub(crate) fn split_word(bytes: &[u8]) -> Option<(&[u8], &[u8])>
    ensures word { MatchOption result (words_in bytes.now ≡ []) (λ x. words_in bytes.now ≡ x.0.now ∷ words_in x.1.now) }
    ensures shorter { MatchOption result (0 ≤ length bytes.now) (λ x. length x.1.now < length bytes.now) }
{
    let (_, bytes) = split_where(bytes, |byte| !is_blank(byte));
    if bytes.is_empty() {
        return None;
    }
    Some(split_where(bytes, |byte| is_blank(byte)))
}
