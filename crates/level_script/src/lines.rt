//! Cutting an input into lines, and a line into words.
ghost use Rattle.std.specs.Prelude.{◌≡◌, ◌==◌, ◌+◌, ◌∷◌, [], ◌<◌, ◌≤◌, length, take, drop, not, MatchOption, IfSome, position};
ghost use Rattle.std.specs.List.{position_or_len};
ghost use Rattle.std.specs.Str.{IsAscii};
ghost use Rattle.level_script.specs.Lines.{input_lines, line_words, without_return, is_blank, BeginsWord, is_none};

/// The line without a carriage return at its end.
fn without_return(line: &[u8]) -> &[u8]
    ensures { result.now ≡ without_return line.now }
{
    let count = line.len();
    if count > 0 && line[count - 1] == b'\r' {
        &line[..count - 1]
    } else {
        line
    }
}

/// What stands before a place, and what stands after it.
fn cut_at<'a>(bytes: &'a [u8], at: usize) -> (&'a [u8], &'a [u8])
    requires { at < length bytes.now }
    ensures front { result.0.now ≡ take at bytes.now }
    ensures back { result.1.now ≡ drop (at + 1) bytes.now }
{
    let (front, _) = bytes.split_at(at);
    let (_, back) = bytes.split_at(at + 1);
    (front, back)
}

/// What stands behind all.
fn after_all<'a>(bytes: &'a [u8]) -> &'a [u8]
    ensures { result.now ≡ [] }
{
    let (_, rest) = bytes.split_at(bytes.len());
    rest
}

/// Where the first line feed is.
fn feed_at(bytes: &[u8]) -> Option<usize>
    ensures { result ≡ position (λ b. b == 10) bytes.now }
{
    bytes.iter().position(|b| *b == b'\n')
}

/// The first line, and the bytes after it.
pub fn first_line<'a>(bytes: &'a [u8]) -> Option<(&'a [u8], &'a [u8])>
    ensures lines { MatchOption result (input_lines bytes.now ≡ []) (λ r. input_lines bytes.now ≡ r.0.now ∷ input_lines r.1.now) }
    ensures rest { MatchOption result (bytes.now ≡ []) (λ r. length r.1.now < length bytes.now) }
    ensures ascii { IfSome result (λ r. IsAscii bytes.now → IsAscii r.0.now × IsAscii r.1.now) }
{
    if bytes.is_empty() {
        return None;
    }
    match feed_at(bytes) {
        Some(end) => {
            let (line, rest) = cut_at(bytes, end);
            Some((without_return(line), rest))
        }
        None => Some((without_return(bytes), after_all(bytes))),
    }
}

/// Whether a byte is a space or a tab.
fn is_blank(byte: u8) -> bool
    ensures { result ≡ is_blank byte }
{
    byte == b' ' || byte == b'\t'
}

/// Where the first blank is.
fn blank_at(bytes: &[u8]) -> Option<usize>
    ensures { result ≡ position is_blank bytes.now }
{
    bytes.iter().position(|b| is_blank(*b))
}

/// Where the first byte that is no blank is.
fn start_at(bytes: &[u8]) -> Option<usize>
    ensures { result ≡ position (λ b. not (is_blank b)) bytes.now }
{
    bytes.iter().position(|b| !is_blank(*b))
}

/// How many blanks are in front.
fn blanks(bytes: &[u8]) -> usize
    ensures count { result ≡ position_or_len (λ b. not (is_blank b)) bytes.now }
    ensures bound { result ≤ length bytes.now }
{
    match start_at(bytes) {
        Some(start) => start,
        None => bytes.len(),
    }
}

/// The bytes from the first that is no blank.
fn skip_blanks(bytes: &[u8]) -> &[u8]
    ensures words { line_words result.now ≡ line_words bytes.now }
    ensures begins { BeginsWord result.now }
{
    let (_, rest) = bytes.split_at(blanks(bytes));
    rest
}

/// The first word, and the bytes after it.
pub fn first_word<'a>(line: &'a [u8]) -> Option<(&'a [u8], &'a [u8])>
    ensures { MatchOption result (line_words line.now ≡ []) (λ r. line_words line.now ≡ r.0.now ∷ line_words r.1.now) }
{
    let bytes = skip_blanks(line);
    if bytes.is_empty() {
        return None;
    }
    match blank_at(bytes) {
        Some(end) => Some(cut_at(bytes, end)),
        None => Some((bytes, after_all(bytes))),
    }
}

/// Whether no word is left.
pub fn is_over(line: &[u8]) -> bool
    ensures { result ≡ is_none (line_words line.now) }
{
    first_word(line).is_none()
}
