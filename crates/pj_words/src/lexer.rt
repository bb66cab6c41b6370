// What a word is: an operand, an option, a number.
ghost use Rattle.std.specs.Prelude.{◌≡◌, option_map};
ghost use Rattle.clap.specs.Lexer.{long_of, name_and_value, strip_byte};
ghost use Rattle.std.specs.List.{list_all};
ghost use Rattle.pj_words.specs.Form.{is_digit, is_number, is_operand};
ghost use Rattle.pj_words.specs.Reader.{begins_dash};

/// Whether the word begins with `-`.
pub(crate) fn begins_dash(word: &str) -> bool
    ensures { result ≡ begins_dash word.now }
{
    match word.as_bytes().first() {
        Some(first) => *first == b'-',
        None => false,
    }
}

/// Whether the word is not empty and does not begin with `-`.
pub(crate) fn is_operand(word: &str) -> bool
    ensures { result ≡ is_operand word.now }
{
    match word.as_bytes().first() {
        Some(first) => *first != b'-',
        None => false,
    }
}

fn without_dash(word: &str) -> Option<&str>
    ensures { option_map (λ s. s.now) result ≡ strip_byte 45 word.now }
{
    word.strip_prefix('-')
}

fn split_value(text: &str) -> (&str, Option<&str>)
    ensures { (result.0.now, option_map (λ s. s.now) result.1) ≡ name_and_value text.now }
{
    match text.split_once('=') {
        Some((name, value)) => (name, Some(value)),
        None => (text, None),
    }
}

/// `--name` or `--name=value`, as the name and the value.
pub(crate) fn option_in(word: &str) -> Option<(&str, Option<&str>)>
    ensures { option_map (λ p. (p.0.now, option_map (λ s. s.now) p.1)) result ≡ long_of word.now }
{
    let rest = without_dash(without_dash(word)?)?;
    if rest.is_empty() {
        return None;
    }
    Some(split_value(rest))
}

fn are_digits(bytes: &[u8]) -> bool
    ensures { result ≡ list_all is_digit bytes.now }
{
    for byte in bytes {
        if *byte < b'0' || *byte > b'9' {
            return false;
        }
    }
    true
}

/// Whether the text is 1 to 20 digits, and its number lies in the range.
pub(crate) fn is_number(text: &str, least: u64, most: u64) -> bool
    ensures { result ≡ is_number least most text.now }
{
    let bytes = text.as_bytes();
    if bytes.len() < 1 || bytes.len() > 20 || !are_digits(bytes) {
        return false;
    }
    match text.parse::<u64>() {
        Ok(number) => least <= number && number <= most,
        Err(_) => false,
    }
}
