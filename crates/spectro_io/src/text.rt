ghost use Rattle.std.specs.Prelude.{◌≡◌, ◌↔◌, [], true, position, reverse};
ghost use Rattle.std.specs.List.{list_all};
ghost use Rattle.spectro_io.specs.Blanks.{is_blank, skip_blanks, trimmed};
ghost use Rattle.spectro_io.specs.Numbers.{number_of};
ghost use Rattle.spectro_io.specs.Tokens.{first_token, after_token};

fn is_blank(byte: u8) -> bool
    ensures { result ≡ is_blank byte }
{
    byte == b' ' || byte == b'\t'
}

/// The value of the digits, however many there are, or the greatest `u64` where it is greater.
/// `None` exactly where the bytes are not one or more ASCII digits.
pub fn number(bytes: &[u8]) -> Option<u64>
    ensures { result ≡ number_of bytes.now }
{
    if bytes.is_empty() {
        return None;
    }
    let mut value = 0u64;
    for byte in bytes {
        if !byte.is_ascii_digit() {
            return None;
        }
        value = value
            .saturating_mul(10)
            .saturating_add(u64::from(*byte - b'0'));
    }
    Some(value)
}

/// The bytes from the first that is no space and no tab.
pub fn trim_start(bytes: &[u8]) -> &[u8]
    ensures { result.now ≡ skip_blanks bytes.now }
{
    let mut rest = bytes;
    while let [first, others @ ..] = rest {
        if !is_blank(*first) {
            break;
        }
        rest = others;
    }
    rest
}

fn trim_end(bytes: &[u8]) -> &[u8]
    ensures { result.now ≡ reverse (skip_blanks (reverse bytes.now)) }
{
    let mut front = bytes;
    while let [others @ .., last] = front {
        if !is_blank(*last) {
            break;
        }
        front = others;
    }
    front
}

/// The bytes without the spaces and tabs at both ends.
pub fn trim(bytes: &[u8]) -> &[u8]
    ensures { result.now ≡ trimmed bytes.now }
{
    trim_end(trim_start(bytes))
}

fn first_blank(bytes: &[u8]) -> Option<usize>
    ensures { result ≡ position is_blank bytes.now }
{
    bytes.iter().position(|byte| is_blank(*byte))
}

/// The first token of the line, and what stands behind it, from the blank on that ends it.
pub fn token_at(line: &[u8]) -> (&[u8], &[u8])
    ensures token { result.0.now ≡ first_token line.now }
    ensures rest { result.1.now ≡ after_token line.now }
    ensures none { result.0.now ≡ [] ↔ list_all is_blank line.now ≡ true }
{
    let text = trim_start(line);
    text.split_at(first_blank(text).unwrap_or(text.len()))
}
