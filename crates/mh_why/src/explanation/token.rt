//! How long a token is, as far as an author is shown it.
ghost use Rattle.std.specs.Prelude.{◌≡◌, ◌≤◌, ◌∷◌, length};
ghost use Rattle.std.specs.List.{prefix_len};
ghost use Rattle.mh_why.specs.Sources.{is_blank, is_bracket, is_in_token, is_no, is_quote, token_size};

/// How many bytes the token has that these begin with: a string up to its end, and else all up to white space, a bracket
/// or a string.
pub fn token_size(bytes: &[u8]) -> usize
    ensures { result ≡ token_size bytes.now }
{
    match bytes {
        [] => 1,
        [first, rest @ ..] => size_behind(*first, rest),
    }
}

fn size_behind(first: u8, rest: &[u8]) -> usize
    ensures { result ≡ token_size (first ∷ rest.now) }
{
    if is_quote(first) {
        return string_length(first, rest) + 2;
    }
    if is_bracket(first) {
        return 1;
    }
    word_length(rest) + 1
}

/// How many bytes stand before the quote that ends a string.
fn string_length(quote: u8, rest: &[u8]) -> usize
    ensures exact { result ≡ prefix_len (is_no quote) rest.now }
    ensures within { result ≤ length rest.now }
{
    rest.iter().take_while(|byte| is_no(quote, **byte)).count()
}

/// How many bytes of a token there are.
fn word_length(rest: &[u8]) -> usize
    ensures exact { result ≡ prefix_len is_in_token rest.now }
    ensures within { result ≤ length rest.now }
{
    rest.iter().take_while(|byte| is_in_token(**byte)).count()
}

fn is_no(quote: u8, byte: u8) -> bool
    ensures { result ≡ is_no quote byte }
{
    byte != quote
}

fn is_in_token(byte: u8) -> bool
    ensures { result ≡ is_in_token byte }
{
    !(is_blank(byte) || is_bracket(byte) || is_quote(byte))
}

fn is_quote(byte: u8) -> bool
    ensures { result ≡ is_quote byte }
{
    byte == b'"' || byte == b'\''
}

fn is_bracket(byte: u8) -> bool
    ensures { result ≡ is_bracket byte }
{
    byte == b'(' || byte == b')' || byte == b'{' || byte == b'}'
}

fn is_blank(byte: u8) -> bool
    ensures { result ≡ is_blank byte }
{
    byte == b' ' || byte == b'\t' || byte == b'\r' || byte == b'\n'
}
