ghost use Rattle.std.specs.Prelude.{◌≡◌, map};
ghost use Rattle.std.specs.List.{list_any, list_all};
ghost use Rattle.std.specs.Str.{bytes_eq};
ghost use Rattle.c_names.specs.Names as spec;
ghost use Rattle.c_names.specs.Keywords.{keywords_from};

/// A decimal digit.
pub fn is_digit(byte: u8) -> bool
    ensures { result ≡ spec.is_digit byte }
{
    byte.is_ascii_digit()
}

/// A letter or `_`.
pub fn is_nondigit(byte: u8) -> bool
    ensures { result ≡ spec.is_nondigit byte }
{
    byte.is_ascii_alphabetic() || byte == b'_'
}

/// A byte of an identifier.
pub fn is_word_byte(byte: u8) -> bool
    ensures { result ≡ spec.is_word_byte byte }
{
    is_nondigit(byte) || is_digit(byte)
}

fn are_word_bytes(bytes: &[u8]) -> bool
    ensures { result ≡ list_all spec.is_word_byte bytes.now }
{
    bytes.iter().all(|byte| is_word_byte(*byte))
}

/// Whether the bytes are an identifier, or a keyword, which is spelled as one.
pub fn is_identifier(word: &[u8]) -> bool
    ensures { result ≡ spec.is_identifier word.now }
{
    match word {
        [] => false,
        [first, rest @ ..] => is_nondigit(*first) && are_word_bytes(rest),
    }
}

/// The keywords that begin with a byte.
fn keywords_from(first: u8) -> &'static [&'static [u8]]
    ensures { map (λ k. k.now) result.now ≡ keywords_from first }
{
    match first {
        b'a' => &[b"auto"],
        b'b' => &[b"break"],
        b'c' => &[b"case", b"char", b"const", b"continue"],
        b'd' => &[b"default", b"do", b"double"],
        b'e' => &[b"else", b"enum", b"extern"],
        b'f' => &[b"float", b"for"],
        b'g' => &[b"goto"],
        b'i' => &[b"if", b"inline", b"int"],
        b'l' => &[b"long"],
        b'r' => &[b"register", b"restrict", b"return"],
        b's' => &[
            b"short", b"signed", b"sizeof", b"static", b"struct", b"switch",
        ],
        b't' => &[b"typedef"],
        b'u' => &[b"union", b"unsigned"],
        b'v' => &[b"void", b"volatile"],
        b'w' => &[b"while"],
        b'_' => &[
            b"_Alignas",
            b"_Alignof",
            b"_Atomic",
            b"_Bool",
            b"_Complex",
            b"_Generic",
            b"_Imaginary",
            b"_Noreturn",
            b"_Static_assert",
            b"_Thread_local",
        ],
        _ => &[],
    }
}

fn is_among(word: &[u8], words: &[&[u8]]) -> bool
    ensures { result ≡ list_any (λ other. bytes_eq word.now other.now) words.now }
{
    words.iter().any(|other| word == *other)
}

/// Whether the bytes are a keyword of C.
pub fn is_keyword(word: &[u8]) -> bool
    ensures { result ≡ spec.is_keyword word.now }
{
    match word {
        [] => false,
        [first, ..] => is_among(word, keywords_from(*first)),
    }
}

/// The names that are taken besides the keywords.
fn taken_names() -> &'static [&'static [u8]]
    ensures { map (λ k. k.now) result.now ≡ spec.taken_names }
{
    &[
        b"defined", b"_Pragma", b"main", b"putchar", b"getchar", b"puts", b"exit", b"EOF", b"NULL",
    ]
}

fn is_taken(word: &[u8]) -> bool
    ensures { result ≡ list_any (bytes_eq word.now) spec.taken_names }
{
    is_among(word, taken_names())
}

/// Whether the bytes are a name that something new may be given, a feature too.
pub fn is_new_name(word: &[u8]) -> bool
    ensures { result ≡ spec.is_new_name word.now }
{
    is_identifier(word) && !is_keyword(word) && !is_taken(word) && !word.starts_with(b"__")
}
