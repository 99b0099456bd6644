ghost use Rattle.std.specs.Prelude.{◌≡◌};
ghost use Rattle.std.specs.List.{list_all};
ghost use Rattle.c_names.specs.FileNames as spec;

use crate::names::is_word_byte;

fn is_file_byte(byte: u8) -> bool
    ensures { result ≡ spec.is_file_byte byte }
{
    is_word_byte(byte) || byte == b'-' || byte == b'.' || byte == b'+'
}

fn are_file_bytes(bytes: &[u8]) -> bool
    ensures { result ≡ list_all spec.is_file_byte bytes.now }
{
    bytes.iter().all(|byte| is_file_byte(*byte))
}

fn is_component(part: &[u8]) -> bool
    ensures { result ≡ spec.is_component part.now }
{
    !part.is_empty() && are_file_bytes(part) && !matches!(part, b"." | b"..")
}

/// Whether the bytes are the name of a file: components of letters, digits, `_`, `-`, `.` and `+`
/// with `/` between them, none of them empty, `.` or `..`.
pub fn is_file_name(name: &[u8]) -> bool
    ensures { result ≡ spec.is_file_name name.now }
{
    name.split(|byte| *byte == b'/')
        .all(|part| is_component(part))
}
