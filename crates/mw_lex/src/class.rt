//! Classes of bytes, and runs of bytes of a class.
ghost use Rattle.std.specs.Prelude.{◌≡◌, ◌≢◌, MatchBool};
ghost use Rattle.mw_model.specs.Terms.Object.{is_name_byte};
ghost use Rattle.mw_model.specs.Texts.Lexemes.{White, class, glued, glued_bar, is_constituent, is_digit, is_inside_comment, is_sign, raised};
ghost use Rattle.mw_lex.specs.Codes.{class_of};
ghost use Rattle.mw_lex.specs.Runs.{IsRun};

/// What a byte is outside bars and comments.
#[derive(Clone, Copy)]
pub enum Class {
    White,
    Semicolon,
    Opening,
    Closing,
    Apostrophe,
    Bar,
    Hash,
    Constituent,
    Other,
}

// Of each byte a 1 where it is a constituent, and else a 0: a token is passed over by one look for each of its bytes.
static CONSTITUENTS: [u8; 256] = *b"\
    00000000000000000000000000000000\
    01001110001101111111111111001111\
    11111111111111111111111111110111\
    01111111111111111111111111110110\
    00000000000000000000000000000000\
    00000000000000000000000000000000\
    00000000000000000000000000000000\
    00000000000000000000000000000000";

/// The class of a byte. The most frequent come first.
pub fn classify(b: u8) -> Class
    ensures { class_of result ≡ class b }
{
    match b {
        40 => Class::Opening,
        41 => Class::Closing,
        32 => Class::White,
        39 => Class::Apostrophe,
        97..=123 | 45..=57 | 60..=91 | 33 | 36..=38 | 42..=43 | 93..=95 | 125..=126 =>
            Class::Constituent,
        9..=10 | 12..=13 => Class::White,
        59 => Class::Semicolon,
        124 => Class::Bar,
        35 => Class::Hash,
        _ => Class::Other,
    }
}

/// Is the byte white space?
pub fn white(b: u8) -> bool
    ensures { MatchBool result (class b ≡ White) (class b ≢ White) }
{
    matches!(b, 9..=10 | 12..=13 | 32)
}

/// May the byte not stand directly after a token?
pub fn glued_to_token(b: u8) -> bool
    ensures { result ≡ glued b }
{
    b == 124 || b == 35
}

/// May the byte not stand directly after a closing bar?
pub fn glued_to_bar(b: u8) -> bool
    ensures { result ≡ glued_bar b }
{
    glued_to_token(b) || constituent(b)
}

/// How many constituents stand at the front.
pub fn constituents(bytes: &[u8]) -> usize
    ensures { IsRun is_constituent bytes.now result }
{
    for (i, b) in bytes.iter().enumerate() {
        if !constituent(*b) {
            return i;
        }
    }
    bytes.len()
}

/// How many bytes of a name stand at the front.
pub fn name_bytes(bytes: &[u8]) -> usize
    ensures { IsRun is_name_byte bytes.now result }
{
    for (i, b) in bytes.iter().enumerate() {
        if !name_byte(*b) {
            return i;
        }
    }
    bytes.len()
}

/// How many digits stand at the front.
pub fn digits(bytes: &[u8]) -> usize
    ensures { IsRun is_digit bytes.now result }
{
    for (i, b) in bytes.iter().enumerate() {
        if !digit(*b) {
            return i;
        }
    }
    bytes.len()
}

/// How many bytes stand at the front before the end of the line.
pub fn line_bytes(bytes: &[u8]) -> usize
    ensures { IsRun is_inside_comment bytes.now result }
{
    for (i, b) in bytes.iter().enumerate() {
        if *b == 10 {
            return i;
        }
    }
    bytes.len()
}

/// Is the byte a digit?
pub(crate) fn digit(b: u8) -> bool
    ensures { result ≡ is_digit b }
{
    b >= 48 && b <= 57
}

/// Is the byte `+` or `-`?
pub(crate) fn sign(b: u8) -> bool
    ensures { result ≡ is_sign b }
{
    b == 43 || b == 45
}

/// The byte, in upper case where it is a letter.
pub(crate) fn raise(b: u8) -> u8
    ensures { result ≡ raised b }
{
    if b >= 97 && b <= 122 { b - 32 } else { b }
}

fn constituent(b: u8) -> bool
    ensures { result ≡ is_constituent b }
{
    CONSTITUENTS[b as usize] == b'1'
}

fn name_byte(b: u8) -> bool
    ensures { result ≡ is_name_byte b }
{
    b >= 32 && (b <= 126 && (b != 92 && b != 124))
}
