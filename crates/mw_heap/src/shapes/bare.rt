//! Names that are written without bars.
ghost use Rattle.std.specs.Prelude.{◌≡◌, ◌&&◌, true, not};
ghost use Rattle.std.specs.List.{list_all};
ghost use Rattle.mw_model.specs.Terms.Object.{is_name, name_of_bytes};
ghost use Rattle.mw_model.specs.Texts.Lexemes.{is_constituent, is_dot, is_small, like_number};
ghost use Rattle.mw_model.specs.Texts.Printing.{is_bare};

// Whether a byte may stand in a name without bars: a digit, a capital letter or a mark.
fn is_bare_byte(b: u8) -> bool
    ensures { result ≡ is_constituent b && not (is_small b) }
{
    matches!(
        b,
        b'!' | b'$'..=b'&' | b'*' | b'+' | b'-'..=b'9' | b'<'..=b'[' | b']'..=b'_' | b'{' | b'}' | b'~'
    )
}

// Whether a name begins as a number does.
fn is_like_number(name: &[u8]) -> bool
    ensures { result ≡ like_number name.now }
{
    match name {
        [b'+' | b'-', second, ..] => second.is_ascii_digit(),
        [first, ..] => first.is_ascii_digit(),
        [] => false,
    }
}

// Whether each byte of a name may stand in one without bars.
fn are_bare_bytes(name: &[u8]) -> bool
    ensures { result ≡ list_all (λ b. is_constituent b && not (is_small b)) name.now }
{
    name.iter().all(|b| is_bare_byte(*b))
}

// Whether a name is dots alone.
fn are_dots(name: &[u8]) -> bool
    ensures { result ≡ list_all is_dot name.now }
{
    name.iter().all(|b| *b == b'.')
}

/// Whether the name is written without bars: a token of these bytes is read as the symbol of this name.
#[tactic(auto, using(crate::proofs::BareNames::bare_tests))]
pub fn is_bare_name(name: &[u8]) -> bool
    requires { is_name name.now ≡ true }
    ensures { result ≡ is_bare (name_of_bytes name.now) }
{
    are_bare_bytes(name) && !is_like_number(name) && !are_dots(name)
}
