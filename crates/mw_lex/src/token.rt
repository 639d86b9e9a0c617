//! What tokens stand for.
ghost use Rattle.std.specs.Prelude.{◌≡◌, ◌<◌, ◌≤◌, ◌^◌, true, ◌||◌, length, IfOk, OnOk, MatchOption};
ghost use Rattle.mw_model.specs.Terms.Object.{Natural};
ghost use Rattle.mw_model.specs.Texts.Lexemes.{decimal_value, is_constituent, is_digit, is_dot, like_number, token_form};
ghost use Rattle.std.specs.List.{list_all};
ghost use Rattle.mw_model.specs.Events.Fate.{is_out_of_range};
ghost use Rattle.mw_heap.specs.Objects.{object_at, IsIn, Grows};
ghost use Rattle.mw_lex.specs.Forms.{IsForm, begins_name};
ghost use Rattle.mw_lex.specs.Tokens.{IsToken, clamp, form_big};

use crate::Atoms;
use crate::class::{digit, sign};
use mw_heap::{Heap, Memory, Ref};

/// What a token comes to.
#[derive(Clone, Copy, Debug, PartialEq, Eq)]
pub enum Token {
    /// A datum: a natural or a symbol.
    Atom(Ref),
    Dot,
    /// Neither: it begins as a number does and is none, or it is of several dots.
    Bad,
}

/// What a token comes to in the heap, by its form. In place of a natural of 2^128 or more it is 0, and `big` is set. `BEGINS` makes no
/// difference to what it does: a caller most of whose tokens come from one loop has a copy compiled for them, into that loop.
pub fn token_of<const BEGINS: bool>(
    atoms: &mut Atoms,
    heap: &mut Heap,
    big: &mut bool,
    token: &[u8],
) -> Result<Token, Memory>
    requires { list_all is_constituent token.now ≡ true }
    ensures grows { Grows heap.old.objects heap.new.objects }
    ensures made { IfOk result (λ t. IsToken heap.new.objects t (token_form token.now)) }
    ensures big { OnOk result (big.new ≡ (big.old || form_big (token_form token.now))) }
{
    match form_of(token) {
        Form::Digits => Ok(Token::Atom(natural_of(atoms, big, heap, token)?)),
        Form::Name => Ok(Token::Atom(atoms.symbol(heap, token)?)),
        Form::Dot => Ok(Token::Dot),
        Form::Bad => Ok(Token::Bad),
    }
}

/// The number of at most nine digits, as most naturals and all labels have.
pub fn few_digits(digits: &[u8]) -> u32
    requires digits { list_all is_digit digits.now ≡ true }
    requires few { length digits.now ≤ 9 }
    ensures { result ≡ decimal_value digits.now }
{
    let mut n: u32 = 0;
    for d in digits {
        n = 10 * n + (*d - 48) as u32;
    }
    n
}

/// What a token is, by its bytes.
#[derive(Clone, Copy)]
enum Form {
    /// A natural, in decimal digits.
    Digits,
    /// A symbol, whose name is the token with its letters raised.
    Name,
    Dot,
    Bad,
}

// What the token stands for.
fn form_of(token: &[u8]) -> Form
    ensures { IsForm token.now result }
{
    if begins_name(token) {
        return Form::Name;
    }
    if all_digits(token) {
        Form::Digits
    } else if like_number(token) {
        Form::Bad
    } else if all_dots(token) {
        if token.len() == 1 {
            Form::Dot
        } else {
            Form::Bad
        }
    } else {
        Form::Name
    }
}

// Does the token begin neither as a number nor as dots do? Then it is a name, and needs no further look.
fn begins_name(token: &[u8]) -> bool
    ensures exact { result ≡ begins_name token.now }
    ensures name { result ≡ true → IsForm token.now Form.Name }
{
    match token {
        [b, ..] => !digit(*b) && !sign(*b) && *b != 46,
        [] => false,
    }
}

// Does the token begin as a number does?
fn like_number(token: &[u8]) -> bool
    ensures { result ≡ like_number token.now }
{
    match token {
        [] => false,
        [b] => digit(*b),
        [b, c, ..] => digit(*b) || (sign(*b) && digit(*c)),
    }
}

fn all_digits(token: &[u8]) -> bool
    ensures { result ≡ list_all is_digit token.now }
{
    for b in token {
        if !digit(*b) {
            return false;
        }
    }
    true
}

fn all_dots(token: &[u8]) -> bool
    ensures { result ≡ list_all is_dot token.now }
{
    for b in token {
        if *b != 46 {
            return false;
        }
    }
    true
}

// The natural of these digits. In place of one of 2^128 or more it is 0, and `big` is set.
fn natural_of(
    atoms: &mut Atoms,
    big: &mut bool,
    heap: &mut Heap,
    digits: &[u8],
) -> Result<Ref, Memory>
    requires { list_all is_digit digits.now ≡ true }
    ensures grows { Grows heap.old.objects heap.new.objects }
    ensures made { IfOk result (λ r. IsIn heap.new.objects r × (object_at heap.new.objects r ≡ clamp (Natural (decimal_value digits.now)))) }
    ensures big { OnOk result (big.new ≡ (big.old || is_out_of_range (Natural (decimal_value digits.now)))) }
{
    match decimal(digits) {
        Some(n) => atoms.natural(heap, n),
        None => {
            *big = true;
            atoms.natural(heap, 0)
        }
    }
}

// The number of these digits, where it is below 2^128.
fn decimal(digits: &[u8]) -> Option<u128>
    requires { list_all is_digit digits.now ≡ true }
    ensures { MatchOption result (2 ^ 128 ≤ decimal_value digits.now) (λ n. (n ≡ decimal_value digits.now) × (n < 2 ^ 128)) }
{
    if digits.len() <= 9 {
        return Some(few_digits(digits) as u128);
    }
    let mut n: u128 = 0;
    for d in digits {
        let value = (*d - 48) as u128;
        if n > (u128::MAX - value) / 10 {
            return None;
        }
        n = 10 * n + value;
    }
    Some(n)
}
