// Names of a text: where they are declared, whether an action drives them, and their numbers.
#![tactic(auto)]

ghost use Rattle.std.specs.Prelude.{◌&&◌, ◌≡◌, ◌+◌, ◌≤◌, length};
ghost use Rattle.tokens.specs.Spelling.{same_word};
ghost use Rattle.tokens.specs.Tokens.{token_bytes, token_after, Lies, InText};
ghost use Rattle.naming.specs.Names.{named, step_word, declared_at, is_first, qualifier, is_qualifier, begins_action, is_driven, is_listed, list_of, table_number, is_new, with_name, added};

use tokens::{Kind, Token};

// What an action does with its variable. 02, P4: "N, S and R actions".
#[derive(Clone, Copy, Debug, PartialEq, Eq)]
pub enum Qualifier {
    N,
    S,
    R,
}

// Names by their numbers, each as the token that it appeared as first.
// An ArrayVec is no plainer: it wants a token that stands for none, and it is not Copy, so each struct that holds names would be cloned by hand.
#[derive(Clone, Copy)]
pub struct Names {
    pub words: [Token; 32],
    pub count: usize,
}

impl Names {
    // 01: "N 1 to 30, M and K 0 to 32".
    pub const STEPS: usize = 30;

    pub const ITEMS: usize = 32;
}

// The token after a token.
pub fn next(text: &[u8], t: Token) -> Token
    requires { InText text.now t }
    ensures value { result ≡ token_after text.now t }
    ensures lies { Lies text.now (t.place + t.size) result }
{
    tokens::token_at(text, t.place + t.size, t.line)
}

fn same_word(text: &[u8], u: Token, t: Token) -> bool
    ensures { result ≡ same_word (token_bytes text.now u) (token_bytes text.now t) }
{
    tokens::same(tokens::word_of(text, u), tokens::word_of(text, t))
}

// Whether u is the name that t is.
fn named(text: &[u8], t: Token, u: Token) -> bool
    ensures { result ≡ named text.now t u }
{
    u.kind == Kind::Name && same_word(text, u, t)
}

fn step_word(u: Token) -> bool
    ensures { result ≡ step_word u }
{
    matches!(u.kind, Kind::InitialStep | Kind::Step)
}

// Whether a name is declared by a token and the one after it.
fn declares(text: &[u8], t: Token, u: Token, v: Token) -> bool
    ensures { result ≡ (step_word u && named text.now t v) }
{
    step_word(u) && named(text, t, v)
}

// The place where a name is declared first, if it is.
pub fn declared_at(text: &[u8], t: Token) -> Option<usize>
    ensures { result ≡ declared_at text.now t }
{
    let mut u = tokens::token_at(text, 0, 1);
    while u.kind != Kind::End {
        let v = next(text, u);
        if declares(text, t, u, v) {
            return Some(v.place);
        }
        u = v;
    }
    None
}

// Whether a name stands where it is declared first.
pub fn is_first(text: &[u8], t: Token) -> bool
    ensures { result ≡ is_first text.now t }
{
    declared_at(text, t).is_some_and(|d| d == t.place)
}

// Whether an action drives a name.
pub fn is_driven(text: &[u8], t: Token) -> bool
    ensures { result ≡ is_driven text.now t }
{
    let mut u = tokens::token_at(text, 0, 1);
    while u.kind != Kind::End {
        if drives(text, t, u) {
            return true;
        }
        u = next(text, u);
    }
    false
}

// Whether a name is driven by the action that begins at a token.
fn drives(text: &[u8], t: Token, u: Token) -> bool
    requires { InText text.now u }
    ensures { result ≡ (named text.now t u && begins_action text.now u) }
{
    named(text, t, u) && acts(text, u)
}

// Whether `(N)`, `(S)` or `(R)` follows a token.
#[tactic(auto, unfolding(crate::specs::Names::begins_action))]
fn acts(text: &[u8], u: Token) -> bool
    requires { InText text.now u }
    ensures { result ≡ begins_action text.now u }
{
    let a = next(text, u);
    if a.kind != Kind::Open {
        return false;
    }
    let q = next(text, a);
    if !is_qualifier(text, q) {
        return false;
    }
    let z = next(text, q);
    z.kind == Kind::Close
}

// The qualifier that a token's word is, if it is one.
#[tactic(auto, unfolding(crate::specs::Names::qualifier))]
pub fn qualifier_of(text: &[u8], u: Token) -> Option<Qualifier>
    ensures { result ≡ qualifier text.now u }
{
    let w = tokens::word_of(text, u);
    if tokens::same(w, b"N") {
        return Some(Qualifier::N);
    }
    if tokens::same(w, b"S") {
        return Some(Qualifier::S);
    }
    if tokens::same(w, b"R") {
        return Some(Qualifier::R);
    }
    None
}

pub fn is_qualifier(text: &[u8], u: Token) -> bool
    ensures { result ≡ is_qualifier text.now u }
{
    u.kind == Kind::Name && qualifier_of(text, u).is_some()
}

// Whether a name stands already among the tokens from a place on.
pub fn is_listed(text: &[u8], from: usize, t: Token) -> bool
    ensures { result ≡ is_listed text.now from t }
{
    let mut u = tokens::token_at(text, from, 0);
    while u.place < t.place {
        if u.kind == Kind::End {
            return false;
        }
        if named(text, t, u) {
            return true;
        }
        u = next(text, u);
    }
    false
}

// The number of a name, or how many there are where it has none.
// No Option: the theorems' `number_in` says the same of a list, and a name over the limit is counted by that number.
pub fn number_of(text: &[u8], n: Names, t: Token) -> u32
    ensures value { result ≡ table_number text.now n t }
    ensures upper_bound { result ≤ 32 }
{
    let known = &n.words[..counted(n)];
    for (i, u) in known.iter().enumerate() {
        if same_word(text, *u, t) {
            return i as u32;
        }
    }
    known.len() as u32
}

// How many names have a number.
pub fn counted(n: Names) -> usize
    ensures value { result ≡ length (list_of n) }
    ensures upper_bound { result ≤ 32 }
{
    n.count.min(Names::ITEMS)
}

pub fn is_new(text: &[u8], n: Names, t: Token) -> bool
    ensures { result ≡ is_new text.now n t }
{
    number_of(text, n, t) as usize == counted(n)
}

// A name more, of at most `most`; one that finds no room gets no number.
#[tactic(auto, unfolding(crate::specs::Names::with_name))]
pub fn joined(text: &[u8], n: Names, t: Token, most: usize) -> Names
    requires { most ≤ 32 }
    ensures { result ≡ with_name most text.now n t }
{
    if !is_new(text, n, t) {
        return n;
    }
    if most <= n.count {
        return n;
    }
    added(n, t)
}

fn added(n: Names, t: Token) -> Names
    requires { n.count + 1 ≤ 32 }
    ensures { result ≡ added n t }
{
    let mut m = n;
    let i = n.count;
    m.words[i] = t;
    m.count = i + 1;
    m
}
