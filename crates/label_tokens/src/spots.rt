//! Where a token stands among others.

ghost use Rattle.std.specs.Prelude.{◌≡◌, ◌∷◌, [], IfSome};
ghost use Rattle.rdf_cursor.specs.Symbols.{has, same_symbol};
ghost use Rattle.label_tokens.specs.Roles.{part_behind, reference_marks, role_behind, same_role};
ghost use Rattle.label_tokens.specs.Spots.{closing, first_spot, is_used, next_spot, open_behind, opening};

use rdf_cursor::Symbol;

/// What a token may be, by the symbols before it (ShEx 2.1, section 6).
#[derive(Clone, Copy, Debug, PartialEq, Eq)]
pub enum Role {
    /// A label that is referred to: behind `@` or `&`.
    Reference,
    /// The label of a triple expression: behind `$`.
    Expression,
    /// The IRI of a base: behind `BASE`.
    BaseIri,
    /// A prefix that is declared: behind `PREFIX`.
    PrefixName,
    /// The IRI of a prefix: behind `PREFIX` and the prefix.
    PrefixIri,
    /// The IRI of an import: behind `IMPORT`.
    ImportIri,
    /// Anything.
    Other,
}

/// How a label is used where it stands.
#[derive(Clone, Copy, Debug, PartialEq, Eq)]
pub enum Usage {
    /// It is declared: behind `$`, or outside of all brackets and not behind `@` or `&`.
    Declared,
    /// It is referred to: behind `@` or `&`.
    Referred,
}

/// Where a token stands.
#[derive(Clone, Copy, Debug, PartialEq, Eq)]
pub struct Spot {
    /// How many brackets are open.
    pub open_brackets: u64,
    /// What the token may be, by the symbol before it.
    pub role: Role,
}

/// Whether both are one role.
fn is_same_role(role: Role, other: Role) -> bool
    ensures { result ≡ same_role role other }
{
    role == other
}

/// Whether a label is referred to behind a symbol.
fn is_reference_mark(symbol: Symbol) -> bool
    ensures { result ≡ has symbol reference_marks }
{
    symbol.is(Symbol::At) || symbol.is(Symbol::Ampersand)
}

/// Whether a bracket opens.
fn is_opening(symbol: Symbol) -> bool
    ensures { result ≡ has symbol opening }
{
    symbol.is(Symbol::OpenBrace)
        || symbol.is(Symbol::OpenParenthesis)
        || symbol.is(Symbol::OpenBracket)
}

/// Whether a bracket closes.
fn is_closing(symbol: Symbol) -> bool
    ensures { result ≡ has symbol closing }
{
    symbol.is(Symbol::CloseBrace)
        || symbol.is(Symbol::CloseParenthesis)
        || symbol.is(Symbol::CloseBracket)
}

/// The part of a directive that stands behind a symbol, by what that symbol may be.
#[tactic(auto, unfolding(crate::specs::Roles::part_behind))]
fn part_behind(role: Role, symbol: Symbol) -> Role
    ensures { result ≡ part_behind role symbol }
{
    if symbol.is(Symbol::SparqlBase) {
        Role::BaseIri
    } else if symbol.is(Symbol::SparqlPrefix) {
        Role::PrefixName
    } else if symbol.is(Symbol::Import) {
        Role::ImportIri
    } else if is_same_role(role, Role::PrefixName) && symbol.is(Symbol::PnameNs) {
        Role::PrefixIri
    } else {
        Role::Other
    }
}

/// What a token may be behind a symbol, by what that symbol may be.
#[tactic(auto, unfolding(crate::specs::Roles::role_behind))]
fn role_behind(role: Role, symbol: Symbol) -> Role
    ensures { result ≡ role_behind role symbol }
{
    if is_reference_mark(symbol) {
        Role::Reference
    } else if symbol.is(Symbol::Dollar) {
        Role::Expression
    } else {
        part_behind(role, symbol)
    }
}

/// How many brackets are open behind a symbol; none where they are too many to be counted.
#[tactic(auto, unfolding(crate::specs::Spots::open_behind))]
fn open_behind(count: u64, symbol: Symbol) -> Option<u64>
    ensures { IfSome result (λ n. n ≡ open_behind count symbol) }
{
    if is_opening(symbol) {
        count.checked_add(1)
    } else if is_closing(symbol) {
        Some(count.saturating_sub(1))
    } else {
        Some(count)
    }
}

impl Spot {
    /// Before the first token.
    pub(crate) fn first() -> Spot
        ensures { result ≡ first_spot }
    {
        Spot {
            open_brackets: 0,
            role: Role::Other,
        }
    }

    /// Behind a symbol; none where the brackets that are open are too many to be counted.
    pub(crate) fn behind(self, symbol: Symbol) -> Option<Spot>
        ensures { IfSome result (λ spot. spot ≡ next_spot self symbol) }
    {
        let open_brackets = open_behind(self.open_brackets, symbol)?;
        Some(Spot {
            open_brackets,
            role: role_behind(self.role, symbol),
        })
    }
}

/// Whether a label that is this symbol is referred to in a spot.
#[tactic(auto, unfolding(crate::specs::Spots::is_used))]
fn is_referred(spot: Spot, symbol: Symbol) -> bool
    ensures { result ≡ is_used Usage.Referred spot symbol }
{
    is_same_role(spot.role, Role::Reference) || symbol.is(Symbol::AtName)
}

/// Whether a label that is this symbol is declared in a spot.
#[tactic(auto, unfolding(crate::specs::Spots::is_used))]
fn is_declared(spot: Spot, symbol: Symbol) -> bool
    ensures { result ≡ is_used Usage.Declared spot symbol }
{
    if symbol.is(Symbol::AtName) {
        return false;
    }
    if is_same_role(spot.role, Role::Expression) {
        return true;
    }
    spot.open_brackets == 0 && is_same_role(spot.role, Role::Other)
}

/// Whether a label that is this symbol is so used in a spot.
#[tactic(auto, unfolding(crate::specs::Spots::is_used))]
pub(crate) fn is_used(usage: Usage, spot: Spot, symbol: Symbol) -> bool
    ensures { result ≡ is_used usage spot symbol }
{
    match usage {
        Usage::Declared => is_declared(spot, symbol),
        Usage::Referred => is_referred(spot, symbol),
    }
}
