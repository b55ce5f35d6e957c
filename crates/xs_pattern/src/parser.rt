//! Reading a pattern token by token (XML Schema Part 2, version 1.1, sections G.1 and G.2).
ghost use Rattle.std.specs.Prelude.{◌≡◌, ◌↔◌, ◌<◌, ◌^◌, ◌∷◌, List, [], true, false, Some, None, IfNone, IfOk, IfSome, IsTrue, OnOk, option_map, reverse};
ghost use Rattle.std.specs.List.{list_any};
ghost use Rattle.xs_pattern.specs.Limits.{depth, nesting};
ghost use Rattle.xs_pattern.specs.Parsing.{
  IsSpelled,
  blank,
  frame_of,
  is_spelled,
  large_token,
  layers_of,
  open_behind,
  parse,
  settled,
  stack_of,
  token_of,
  tokens_of,
  with_atom,
  with_bar,
  with_piece,
  with_times,
  whole,
};
ghost use Rattle.xs_pattern.specs.Regex.{Regex, regex_of};
ghost use Rattle.xs_pattern.specs.Tokens as Tokens;

use crate::limits::MOST;
use crate::{Expression, Set};
use std::alloc::{AllocError, Global};
use std::mem;

/// A bracket, a bar, an anchor, what matches one character, or a quantifier.
#[derive(Debug, Drop)]
pub(crate) enum Token {
    /// A round bracket that opens.
    Open,
    /// A round bracket that closes.
    Close,
    /// A bar between branches.
    Bar,
    /// The anchor `^`.
    Start,
    /// The anchor `$`.
    End,
    /// What matches one character.
    One(Set),
    /// A quantifier: the least and the greatest number of repetitions.
    Times(u32, Option<u32>),
}

impl Token {
    /// How many classes stand in one another.
    fn layers(&self) -> usize
        ensures value { result ≡ layers_of (token_of self.now) }
        ensures small { result < 2 ^ 63 }
    {
        match self {
            Token::One(Set::Class(groups)) => groups.len(),
            _ => 0,
        }
    }

    /// Whether it is a quantifier with a number over 4,096.
    fn is_large(&self) -> bool
        ensures { result ≡ large_token (token_of self.now) }
    {
        match self {
            Token::Times(least, Some(most)) => (*least).max(*most) > MOST,
            Token::Times(least, None) => *least > MOST,
            _ => false,
        }
    }
}

/// Whether some quantifier has a number over 4,096.
pub(crate) fn has_large(tokens: &[Token]) -> bool
    ensures { result ≡ list_any (λ t. large_token (token_of t)) tokens.now }
{
    tokens.iter().any(|token| token.is_large())
}

/// How deep groups and classes nest in a pattern with these tokens.
pub(crate) fn nesting(tokens: &[Token]) -> usize
    ensures { (e : Regex) → Tokens.tokens e ≡ tokens_of tokens.now → result ≡ nesting e }
{
    depth(tokens)
}

fn depth(tokens: &[Token]) -> usize
    ensures { result ≡ depth 0 (tokens_of tokens.now) }
{
    let mut groups = 0usize;
    let mut deepest = 0usize;
    for token in tokens {
        groups = open_behind(token, groups);
        deepest = deepest.max(groups + token.layers());
    }
    deepest
}

/// How many groups are open behind the token.
fn open_behind(token: &Token, groups: usize) -> usize
    requires { groups < 2 ^ 63 }
    ensures { result ≡ open_behind (token_of token.now) groups }
{
    match token {
        Token::Open => groups + 1,
        Token::Close => groups.saturating_sub(1),
        _ => groups,
    }
}

/// Whether the tokens are those of a pattern.
pub(crate) fn is_pattern(tokens: &[Token]) -> bool
    ensures { IsTrue result ↔ IsSpelled (tokens_of tokens.now) }
{
    is_spelled(tokens)
}

fn is_spelled(tokens: &[Token]) -> bool
    ensures { result ≡ is_spelled 0 false (tokens_of tokens.now) }
{
    let mut groups = 0usize;
    let mut ready = false;
    for token in tokens {
        match token {
            Token::Open => {
                groups += 1;
                ready = false;
            }
            Token::Close => {
                if groups == 0 {
                    return false;
                }
                groups -= 1;
                ready = true;
            }
            Token::Bar | Token::Start | Token::End => ready = false,
            Token::One(_) => ready = true,
            Token::Times(_, _) => {
                if !ready {
                    return false;
                }
                ready = false;
            }
        }
    }
    groups == 0
}

/// What was read of a pattern: whole branches, pieces of the next one, and an atom that a quantifier may follow.
#[derive(Debug, Drop)]
pub(crate) struct Frame {
    branches: Vec<Expression>,
    pieces: Vec<Expression>,
    atom: Option<Expression>,
}

impl Frame {
    ghost use Rattle.xs_pattern.specs.Parsing.{frame_of};

    fn new(alloc: Global) -> Frame
        ensures { frame_of result ≡ blank }
    {
        Frame {
            branches: Vec::new(alloc),
            pieces: Vec::new(alloc),
            atom: None,
        }
    }

    /// Puts the atom among the pieces.
    fn settle(&mut self) -> Result<(), AllocError>
        ensures { OnOk result (frame_of self.new ≡ settled (frame_of self.old)) }
    {
        if let Some(atom) = self.atom.take() {
            self.pieces.push(atom)?;
        }
        Ok(())
    }

    fn push_piece(&mut self, piece: Expression) -> Result<(), AllocError>
        ensures { OnOk result (frame_of self.new ≡ with_piece (frame_of self.old) (regex_of piece)) }
    {
        self.settle()?;
        self.pieces.push(piece)?;
        Ok(())
    }

    fn push_atom(&mut self, atom: Expression) -> Result<(), AllocError>
        ensures { OnOk result (frame_of self.new ≡ with_atom (frame_of self.old) (regex_of atom)) }
    {
        self.settle()?;
        self.atom = Some(atom);
        Ok(())
    }

    /// Ends a branch.
    fn push_bar(&mut self, alloc: Global) -> Result<(), AllocError>
        ensures { OnOk result (frame_of self.new ≡ with_bar (frame_of self.old)) }
    {
        self.settle()?;
        let pieces = mem::replace(&mut self.pieces, Vec::new(alloc));
        self.branches.push(Expression::Branch(pieces))?;
        Ok(())
    }

    /// Gives the atom a quantifier, or answers that there is none.
    fn push_times(
        &mut self,
        alloc: Global,
        least: u32,
        most: Option<u32>,
    ) -> Result<bool, AllocError>
        ensures some { IfOk result (λ b. b ≡ true →
            (e : Regex) × ((frame_of self.old).atom ≡ Some e) × (frame_of self.new ≡ with_times (frame_of self.old) least most e)) }
        ensures none { IfOk result (λ b. b ≡ false → (frame_of self.old).atom ≡ None) }
    {
        let Some(atom) = self.atom.take() else {
            return Ok(false);
        };
        let body = Box::new(alloc, atom)?;
        self.pieces.push(Expression::Repeat(least, most, body))?;
        Ok(true)
    }

    /// The pattern that was read.
    fn into_whole(mut self, alloc: Global) -> Result<Expression, AllocError>
        ensures { IfOk result (λ e. regex_of e ≡ whole (frame_of self)) }
    {
        self.push_bar(alloc)?;
        Ok(Expression::Choice(self.branches))
    }
}

/// Reads a token, with the open groups outside. The answer says whether a pattern may begin with what was read.
fn step(
    alloc: Global,
    outer: &mut Vec<Frame>,
    frame: &mut Frame,
    token: Token,
) -> Result<bool, AllocError>
    ensures goes { IfOk result (λ b. b ≡ true → (ts : List Tokens.Token) →
        parse (stack_of outer.old.items) (frame_of frame.old) (token_of token ∷ ts) ≡ parse (stack_of outer.new.items) (frame_of frame.new) ts) }
    ensures ends { IfOk result (λ b. b ≡ false → (ts : List Tokens.Token) →
        parse (stack_of outer.old.items) (frame_of frame.old) (token_of token ∷ ts) ≡ None) }
{
    match token {
        Token::Open => outer.push(mem::replace(frame, Frame::new(alloc)))?,
        Token::Close => {
            let Some(around) = outer.pop() else {
                return Ok(false);
            };
            let body = mem::replace(frame, around).into_whole(alloc)?;
            frame.push_atom(Expression::Group(Box::new(alloc, body)?))?;
        }
        Token::Bar => frame.push_bar(alloc)?,
        Token::Start => frame.push_piece(Expression::Start)?,
        Token::End => frame.push_piece(Expression::End)?,
        Token::One(set) => frame.push_atom(Expression::One(set))?,
        Token::Times(least, most) => return frame.push_times(alloc, least, most),
    }
    Ok(true)
}

/// The pattern with these tokens, which stand in `rest` from the last to the first. None where there is none.
pub(crate) fn pattern_of(alloc: Global, rest: Vec<Token>) -> Result<Option<Expression>, AllocError>
    ensures found { IfOk result (λ r. IfSome r (λ e.
        (Tokens.tokens (regex_of e) ≡ tokens_of (reverse rest.items)) × Tokens.IsPattern (regex_of e))) }
    ensures missed { IfOk result (λ r. IfNone r (¬ IsSpelled (tokens_of (reverse rest.items)))) }
{
    parsed(alloc, rest)
}

/// The expression of the tokens, which stand in `rest` from the last to the first. None where they spell no pattern.
fn parsed(alloc: Global, mut rest: Vec<Token>) -> Result<Option<Expression>, AllocError>
    ensures { IfOk result (λ r. option_map regex_of r ≡ parse [] blank (tokens_of (reverse rest.items))) }
{
    let mut outer = Vec::new(alloc);
    let mut frame = Frame::new(alloc);
    while let Some(token) = rest.pop() {
        if !step(alloc, &mut outer, &mut frame, token)? {
            return Ok(None);
        }
    }
    if !outer.is_empty() {
        return Ok(None);
    }
    Ok(Some(frame.into_whole(alloc)?))
}
