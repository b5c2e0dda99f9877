//! The ring of the nodes' tokens.

ghost use Rattle.std.specs.Prelude.{◌≡◌, ◌↔◌, ◌≤◌, ◌<◌, IsTrue, IsNone, IfOk, IfNone, IfSome, Some, Contains, length, slice_get, cond, ◌++◌, ◌∷◌, []};
ghost use Rattle.cs_base.specs.Ring.{clockwise, place_of, is_replica_at, replicas_at, AreApart, AreTokens, IsRing, IsOwnRange};
ghost use Rattle.token_ring.specs.Placement.{AreReplicas, IsAtPlace};
ghost use Rattle.token_ring.specs.Refusals.{IsFirstRepeated, IsRefusal, message_of};

use crate::replicas::Replicas;
use cs_base::{NodeId, Range};
use std::error::Error;
use std::fmt;
use std::marker::Model;

/// How many nodes a ring has at most.
pub const MOST_NODES: usize = 7;

/// Why a list of tokens is no ring.
#[derive(Clone, Copy, Debug, PartialEq, Eq)]
pub enum RingError {
    /// There is no token.
    Empty,
    /// This token is the first that occurred before.
    Repeated(i64),
    /// There are more than seven tokens: so many.
    TooMany(usize),
}

impl fmt::Display for RingError {
    ghost output = { λ e. Some (message_of e) };

    fn fmt<W: fmt::Write>(&self, f: &mut fmt::Formatter<W>) -> fmt::Result {
        match self {
            RingError::Empty => write!(f, "a ring needs a token"),
            RingError::Repeated(token) => write!(f, "the token {token} occurs twice"),
            RingError::TooMany(count) => write!(f, "{count} tokens, and a ring has at most 7"),
        }
    }
}

impl Error for RingError {}

/// The tokens of the nodes by node number: token 0 is node 0's, and so on. They need not be sorted.
#[derive(Clone, Copy, Debug)]
pub struct Ring {
    tokens: [i64; MOST_NODES],
    nodes: u8,
}

impl Model for Ring {
    ghost use Rattle.std.specs.Prelude.{ℤ, List, length, take};
    ghost use Rattle.std.proofs.Common.{ap₂};
    ghost use Rattle.token_ring.specs.Tokens.{HoldsRing, array_of, array_back, count_back};

    ghost Value = { List ℤ };

    ghost view = { λ a. take a.nodes a.tokens };

    ghost invariant = { λ a. HoldsRing a.tokens a.nodes };

    ghost inverse = { λ ring. record { tokens = array_of ring; nodes = length ring } };

    ghost inverse_ok = { λ a h. ap₂ (λ t n. record { tokens = t; nodes = n }) (array_back a.tokens a.nodes h) (count_back a.tokens a.nodes h) };
}

impl Ring {
    /// The ring of these tokens, without an allocation.
    pub fn new(tokens: &[i64]) -> Result<Ring, RingError>
        ensures ok { IfOk result (λ ring. ring ≡ tokens.now) }
        ensures refused { (e : RingError) → (result ≡ Err e) ↔ IsRefusal tokens.now e }
    {
        if tokens.is_empty() {
            return Err(RingError::Empty);
        }
        if let Some(token) = first_repeated(tokens) {
            return Err(RingError::Repeated(token));
        }
        if tokens.len() > MOST_NODES {
            return Err(RingError::TooMany(tokens.len()));
        }
        Ok(Ring::of_tokens(tokens))
    }

    fn of_tokens(tokens: &[i64]) -> Ring
        requires { IsRing tokens.now }
        ensures { result ≡ tokens.now }
    {
        let mut array = [0; MOST_NODES];
        array[..tokens.len()].copy_from_slice(tokens);
        Ring {
            tokens: array,
            nodes: tokens.len() as u8,
        }
    }

    /// The tokens by node number.
    pub fn tokens(&self) -> &[i64]
        ensures value { result.now ≡ self.now }
        ensures ring { IsRing self.now }
    {
        &self.tokens[..usize::from(self.nodes)]
    }

    /// How many nodes there are.
    pub fn nodes(&self) -> u8
        ensures value { result ≡ length self.now }
        ensures some { 1 ≤ result }
        ensures few { result ≤ 7 }
    {
        self.nodes
    }

    /// Fills `out` with the replicas of a token at the factor `rf`, the owner first, without an allocation.
    pub fn replicas(&self, token: i64, rf: u8, out: &mut Replicas)
        requires some { 1 ≤ rf }
        requires nodes { rf ≤ length self.now }
        ensures { AreReplicas self.now rf token out.new }
    {
        let tokens = self.tokens();
        out.clear();
        for place in 0..rf {
            out.push(node_at(tokens, token, place));
        }
    }

    /// Fills `out` with the same replicas by rising node number, without an allocation.
    pub fn replicas_by_number(&self, token: i64, rf: u8, out: &mut Replicas)
        ensures { out.new ≡ replicas_at self.now rf token }
    {
        let tokens = self.tokens();
        out.clear();
        for node in 0..tokens.len() {
            add_replica(tokens, token, rf, node, out);
        }
    }

    /// The range that the node owns: above the token before its own, up to its own.
    pub fn range(&self, node: NodeId) -> Range
        requires { node < length self.now }
        ensures { IsOwnRange self.now node result }
    {
        let tokens = self.tokens();
        let upto = tokens[usize::from(node.number())];
        let before = node_at(tokens, upto, self.nodes - 1);
        Range {
            after: tokens[usize::from(before.number())],
            upto,
        }
    }
}

/// Whether the node's token is one of the first so many, clockwise from the token.
fn is_replica(tokens: &[i64], token: i64, rf: u8, node: usize) -> bool
    requires ring { IsRing tokens.now }
    requires node { node < length tokens.now }
    ensures { result ≡ is_replica_at tokens.now rf token (slice_get tokens.now node) }
{
    place_of_token(tokens, token, tokens[node]) < rf
}

/// Adds the node if it is a replica.
fn add_replica(tokens: &[i64], token: i64, rf: u8, node: usize, out: &mut Replicas)
    requires ring { IsRing tokens.now }
    requires node { node < length tokens.now }
    requires room { length out.old ≤ node }
    ensures { out.new ≡ out.old ++ cond (is_replica_at tokens.now rf token (slice_get tokens.now node)) (node ∷ []) [] }
{
    if is_replica(tokens, token, rf, node) {
        out.push(node_of(node));
    }
}

fn node_of(number: usize) -> NodeId
    requires { number ≤ 6 }
    ensures { result ≡ number }
{
    NodeId::new(number as u8).unwrap()
}

/// The node whose token is the one before which so many come, clockwise from the token.
fn node_at(tokens: &[i64], token: i64, place: u8) -> NodeId
    requires ring { IsRing tokens.now }
    requires place { place < length tokens.now }
    ensures { IsAtPlace tokens.now token place result }
{
    for (node, own) in tokens.iter().enumerate() {
        if place_of_token(tokens, token, *own) == place {
            return NodeId::new(node as u8).unwrap();
        }
    }
    unreachable!()
}

/// How many tokens come before this one, clockwise from the other.
fn place_of_token(tokens: &[i64], token: i64, own: i64) -> u8
    requires { length tokens.now ≤ 7 }
    ensures { result ≡ place_of tokens.now token own }
{
    let limit = distance(token, own);
    tokens
        .iter()
        .filter(|other| distance(token, **other) < limit)
        .count() as u8
}

/// How far `to` is from `from`, clockwise.
fn distance(from: i64, to: i64) -> u64
    ensures { result ≡ clockwise from to }
{
    to.wrapping_sub(from).cast_unsigned()
}

/// The first token that occurred before.
fn first_repeated(tokens: &[i64]) -> Option<i64>
    ensures none { IsNone result ↔ AreApart tokens.now }
    ensures first { IfSome result (IsFirstRepeated tokens.now) }
    ensures tokens { IfNone result (AreTokens tokens.now) }
{
    for (i, token) in tokens.iter().enumerate() {
        if is_among(&tokens[..i], *token) {
            return Some(*token);
        }
    }
    None
}

fn is_among(tokens: &[i64], token: i64) -> bool
    ensures { IsTrue result ↔ Contains tokens.now token }
{
    tokens.contains(&token)
}
