//! The edges of items: of relations and of constraints.

ghost use Rattle.std.specs.Prelude.{◌≡◌, [], ◌∷◌, ◌++◌, ◌⊎◌, Some, None, All, IfOk, MatchOption, OnOk};
ghost use Rattle.eu_name.specs.declared.name.Part.{Part as Which};
ghost use Rattle.eu_name.specs.declared.name.TokenName.{TokenName as Name};
ghost use Rattle.eu_name.specs.declared.name.VarName.TheVariants.{Token};
ghost use Rattle.model_core.specs.declared.item.Item.TheVariants.{Constraint};
ghost use Rattle.domain_core.specs.declared.kind.Kind.TheVariants.{Eq};
ghost use Rattle.model_core.specs.Tokens.{root_token, slot_token};
ghost use Rattle.plan_defs.specs.Claims.{relates, part_of};
ghost use Rattle.plan_defs.specs.Claims.{Claim};
ghost use Rattle.plan_defs.specs.Terms.{Argument, InProblem, InRule, Means, Variable};
ghost use Rattle.db_posting.specs.Posted.{compares, comparisons_claim, moment_of};
ghost use Rattle.db_edges.specs.declared.edge.Point.{Point as Instant};
ghost use Rattle.db_edges.specs.Adding.{AddsEdges};
ghost use Rattle.db_edges.specs.Edges.{AppendsEach, HasClaimEdges, HasRelationEdges, HasConstraintEdges, comparing_edges};
ghost use Rattle.db_edges.specs.Sites.{context_at, HasShortSlot, HasShortSlots, IsNamedPart, IsTermPoint};

use super::edge::{NamedEdge, Point};
use super::lasting::push_edge;
use super::points::{copy_point, point_of};
use db_posting::relations::{Comparison, Moment, comparisons};
use domain_core::kind::Kind;
use eu_name::name::{Part, TokenName};
use eu_name::sequence::Sequence;
use model_core::decision::Decision;
use model_core::item::{Item, Rel, Term};
use model_core::model::Model;
use model_core::slot_names::slot_name;
use std::alloc::{AllocError, Global};

/// Where an item is read.
#[derive(Clone, Copy)]
pub enum Site<'a> {
    Problem,
    /// A rule of the token, by its number in the list of the token's predicate.
    Rule { token: &'a TokenName, rule: u16 },
}

/// A part of a token.
#[derive(Drop)]
pub struct NamedPart {
    token: TokenName,
    part: Part,
}

// A part of a token that is there.
#[derive(Clone, Copy)]
struct TokenPart<'a> {
    token: &'a TokenName,
    part: Part,
}

/// By what a token is a point.
#[derive(Clone, Copy)]
pub struct Listed<'a> {
    pub model: &'a Model,
    pub decisions: &'a [Decision],
}

// The edges of two points that are compared.
fn push_compared(
    kind: Kind,
    from: Point,
    to: Point,
    edges: &mut Vec<NamedEdge>,
) -> Result<(), AllocError>
    ensures { OnOk result (edges.new.items ≡ edges.old.items ++ comparing_edges kind from to) }
{
    match kind {
        Kind::Leq => push_edge(edges, from, 0, to),
        Kind::Lt => push_edge(edges, from, 1, to),
        Kind::Eq => push_equal(from, to, edges),
        _ => Ok(()),
    }
}

// The edges of two points that are equal.
fn push_equal(from: Point, to: Point, edges: &mut Vec<NamedEdge>) -> Result<(), AllocError>
    ensures { OnOk result (edges.new.items ≡ edges.old.items ++ comparing_edges Eq from to) }
{
    let first = copy_point(&from)?;
    let second = copy_point(&to)?;
    push_edge(edges, first, 0, second)?;
    push_edge(edges, to, 0, from)
}

// The edges of a claim on these parts of these tokens.
fn push_between(
    at: Listed<'_>,
    kind: Kind,
    one: TokenPart<'_>,
    other: TokenPart<'_>,
    edges: &mut Vec<NamedEdge>,
) -> Result<(), AllocError>
    ensures { OnOk result (AddsEdges (HasClaimEdges at.entry.model.now at.entry.decisions.now
        (record { kind = kind; arguments = part_of one.entry.token.now one.entry.part ∷ part_of other.entry.token.now other.entry.part ∷ [] }))
        edges.old.items edges.new.items) }
{
    let from = point_of(at.model, at.decisions, one.token, one.part)?;
    let to = point_of(at.model, at.decisions, other.token, other.part)?;
    push_if_both(kind, from, to, edges)
}

/// The edges of two points that are compared, where both are there.
pub fn push_if_both(
    kind: Kind,
    from: Option<Point>,
    to: Option<Point>,
    edges: &mut Vec<NamedEdge>,
) -> Result<(), AllocError>
    ensures both { (one other : Instant) → from ≡ Some one → to ≡ Some other
        → OnOk result (edges.new.items ≡ edges.old.items ++ comparing_edges kind one other) }
    ensures not_both { (from ≡ None) ⊎ (to ≡ None) → OnOk result (edges.new.items ≡ edges.old.items) }
{
    match from {
        Some(one) => match to {
            Some(other) => push_compared(kind, one, other, edges),
            None => Ok(()),
        },
        None => Ok(()),
    }
}

// The part of one of the two tokens that the moment is.
fn part_at<'a>(one: &'a TokenName, other: &'a TokenName, moment: Moment) -> TokenPart<'a>
    ensures { part_of result.token.now result.part ≡ moment_of one.now other.now moment }
{
    match moment {
        Moment::Start => TokenPart {
            token: one,
            part: Part::Start,
        },
        Moment::End => TokenPart {
            token: one,
            part: Part::End,
        },
        Moment::OtherStart => TokenPart {
            token: other,
            part: Part::Start,
        },
        Moment::OtherEnd => TokenPart {
            token: other,
            part: Part::End,
        },
    }
}

// The edges of what is claimed of moments of the two tokens.
fn push_comparison(
    at: Listed<'_>,
    one: &TokenName,
    other: &TokenName,
    comparison: Comparison,
    edges: &mut Vec<NamedEdge>,
) -> Result<(), AllocError>
    ensures { OnOk result (AddsEdges (HasClaimEdges at.entry.model.now at.entry.decisions.now (compares one.now other.now comparison))
        edges.old.items edges.new.items) }
{
    match comparison {
        Comparison::AtMost(first, second) => {
            let from = part_at(one, other, first);
            let to = part_at(one, other, second);
            push_between(at, Kind::Leq, from, to, edges)
        }
        Comparison::Equal(first, second) => {
            let from = part_at(one, other, first);
            let to = part_at(one, other, second);
            push_between(at, Kind::Eq, from, to, edges)
        }
    }
}

// The edges of all that is claimed of the two tokens.
fn push_comparisons(
    at: Listed<'_>,
    one: &TokenName,
    other: &TokenName,
    comparisons: &[Comparison],
    edges: &mut Vec<NamedEdge>,
) -> Result<(), AllocError>
    ensures { OnOk result (AddsEdges
        (AppendsEach (HasClaimEdges at.entry.model.now at.entry.decisions.now) (comparisons_claim one.now other.now comparisons.now))
        edges.old.items edges.new.items) }
{
    for comparison in comparisons {
        push_comparison(at, one, other, *comparison, edges)?;
    }
    Ok(())
}

/// The edges of a relation between the two tokens.
pub fn push_relation(
    at: Listed<'_>,
    rel: Rel,
    one: &TokenName,
    other: &TokenName,
    edges: &mut Vec<NamedEdge>,
) -> Result<(), AllocError>
    ensures { OnOk result (AddsEdges
        (AppendsEach (HasClaimEdges at.entry.model.now at.entry.decisions.now) (relates rel one.now other.now))
        edges.old.items edges.new.items) }
{
    push_comparisons(at, one, other, comparisons(rel), edges)
}

// The edges of a relation between the token and that of a slot of its rule.
fn relation_edges(
    at: Listed<'_>,
    token: &TokenName,
    rule: u16,
    rel: Rel,
    slot: u16,
    edges: &mut Vec<NamedEdge>,
) -> Result<(), AllocError>
    ensures { OnOk result (AddsEdges
        (AppendsEach (HasClaimEdges at.entry.model.now at.entry.decisions.now) (relates rel token.now (slot_token token.now rule slot)))
        edges.old.items edges.new.items) }
{
    let other = slot_name(token, rule, slot)?;
    push_relation(at, rel, token, &other, edges)
}

// The part of a token that the term means in a rule.
fn part_in_rule(
    alloc: Global,
    token: &TokenName,
    rule: u16,
    term: Term,
) -> Result<Option<NamedPart>, AllocError>
    requires { HasShortSlot term }
    ensures { IfOk result (λ found. MatchOption found
        ((other : Name) (part : Which) → Means (InRule token.now rule) term (Variable (Token other part)) → ⊥)
        (IsNamedPart (InRule token.now rule) term)) }
{
    match term {
        Term::Here(part) => Ok(Some(NamedPart {
            token: token.copy()?,
            part,
        })),
        Term::Slot(slot, part) => Ok(Some(NamedPart {
            token: slot_name(token, rule, slot as u16)?,
            part,
        })),
        Term::Root(number, part) => Ok(Some(part_of_root(alloc, number, part))),
        Term::Lit(_) | Term::Local(_) | Term::Global(_) => Ok(None),
    }
}

// A part of the root of this number.
fn part_of_root(alloc: Global, number: u32, part: Part) -> NamedPart
    ensures token { result.token ≡ root_token number }
    ensures part { result.part ≡ part }
{
    NamedPart {
        token: TokenName {
            root: number,
            steps: Sequence::new(alloc),
        },
        part,
    }
}

// The part of a token that the term means where it is read.
fn part_meant(alloc: Global, site: Site<'_>, term: Term) -> Result<Option<NamedPart>, AllocError>
    requires { HasShortSlot term }
    ensures { IfOk result (λ found. MatchOption found
        ((other : Name) (part : Which) → Means (context_at site.entry) term (Variable (Token other part)) → ⊥)
        (IsNamedPart (context_at site.entry) term)) }
{
    match site {
        Site::Problem => match term {
            Term::Root(number, part) => Ok(Some(part_of_root(alloc, number, part))),
            _ => Ok(None),
        },
        Site::Rule { token, rule } => part_in_rule(alloc, token, rule, term),
    }
}

// The point that the term means where it is read.
fn point_meant(
    alloc: Global,
    at: Listed<'_>,
    site: Site<'_>,
    term: Term,
) -> Result<Option<Point>, AllocError>
    requires { HasShortSlot term }
    ensures { IfOk result (λ found. MatchOption found
        ((point : Instant) → IsTermPoint at.entry.model.now at.entry.decisions.now (context_at site.entry) term point → ⊥)
        (IsTermPoint at.entry.model.now at.entry.decisions.now (context_at site.entry) term)) }
{
    match part_meant(alloc, site, term)? {
        Some(named) => point_of(at.model, at.decisions, &named.token, named.part),
        None => Ok(None),
    }
}

// The edges of a constraint where it is read.
fn constraint_edges(
    alloc: Global,
    at: Listed<'_>,
    site: Site<'_>,
    kind: Kind,
    terms: &[Term],
    edges: &mut Vec<NamedEdge>,
) -> Result<(), AllocError>
    requires { All HasShortSlot terms.now }
    ensures { OnOk result (AddsEdges
        (HasConstraintEdges at.entry.model.now at.entry.decisions.now (context_at site.entry) (Constraint kind terms.now))
        edges.old.items edges.new.items) }
{
    if terms.len() != 2 {
        return Ok(());
    }
    let from = point_meant(alloc, at, site, terms[0])?;
    let to = point_meant(alloc, at, site, terms[1])?;
    push_if_both(kind, from, to, edges)
}

/// The edges of an item where it is read, if it is a constraint.
pub fn constrained(
    alloc: Global,
    at: Listed<'_>,
    site: Site<'_>,
    item: &Item,
    edges: &mut Vec<NamedEdge>,
) -> Result<(), AllocError>
    requires { HasShortSlots item.now }
    ensures { OnOk result (AddsEdges
        (HasConstraintEdges at.entry.model.now at.entry.decisions.now (context_at site.entry) item.now)
        edges.old.items edges.new.items) }
{
    match item {
        Item::Constraint(kind, terms) => {
            constraint_edges(alloc, at, site, *kind, terms.as_slice(), edges)
        }
        Item::Relation(_, _) => Ok(()),
    }
}

/// The edges of an item of a rule of the token, if it is a relation.
pub fn related(
    at: Listed<'_>,
    token: &TokenName,
    rule: u16,
    item: &Item,
    edges: &mut Vec<NamedEdge>,
) -> Result<(), AllocError>
    requires { HasShortSlots item.now }
    ensures { OnOk result (AddsEdges
        (HasRelationEdges at.entry.model.now at.entry.decisions.now token.now rule item.now)
        edges.old.items edges.new.items) }
{
    match item {
        Item::Relation(rel, slot) => relation_edges(at, token, rule, *rel, *slot as u16, edges),
        Item::Constraint(_, _) => Ok(()),
    }
}
