//! Items, tokens and what decisions post as constraints.

ghost use Rattle.std.specs.Prelude.{◌≡◌, List, length, All, Contains, IsTrue, OnOk};
ghost use Rattle.eu_name.specs.declared.name.Part.TheVariants as parts;
ghost use Rattle.eu_name.specs.declared.name.TokenName.{TokenName};
ghost use Rattle.model_core.specs.declared.item.Item.TheVariants.{Relation};
ghost use Rattle.model_core.specs.Tokens.{slot_token};
ghost use Rattle.token_store.specs.Orders.{name_at};
ghost use Rattle.token_store.specs.Tokens.{tokens_now};
ghost use Rattle.plan_defs.specs.Claims.{at_most, equal, lasts, posted_claim, relates};
ghost use Rattle.db_refine.specs.Claims.{IsPostedIn};
ghost use Rattle.db_refine.specs.Coming.{IsTermThere};
ghost use Rattle.db_store.specs.StoreMarks.{KeepStoreMarks};
ghost use Rattle.db_store.specs.Stores.{Stored};
ghost use Rattle.db_posting.specs.Origins.{content_now, origin_context, IsOriginBelow, argument_named};
ghost use Rattle.db_posting.specs.Terms.{HasTimes, HasPartAt, HasTimesAt};
ghost use Rattle.db_posting.specs.Postable.{CanPostTerms, CanPostItem, CanPostArguments, IsItemNamed, IsArgumentThere};
ghost use Rattle.db_posting.specs.Posted.{PostsClaims, OnlyPosts, AssertsOf, Asserts};
ghost use Rattle.db_posting.specs.Posted.{moment_of, compares, comparisons_claim};

use super::arguments::{arguments_of, part_argument, slot_place};
use super::named::named_arguments;
use super::origin::{Origin, PartAt};
use super::relations::{Comparison, Moment, comparisons};
use db_store::Store;
use domain_core::kind::Kind;
use eu_name::name::Part;
use model_core::decision::ConArg;
use model_core::item::{Item, Rel, Term};
use std::alloc::{AllocError, Global};

/// Asks from now on that the constraint holds of what the terms mean where they stand.
pub fn post_constraint(
    alloc: Global,
    store: &mut Store,
    origin: Origin,
    kind: Kind,
    terms: &[Term],
) -> Result<(), AllocError>
    requires origin { IsOriginBelow (length (tokens_now store.old.past)) origin }
    requires postable { CanPostTerms store.old.net.tables (origin_context (content_now store.old).tokens origin) kind terms.now }
    requires there { let content = content_now store.old in
        All (IsTermThere content (origin_context content.tokens origin)) terms.now }
    ensures posted { OnOk result (let content = content_now store.old in
        PostsClaims content.names (AssertsOf (origin_context content.tokens origin) kind terms.now)
        store.old.net.constraints store.new.net.constraints) }
    ensures only { OnlyPosts store.old store.new }
    ensures marks { KeepStoreMarks store.old store.new }
{
    store.is_sound();
    let args = arguments_of(alloc, store, origin, terms)?;
    store.post(kind, args.as_slice())
}

/// Asks from now on that the constraint holds of the variables of these names, and of the values.
pub fn post_arguments(
    alloc: Global,
    store: &mut Store,
    kind: Kind,
    arguments: &[ConArg],
) -> Result<(), AllocError>
    requires postable { CanPostArguments kind arguments.now }
    requires there { All (IsArgumentThere (content_now store.old)) arguments.now }
    ensures posted { OnOk result (PostsClaims (content_now store.old).names (λ claim. claim ≡ posted_claim kind arguments.now)
        store.old.net.constraints store.new.net.constraints) }
    ensures only { OnlyPosts store.old store.new }
    ensures marks { KeepStoreMarks store.old store.new }
{
    store.is_sound();
    let args = named_arguments(alloc, store, arguments)?;
    store.post(kind, args.as_slice())
}

/// Asks from now on that the one part is at most the other.
pub fn post_at_most(store: &mut Store, one: PartAt, other: PartAt) -> Result<(), AllocError>
    requires one { HasPartAt store.old one }
    requires other { HasPartAt store.old other }
    ensures posted { OnOk result (let content = content_now store.old in
        PostsClaims content.names
        (λ claim. claim ≡ at_most (argument_named content.tokens one) (argument_named content.tokens other))
        store.old.net.constraints store.new.net.constraints) }
    ensures only { OnlyPosts store.old store.new }
    ensures marks { KeepStoreMarks store.old store.new }
{
    store.is_sound();
    let args = [part_argument(store, one), part_argument(store, other)];
    store.post(Kind::Leq, &args)
}

/// Whether it is known that the one part is asked to be at most the other, as `post_at_most` asks it. Where it isn't known, it may
/// be asked even so.
pub fn is_known_at_most(store: &Store, one: PartAt, other: PartAt) -> bool
    requires one { HasPartAt store.now one }
    requires other { HasPartAt store.now other }
    ensures { IsTrue result → (let content = content_now store.now in
        IsPostedIn content.names store.now.net.constraints
        (at_most (argument_named content.tokens one) (argument_named content.tokens other))) }
{
    store.is_sound();
    let args = [part_argument(store, one), part_argument(store, other)];
    store.net().is_known(Kind::Leq, &args)
}

/// Asks from now on that the two parts are equal.
pub fn post_equal(store: &mut Store, one: PartAt, other: PartAt) -> Result<(), AllocError>
    requires one { HasPartAt store.old one }
    requires other { HasPartAt store.old other }
    ensures posted { OnOk result (let content = content_now store.old in
        PostsClaims content.names
        (λ claim. claim ≡ equal (argument_named content.tokens one) (argument_named content.tokens other))
        store.old.net.constraints store.new.net.constraints) }
    ensures only { OnlyPosts store.old store.new }
    ensures marks { KeepStoreMarks store.old store.new }
{
    store.is_sound();
    let args = [part_argument(store, one), part_argument(store, other)];
    store.post(Kind::Eq, &args)
}

/// Asks from now on that the token at the place starts, lasts for its duration and then ends.
pub fn post_lasts(store: &mut Store, token: u32) -> Result<(), AllocError>
    requires times { HasTimesAt store.old token }
    requires duration { HasPartAt store.old (record { token = token; part = parts.Duration }) }
    ensures posted { OnOk result (let content = content_now store.old in
        PostsClaims content.names (λ claim. claim ≡ lasts (name_at content.tokens token))
        store.old.net.constraints store.new.net.constraints) }
    ensures only { OnlyPosts store.old store.new }
    ensures marks { KeepStoreMarks store.old store.new }
{
    store.is_sound();
    let args = [
        part_argument(
            store,
            PartAt {
                token,
                part: Part::Start,
            },
        ),
        part_argument(
            store,
            PartAt {
                token,
                part: Part::Duration,
            },
        ),
        part_argument(
            store,
            PartAt {
                token,
                part: Part::End,
            },
        ),
    ];
    store.post(Kind::AddEq, &args)
}

// The part of one of the two tokens that the moment is.
fn part_at(one: u32, other: u32, moment: Moment) -> PartAt
    ensures is { (names : List TokenName)
        → argument_named names result ≡ moment_of (name_at names one) (name_at names other) moment }
    ensures there { (stored : Stored) → HasTimesAt stored one → HasTimesAt stored other → HasPartAt stored result }
{
    match moment {
        Moment::Start => PartAt {
            token: one,
            part: Part::Start,
        },
        Moment::End => PartAt {
            token: one,
            part: Part::End,
        },
        Moment::OtherStart => PartAt {
            token: other,
            part: Part::Start,
        },
        Moment::OtherEnd => PartAt {
            token: other,
            part: Part::End,
        },
    }
}

// Asks from now on for what is claimed of moments of the tokens at the two places.
fn post_comparison(
    store: &mut Store,
    one: u32,
    other: u32,
    comparison: Comparison,
) -> Result<(), AllocError>
    requires one { HasTimesAt store.old one }
    requires other { HasTimesAt store.old other }
    ensures posted { OnOk result (let content = content_now store.old in
        PostsClaims content.names
        (λ claim. claim ≡ compares (name_at content.tokens one) (name_at content.tokens other) comparison)
        store.old.net.constraints store.new.net.constraints) }
    ensures only { OnlyPosts store.old store.new }
    ensures marks { KeepStoreMarks store.old store.new }
{
    match comparison {
        Comparison::AtMost(first, second) => {
            post_at_most(
                store,
                part_at(one, other, first),
                part_at(one, other, second),
            )
        }
        Comparison::Equal(first, second) => {
            post_equal(
                store,
                part_at(one, other, first),
                part_at(one, other, second),
            )
        }
    }
}

// Asks from now on for what is claimed of the tokens at the two places.
fn post_comparisons(
    store: &mut Store,
    one: u32,
    other: u32,
    comparisons: &[Comparison],
) -> Result<(), AllocError>
    requires one { HasTimesAt store.old one }
    requires other { HasTimesAt store.old other }
    ensures posted { OnOk result (let content = content_now store.old in
        PostsClaims content.names (Contains (comparisons_claim (name_at content.tokens one) (name_at content.tokens other) comparisons.now))
        store.old.net.constraints store.new.net.constraints) }
    ensures only { OnlyPosts store.old store.new }
    ensures marks { KeepStoreMarks store.old store.new }
{
    for comparison in comparisons {
        post_comparison(store, one, other, *comparison)?;
    }
    Ok(())
}

/// Asks from now on that the relation holds between the tokens at the two places.
pub fn post_relation_between(
    store: &mut Store,
    one: u32,
    other: u32,
    rel: Rel,
) -> Result<(), AllocError>
    requires one { HasTimesAt store.old one }
    requires other { HasTimesAt store.old other }
    ensures posted { OnOk result (let content = content_now store.old in
        PostsClaims content.names (Contains (relates rel (name_at content.tokens one) (name_at content.tokens other)))
        store.old.net.constraints store.new.net.constraints) }
    ensures only { OnlyPosts store.old store.new }
    ensures marks { KeepStoreMarks store.old store.new }
{
    post_comparisons(store, one, other, comparisons(rel))
}

// Asks from now on that the relation holds between the token at the place and that of a slot of its rule.
fn post_relation(
    store: &mut Store,
    token: u32,
    rule: u16,
    slot: u16,
    rel: Rel,
) -> Result<(), AllocError>
    requires token { HasTimesAt store.old token }
    requires slot { let content = content_now store.old in
        HasTimes content (slot_token (name_at content.tokens token) rule slot) }
    ensures posted { OnOk result (let content = content_now store.old in let name = name_at content.tokens token in
        PostsClaims content.names (Contains (relates rel name (slot_token name rule slot)))
        store.old.net.constraints store.new.net.constraints) }
    ensures only { OnlyPosts store.old store.new }
    ensures marks { KeepStoreMarks store.old store.new }
{
    store.is_sound();
    let other = slot_place(store.tokens(), token, rule, slot)?;
    post_relation_between(store, token, other, rel)
}

/// Asks from now on that the item holds where it stands, whether or not what it is about counts.
pub fn post_item(
    alloc: Global,
    store: &mut Store,
    origin: Origin,
    item: &Item,
) -> Result<(), AllocError>
    requires origin { IsOriginBelow (length (tokens_now store.old.past)) origin }
    requires postable { CanPostItem store.old.net.tables (origin_context (content_now store.old).tokens origin) item.now }
    requires there { let content = content_now store.old in
        IsItemNamed content (origin_context content.tokens origin) item.now }
    ensures posted { OnOk result (let content = content_now store.old in
        PostsClaims content.names (Asserts (origin_context content.tokens origin) item.now)
        store.old.net.constraints store.new.net.constraints) }
    ensures only { OnlyPosts store.old store.new }
    ensures marks { KeepStoreMarks store.old store.new }
{
    match item {
        Item::Constraint(kind, terms) => {
            post_constraint(alloc, store, origin, *kind, terms.as_slice())
        }
        Item::Relation(rel, slot) => post_relation_from(store, origin, *slot, *rel),
    }
}

// Asks from now on that the relation holds where it stands.
fn post_relation_from(
    store: &mut Store,
    origin: Origin,
    slot: u32,
    rel: Rel,
) -> Result<(), AllocError>
    requires origin { IsOriginBelow (length (tokens_now store.old.past)) origin }
    requires postable { CanPostItem store.old.net.tables (origin_context (content_now store.old).tokens origin) (Relation rel slot) }
    requires there { let content = content_now store.old in
        IsItemNamed content (origin_context content.tokens origin) (Relation rel slot) }
    ensures posted { OnOk result (let content = content_now store.old in
        PostsClaims content.names (Asserts (origin_context content.tokens origin) (Relation rel slot))
        store.old.net.constraints store.new.net.constraints) }
    ensures only { OnlyPosts store.old store.new }
    ensures marks { KeepStoreMarks store.old store.new }
{
    match origin {
        Origin::Rule { token, rule } => post_relation(store, token, rule, slot as u16, rel),
        Origin::Problem => unreachable!(),
    }
}
