//! Decisions that are taken up.

ghost use Rattle.std.specs.Prelude.{◌≡◌, ◌++◌, [], ◌∷◌, ℕ, List, length, Some, slice_get, Contains, MatchOption, IfOk, OnOk, Err};
ghost use Rattle.eu_name.specs.declared.name.Part.{Part as TokenPart};
ghost use Rattle.eu_name.specs.declared.name.TokenName.{TokenName as Name};
ghost use Rattle.eu_name.specs.declared.name.VarName.TheVariants.{Token};
ghost use Rattle.model_core.specs.declared.decision.Decision.{Decision as Chosen};
ghost use Rattle.model_core.specs.Lawful.{IsLawful};
ghost use Rattle.token_store.specs.Tokens.{tokens_now};
ghost use Rattle.constraint_net.specs.declared.NetFault.TheVariants.{Collapsed};
ghost use Rattle.model_core.specs.Content.{IsContent};
ghost use Rattle.db_refine.specs.Growth.{LeaveNothing};
ghost use Rattle.db_refine.specs.Coming.{TakesToken};
ghost use Rattle.db_store.specs.declared.key.VarKey.TheVariants as key;
ghost use Rattle.db_store.specs.StoreMarks.{KeepStoreMarks};
ghost use Rattle.db_posting.specs.Origins.{content_now};
ghost use Rattle.db_posting.specs.Tables.{HaveTables};
ghost use Rattle.db_posting.specs.Underway.{IsStoreUnderway};
ghost use Rattle.db_posting.specs.Wanted.{ArePreds};
ghost use Rattle.db_decide.specs.TakingUp.{MayFollow, TakesUp};

use super::activate::activate;
use super::constrain::constrain;
use super::merge::merge;
use super::order::order;
use super::reject::reject;
use super::relate::relate;
use super::specify::specify;
use constraint_net::NetFault;
use db_opening::parts_of;
use db_posting::place_of;
use db_store::{Store, VarKey};
use eu_name::name::{Part, TokenName};
use model_core::decision::Decision;
use model_core::model::Model;
use std::alloc::{AllocError, Global};

// Takes the decision up, by its kind.
fn take_decision(
    alloc: Global,
    store: &mut Store,
    model: &Model,
    decision: &Decision,
) -> Result<(), NetFault>
    requires lawful { IsLawful model.now }
    requires tables { HaveTables model.now store.old.net.tables }
    requires may { (decisions : List Chosen) × MayFollow model.now decisions store.old decision.now }
    ensures takes { TakesUp model.now decision.now store.old result store.new }
    ensures marks { KeepStoreMarks store.old store.new }
{
    match decision {
        Decision::Specify(variable, value) => specify(store, variable, *value),
        Decision::Activate(token) => activate(alloc, store, model, token),
        Decision::Merge(token, target) => merge(alloc, store, model, token, target),
        Decision::Reject(token) => reject(store, token),
        Decision::Order(first, second) => order(store, first, second),
        Decision::Constrain(kind, arguments) => {
            constrain(alloc, store, *kind, arguments.as_slice())
        }
        Decision::Relate(relation, first, second) => relate(store, *relation, first, second),
    }
}

// Puts the number behind the others, if there is one.
fn push_found(numbers: &mut Vec<usize>, found: Option<usize>) -> Result<(), AllocError>
    ensures { OnOk result (MatchOption found
        (numbers.new.items ≡ numbers.old.items)
        (λ number. numbers.new.items ≡ numbers.old.items ++ number ∷ [])) }
{
    if let Some(number) = found {
        numbers.push(number)?;
    }
    Ok(())
}

// The numbers of these parts of the token at the place, as far as they are there.
fn numbers_of(
    alloc: Global,
    store: &Store,
    place: u32,
    parts: &[Part],
) -> Result<Vec<usize>, AllocError>
    ensures { IfOk result (λ numbers. (part : TokenPart) (number : ℕ) → Contains parts.now part
        → slice_get store.now.keys number ≡ Some (key.Part place part) → Contains numbers.items number) }
{
    store.is_sound();
    let mut numbers = Vec::new(alloc);
    for part in parts {
        push_found(
            &mut numbers,
            store.find_variable(VarKey::Part(place, *part)),
        )?;
    }
    Ok(numbers)
}

// The numbers of the parts of the token.
fn parts_due(
    alloc: Global,
    store: &Store,
    model: &Model,
    token: &TokenName,
) -> Result<Vec<usize>, AllocError>
    requires lawful { IsLawful model.now }
    requires there { Contains (content_now store.now).tokens token.now }
    requires content { IsContent model.now (content_now store.now) }
    requires preds { ArePreds model.now (tokens_now store.now.past) }
    ensures { IfOk result (λ numbers. (part : TokenPart) (number : ℕ)
        → slice_get (content_now store.now).names number ≡ Some (Token token.now part) → Contains numbers.items number) }
{
    store.is_sound();
    let place = place_of(store.tokens(), token);
    let Some(pred) = store.tokens().pred(place) else {
        unreachable!()
    };
    let parts = parts_of(alloc, model, pred)?;
    numbers_of(alloc, store, place, parts.as_slice())
}

// What is due once the decision is taken up, beside what is noted as changed.
fn due_after(
    alloc: Global,
    store: &Store,
    model: &Model,
    decision: &Decision,
) -> Result<Vec<usize>, AllocError>
    requires lawful { IsLawful model.now }
    requires there { (token : Name) → TakesToken decision.now token → Contains (content_now store.now).tokens token }
    requires content { IsContent model.now (content_now store.now) }
    requires preds { ArePreds model.now (tokens_now store.now.past) }
    ensures { IfOk result (λ due. (token : Name) (part : TokenPart) (number : ℕ) → TakesToken decision.now token
        → slice_get (content_now store.now).names number ≡ Some (Token token part) → Contains due.items number) }
{
    match decision {
        Decision::Activate(token) => parts_due(alloc, store, model, token),
        Decision::Merge(token, _) => parts_due(alloc, store, model, token),
        _ => Ok(Vec::new(alloc)),
    }
}

/// Takes the decision up behind those after which the store is at rest, and answers the variables that are due beside
/// those that the network notes as changed: the blocks that were there are unfolded then.
pub fn take_up(
    alloc: Global,
    store: &mut Store,
    model: &Model,
    decision: &Decision,
) -> Result<Vec<usize>, NetFault>
    requires lawful { IsLawful model.now }
    requires tables { HaveTables model.now store.old.net.tables }
    requires may { (decisions : List Chosen) × MayFollow model.now decisions store.old decision.now }
    ensures ok { IfOk result (λ due. (decisions : List Chosen) → MayFollow model.now decisions store.old decision.now
        → let longer = decisions ++ decision.now ∷ [] in
        IsStoreUnderway model.now longer longer store.new (length store.old.blocks) (due.items ++ store.new.net.changed)) }
    ensures collapsed { result ≡ Err Collapsed → (decisions : List Chosen) → MayFollow model.now decisions store.old decision.now
        → LeaveNothing model.now (decisions ++ decision.now ∷ []) }
    ensures marks { KeepStoreMarks store.old store.new }
{
    take_decision(alloc, store, model, decision)?;
    let due = due_after(alloc, store, model, decision)?;
    Ok(due)
}
