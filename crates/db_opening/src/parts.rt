//! The variables that come with a token: its parts, each with the base that its slot or its predicate gives.

ghost use Rattle.std.specs.Prelude.{◌≡◌, ◌↔◌, ◌<◌, ℕ, pos, ◌-ℤ◌, length, All, IfOk, Err, option_copied};
ghost use Rattle.domain_core.specs.Domain.{Range};
ghost use Rattle.model_core.specs.declared.rule.Slot.{Slot};
ghost use Rattle.model_core.specs.declared.variable.Base.{Base as Declared};
ghost use Rattle.model_core.specs.declared.variable.Base.TheVariants.{Given, Void};
ghost use Rattle.model_core.specs.declared.variable.VarDecl.{VarDecl};
ghost use Rattle.model_core.specs.Lawful.{IsLawful};
ghost use Rattle.model_core.specs.Variables.{HasParameter, HasPartBase};
ghost use Rattle.constraint_net.specs.declared.NetFault.TheVariants.{Collapsed};
ghost use Rattle.token_store.specs.Tokens.{tokens_now};
ghost use Rattle.db_store.specs.StoreMarks.{KeepStoreMarks};
ghost use Rattle.db_opening.specs.Bringing.{Brings};
ghost use Rattle.db_opening.specs.Parts.{base_given, slot_asked, WantsPart, WantsParts, ArePartsOf};

use super::variables::base_of;
use constraint_net::NetFault;
use db_store::{Store, VarKey};
use domain_core::domain::Dom;
use eu_name::name::Part;
use model_core::model::Model;
use model_core::variable::Base;
use std::alloc::{AllocError, Global};

/// What asks for a token: its predicate, and the objects that it may be on, if there are any.
#[derive(Clone, Copy)]
pub struct Asked<'a> {
    pub pred: u32,
    pub object: Option<&'a Dom>,
}

/// The domain that the base gives. None where it is void.
pub fn given_by(base: &Base) -> Option<&Dom>
    ensures { base_given (option_copied result) ≡ base.now }
{
    match base {
        Base::Given(domain) => Some(domain),
        Base::Void => None,
    }
}

// How many parameters a token of the predicate has.
fn parameter_count(model: &Model, pred: u32) -> u16
    requires { IsLawful model.now }
    ensures { (number : ℕ)
        → number < result ↔ ((variable : VarDecl) × HasParameter model.now pred number variable) }
{
    match model.preds.as_slice().get(pred as usize) {
        Some(found) => found.params.len() as u16,
        None => 0,
    }
}

/// The parts that a token of the predicate has.
pub fn parts_of(alloc: Global, model: &Model, pred: u32) -> Result<Vec<Part>, AllocError>
    requires { IsLawful model.now }
    ensures { IfOk result (λ parts. (slot : Slot) → slot.pred ≡ pred → ArePartsOf model.now slot parts.items) }
{
    let of_all = [Part::Start, Part::End, Part::Duration, Part::Object];
    let mut parts = Vec::from_slice(alloc, &of_all)?;
    for number in 0..parameter_count(model, pred) {
        parts.push(Part::Param(number))?;
    }
    Ok(parts)
}

// The instants at which a token may start and end.
fn horizon_of(model: &Model) -> Dom
    requires { IsLawful model.now }
    ensures { result ≡ Range model.now.problem.start model.now.problem.end }
{
    match Dom::range(model.problem.start, model.problem.end) {
        Some(instants) => instants,
        None => unreachable!(),
    }
}

// How long a token may last.
fn durations_of(model: &Model) -> Dom
    requires { IsLawful model.now }
    ensures { result ≡ Range (pos 1) (model.now.problem.end -ℤ model.now.problem.start) }
{
    match Dom::range(1, model.problem.end - model.problem.start) {
        Some(durations) => durations,
        None => unreachable!(),
    }
}

// The base that the predicate's parameter is declared with.
fn parameter_base(model: &Model, pred: u32, number: u16) -> &Base
    requires { (variable : VarDecl) × HasParameter model.now pred number variable }
    ensures { (variable : VarDecl) → HasParameter model.now pred number variable → result.now ≡ variable.base }
{
    let params = model.preds.as_slice()[pred as usize].params.as_slice();
    &params[usize::from(number)].base
}

// The objects that a token may be on, in memory of its own.
fn objects_of(asked: &Asked) -> Result<Dom, NetFault>
    ensures given { IfOk result (λ domain. (slot_asked asked.now).object ≡ Given domain) }
    ensures void { result ≡ Err Collapsed → (slot_asked asked.now).object ≡ Void }
{
    match asked.object {
        Some(domain) => Ok(domain.copy()?),
        None => Err(NetFault::Collapsed),
    }
}

// The domain that the base of the part gives.
fn domain_of(model: &Model, asked: &Asked, part: Part) -> Result<Dom, NetFault>
    requires lawful { IsLawful model.now }
    requires there { (base : Declared) × HasPartBase model.now (slot_asked asked.now) part base }
    ensures given { IfOk result (λ domain. HasPartBase model.now (slot_asked asked.now) part (Given domain)) }
    ensures void { result ≡ Err Collapsed → HasPartBase model.now (slot_asked asked.now) part Void }
{
    match part {
        Part::Start | Part::End => Ok(horizon_of(model)),
        Part::Duration => Ok(durations_of(model)),
        Part::Object => objects_of(asked),
        Part::Param(number) => base_of(parameter_base(model, asked.pred, number)),
    }
}

// Adds a part of the token at the place.
fn bring_part(
    store: &mut Store,
    model: &Model,
    asked: &Asked,
    place: u32,
    part: Part,
) -> Result<(), NetFault>
    requires lawful { IsLawful model.now }
    requires token { place < length (tokens_now store.old.past) }
    requires there { (base : Declared) × HasPartBase model.now (slot_asked asked.now) part base }
    ensures brings { Brings (WantsPart model.now (slot_asked asked.now) place part) store.old result store.new }
    ensures marks { KeepStoreMarks store.old store.new }
{
    let domain = domain_of(model, asked, part)?;
    store.add_variable(VarKey::Part(place, part), domain)?;
    Ok(())
}

/// Adds these parts of the token at the place, for which this is asked.
pub fn bring_parts(
    store: &mut Store,
    model: &Model,
    asked: &Asked,
    place: u32,
    parts: &[Part],
) -> Result<(), NetFault>
    requires lawful { IsLawful model.now }
    requires token { place < length (tokens_now store.old.past) }
    requires are { All (λ part. (base : Declared) × HasPartBase model.now (slot_asked asked.now) part base) parts.now }
    ensures brings { Brings (WantsParts model.now (slot_asked asked.now) place parts.now) store.old result store.new }
    ensures marks { KeepStoreMarks store.old store.new }
{
    for part in parts {
        bring_part(store, model, asked, place, *part)?;
    }
    Ok(())
}
