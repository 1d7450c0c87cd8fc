//! Variables with the bases that they are declared with.

ghost use Rattle.std.specs.Prelude.{◌≡◌, ◌<◌, ℕ, length, All, IfOk, Err};
ghost use Rattle.eu_name.specs.declared.name.TokenName.{TokenName};
ghost use Rattle.eu_name.specs.declared.name.VarName.TheVariants.{Local};
ghost use Rattle.model_core.specs.declared.variable.Base.{Base as Declared};
ghost use Rattle.model_core.specs.declared.variable.Base.TheVariants.{Given, Void};
ghost use Rattle.constraint_net.specs.declared.NetFault.TheVariants.{Collapsed};
ghost use Rattle.token_store.specs.Tokens.{tokens_now};
ghost use Rattle.db_store.specs.Keys.{IsKeyBelow};
ghost use Rattle.db_store.specs.StoreMarks.{KeepStoreMarks};
ghost use Rattle.db_opening.specs.Bringing.{Brings};
ghost use Rattle.db_posting.specs.Wanted.{IsDeclaredLocal, WantsLocal, WantsLocals, IsNamedLocal};

use constraint_net::NetFault;
use db_store::{Store, VarKey};
use domain_core::domain::Dom;
use eu_name::name::VarName;
use model_core::model::Model;
use model_core::variable::Base;

/// A rule of the token at the place, by its number in the list of the token's predicate.
#[derive(Clone, Copy)]
pub struct RuleAt {
    pub token: u32,
    pub rule: u16,
}

/// The domain that the base gives, in memory of its own.
pub fn base_of(base: &Base) -> Result<Dom, NetFault>
    ensures given { IfOk result (λ domain. base.now ≡ Given domain) }
    ensures void { result ≡ Err Collapsed → base.now ≡ Void }
{
    match base {
        Base::Given(domain) => Ok(domain.copy()?),
        Base::Void => Err(NetFault::Collapsed),
    }
}

/// Adds a variable with its base, unless it is there.
pub fn bring_variable(store: &mut Store, key: VarKey, base: &Base) -> Result<(), NetFault>
    requires below { IsKeyBelow (length (tokens_now store.old.past)) key }
    ensures brings { Brings (λ one of. (one ≡ key) × (of ≡ base.now)) store.old result store.new }
    ensures marks { KeepStoreMarks store.old store.new }
{
    let domain = base_of(base)?;
    store.add_variable(key, domain)?;
    Ok(())
}

// The number of the local of this name.
fn number_of(name: &VarName) -> u16
    requires { (owner : TokenName) × ((rule number : ℕ) × (name.now ≡ Local owner rule number)) }
    ensures { (owner : TokenName) (rule number : ℕ) → name.now ≡ Local owner rule number → result ≡ number }
{
    match name {
        VarName::Local { number, .. } => *number,
        _ => unreachable!(),
    }
}

// Adds a local of a rule of the token at the place, where the token is of this predicate.
fn bring_local(
    store: &mut Store,
    model: &Model,
    pred: u32,
    at: RuleAt,
    number: u16,
) -> Result<(), NetFault>
    requires token { at.token < length (tokens_now store.old.past) }
    requires declared { (base : Declared) × IsDeclaredLocal model.now pred at.rule number base }
    ensures brings { Brings (WantsLocal model.now pred at.token at.rule number) store.old result store.new }
    ensures marks { KeepStoreMarks store.old store.new }
{
    let RuleAt { token, rule } = at;
    match model.local_of(pred, rule, number) {
        Some(variable) => {
            let key = VarKey::Local {
                token,
                rule,
                number,
            };
            bring_variable(store, key, &variable.base)
        }
        None => unreachable!(),
    }
}

/// Adds the locals of these names, which are those of a rule of the token at the place, where it is of this predicate.
pub fn bring_locals(
    store: &mut Store,
    model: &Model,
    pred: u32,
    at: RuleAt,
    locals: &[VarName],
) -> Result<(), NetFault>
    ghost owner: { TokenName }
    requires token { at.token < length (tokens_now store.old.past) }
    requires are { All (IsNamedLocal model.now pred at.rule owner) locals.now }
    ensures brings { Brings (WantsLocals model.now pred at.token at.rule owner locals.now)
        store.old result store.new }
    ensures marks { KeepStoreMarks store.old store.new }
{
    for local in locals {
        bring_local(store, model, pred, at, number_of(local))?;
    }
    Ok(())
}
