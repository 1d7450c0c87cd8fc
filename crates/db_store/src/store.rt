//! The store.

ghost use Rattle.std.specs.Prelude.{◌≡◌, ℕ, ◌^◌, ◌<◌, ◌≤◌, [], ◌∷◌, ◌++◌, length, option_copied, slice_get};
ghost use Rattle.std.specs.Prelude.{Contains, IfOk, OnOk, OnErr, MatchOption};
ghost use Rattle.domain_core.specs.Domain.{Domain, IsDomain};
ghost use Rattle.token_store.specs.Tokens.{tokens_now, with_state};
ghost use Rattle.constraint_net.specs.Calls.{IsAscending, table_of, AddsVar, Limits, Posts, GoesDown, TakesChanged};
ghost use Rattle.constraint_net.specs.Networks.{CanPost, AllConsistent, IsIdle};
ghost use Rattle.constraint_net.specs.Steps.{PropagatesTo};
ghost use Rattle.db_store.specs.Keys.{IsKeyBelow};
ghost use Rattle.db_store.specs.Stores.{Snapshot, snapshot_of, IsSnapshot, blocks_watching, variable_names};
ghost use Rattle.db_store.specs.Puts.{FindsItem, PutsToken, PutsVariable, PutsBlock, ChangesNet};
ghost use Rattle.db_store.specs.Stamps.{HasStamp};
ghost use Rattle.db_store.specs.StoreMarks.{IsStoreMark, IsMarkBefore, IsIdleMark, CanGoBack, KeepStoreMarks, GoesBackTo, AreTouched, with_mark};
ghost use Rattle.db_store.specs.Finding.{FindsKey, AddsKey};

use super::items::{find, put_item};
use super::key::{OpenBlock, VarKey};
use super::keys::Keys;
use super::laws::keys_are_told_apart;
use super::watchers::Watchers;
use constraint_net::laws::marks_stay;
use constraint_net::{Mark as NetMark, Net, NetArg, NetFault};
use domain_core::Change;
use domain_core::domain::Dom;
use domain_core::kind::Kind;
use domain_core::laws::within_is_an_order;
use eu_name::name::{TokenName, VarName};
use indexmap::IndexSet;
use model_core::view::TokenState;
use std::alloc::{AllocError, Global};
use std::marker::Model;
use token_store::{AddFault, Mark as TokenMark, Tokens};

/// Tokens, variables and open blocks, what watches what, and constraints on the variables.
#[derive(Drop)]
pub struct Store {
    tokens: Tokens,
    // The number of a key is that of its variable in the network.
    variables: Keys,
    blocks: IndexSet<OpenBlock>,
    watchers: Watchers,
    net: Net,
}

/// A point to which a store can go back, as long as it hasn't gone back to one before it.
#[derive(Clone, Copy)]
pub struct Mark {
    tokens: TokenMark,
    variables: usize,
    blocks: usize,
    watches: usize,
    net: NetMark,
}

impl Model for Store {
    ghost use Rattle.db_store.specs.Stores.{Stored, snapshot_of, IsSnapshot};
    ghost use Rattle.db_store.specs.Holding.{stored_of};

    ghost Value = { Stored };

    ghost view = { λ store. stored_of store.tokens store.variables store.blocks.keys store.watchers store.net };

    ghost invariant = { λ store. IsSnapshot (snapshot_of
        (stored_of store.tokens store.variables store.blocks.keys store.watchers store.net)) };
}

impl Store {
    /// A store with nothing in it, which takes no memory.
    pub fn new(alloc: Global) -> Store
        ensures { result ≡ record {
          past = [] ∷ [];
          keys = [];
          blocks = [];
          watches = [];
          net = record {
            domains = [];
            tables = [];
            constraints = [];
            work = 0;
            stamps = [];
            older = [];
            marked = 0;
            changed = [];
            quiet = 0;
          };
        } }
    {
        Store {
            tokens: Tokens::new(alloc),
            variables: Keys::new(alloc),
            blocks: IndexSet::new(alloc),
            watchers: Watchers::new(alloc),
            net: Net::new(alloc),
        }
    }

    /// A law of each store: nothing is in it twice, and all that it names is there.
    pub fn is_sound(&self)
        ensures { IsSnapshot (snapshot_of self.now) }
    {
        let _ = &self.net;
    }

    /// The tokens.
    pub fn tokens(&self) -> &Tokens
        ensures { result.now ≡ self.now.past }
    {
        &self.tokens
    }

    /// The network, whose variables have the numbers of the keys.
    pub fn net(&self) -> &Net
        ensures { result.now ≡ self.now.net }
    {
        &self.net
    }

    /// Adds a token, of which nothing is decided yet, and answers its place; None where there is one of this name.
    pub fn add_token(&mut self, name: TokenName, pred: u32) -> Result<Option<u32>, AllocError>
        ensures put { PutsToken name pred self.old result self.new }
        ensures marks { KeepStoreMarks self.old self.new }
    {
        match self.tokens.add(name, pred) {
            Ok(place) => Ok(Some(place)),
            Err(AddFault::Twice) => Ok(None),
            Err(AddFault::Memory) => Err(AllocError),
        }
    }

    /// Gives the token at the place a state.
    pub fn set_state(&mut self, place: u32, state: TokenState) -> Result<(), AllocError>
        requires { place < length (tokens_now self.old.past) }
        ensures ok { OnOk result (self.new
            ≡ record self.old { past = with_state (tokens_now self.old.past) place state ∷ self.old.past }) }
        ensures err { OnErr result (self.new ≡ self.old) }
        ensures marks { KeepStoreMarks self.old self.new }
    {
        self.tokens.set_state(place, state)
    }

    /// Adds a variable with this domain, and answers its number; None where there is one of this key.
    pub fn add_variable(&mut self, key: VarKey, domain: Dom) -> Result<Option<usize>, AllocError>
        requires { IsKeyBelow (length (tokens_now self.old.past)) key }
        ensures put { PutsVariable key domain self.old result self.new }
        ensures domain { IsDomain domain }
        ensures marks { KeepStoreMarks self.old self.new }
    {
        marks_stay();
        if self.variables.find(key).is_some() {
            return Ok(None);
        }
        let number = add_key(&mut self.variables, &mut self.net, key, domain)?;
        Ok(Some(number))
    }

    /// The number of the variable of this key.
    pub fn find_variable(&self, key: VarKey) -> Option<usize>
        ensures { FindsItem self.now.keys key result }
    {
        self.variables.find(key)
    }

    /// The number of the variable of this name.
    pub fn find_named(&self, name: &VarName) -> Option<usize>
        ensures { FindsItem (variable_names (snapshot_of self.now)) name.now result }
    {
        let key = key_of(&self.tokens, name)?;
        self.find_variable(key)
    }

    /// How often the domain of the variable of this name was written; the number stays at the greatest. None where there is no
    /// such variable.
    pub fn stamp(&self, name: &VarName) -> Option<u64>
        ensures { MatchOption result
            (Contains (variable_names (snapshot_of self.now)) name.now → ⊥)
            (λ stamp. (domain : Domain) × HasStamp self.now name.now domain stamp) }
    {
        let number = self.find_named(name)?;
        self.net.stamp(number)
    }

    /// The key of the variable of this number. None where there is no such variable.
    pub fn key_at(&self, number: usize) -> Option<VarKey>
        ensures { result ≡ slice_get self.now.keys number }
    {
        self.variables.get(number)
    }

    /// Adds an open block, and answers its number; None where it is open already.
    pub fn add_block(&mut self, block: OpenBlock) -> Result<Option<usize>, AllocError>
        requires { block.token < length (tokens_now self.old.past) }
        ensures put { PutsBlock block self.old result self.new }
        ensures marks { KeepStoreMarks self.old self.new }
    {
        keys_are_told_apart();
        put_item(&mut self.blocks, block)
    }

    /// The number of the open block.
    pub fn find_block(&self, block: &OpenBlock) -> Option<usize>
        ensures { FindsItem self.now.blocks block.now result }
    {
        keys_are_told_apart();
        find(&self.blocks, block)
    }

    /// The open block of this number. None where there is no such block.
    pub fn block_at(&self, number: usize) -> Option<&OpenBlock>
        ensures { option_copied result ≡ slice_get self.now.blocks number }
    {
        self.blocks.get_index(number)
    }

    /// How many blocks are open.
    pub fn block_count(&self) -> usize
        ensures { result ≡ length self.now.blocks }
    {
        self.blocks.len()
    }

    /// Lets the block watch the variable.
    pub fn watch(&mut self, variable: usize, block: usize) -> Result<(), AllocError>
        requires variable { variable < length self.old.keys }
        requires block { block < length self.old.blocks }
        ensures ok { OnOk result (self.new
            ≡ record self.old { watches = self.old.watches ++ record { variable = variable; block = block } ∷ [] }) }
        ensures err { OnErr result (self.new ≡ self.old) }
        ensures marks { KeepStoreMarks self.old self.new }
    {
        self.watchers.add(variable, block)
    }

    /// The numbers of the blocks that watch the variable, in the order in which they came to watch it.
    pub fn watchers_of(&self, variable: usize) -> &[u32]
        ensures { result.now ≡ blocks_watching self.now.watches variable }
    {
        self.watchers.of(variable)
    }

    /// Adds a table of objects, each with its value in a field, and answers its number. A mark is one of the tables that
    /// there were: none is left by this call.
    pub fn add_table(&mut self, pairs: &[(i32, i32)]) -> Result<u32, AllocError>
        requires ascending { IsAscending pairs.now }
        requires few { length self.old.net.tables < 2 ^ 32 }
        ensures ok { IfOk result (λ number. (number ≡ length self.old.net.tables)
            × (self.new.net ≡ record self.old.net { tables = self.old.net.tables ++ table_of pairs.now ∷ [] })) }
        ensures err { OnErr result (self.new ≡ self.old) }
        ensures others { ChangesNet self.old self.new }
    {
        self.net.add_table(pairs)
    }

    /// Asks from now on that the constraint holds. No domain changes before `propagate`.
    pub fn post(&mut self, kind: Kind, args: &[NetArg]) -> Result<(), AllocError>
        requires { CanPost self.old.net.tables (length self.old.net.domains) kind args.now }
        ensures posted { Posts self.old.net kind args.now result self.new.net }
        ensures others { ChangesNet self.old self.new }
        ensures marks { KeepStoreMarks self.old self.new }
    {
        marks_stay();
        self.net.post(kind, args)
    }

    /// Keeps the values of the variable that the other domain has too.
    pub fn limit(&mut self, variable: usize, to: &Dom) -> Result<Change, AllocError>
        requires { variable < length self.old.net.domains }
        ensures limited { Limits self.old.net variable to.now result self.new.net }
        ensures others { ChangesNet self.old self.new }
        ensures marks { KeepStoreMarks self.old self.new }
    {
        marks_stay();
        self.net.limit(variable, to)
    }

    /// Takes values away until all constraints are consistent; where none waits nothing is narrowed. After Memory the call may
    /// be made again, and after Collapsed only `back_to` brings values back.
    pub fn propagate(&mut self) -> Result<(), NetFault>
        ensures propagated { PropagatesTo (AllConsistent self.old.net.tables self.old.net.constraints)
            self.old.net.domains result self.new.net.domains }
        ensures variables { length self.new.net.domains ≡ length self.old.net.domains }
        ensures down { GoesDown self.old.net self.new.net }
        ensures counted { self.old.net.work ≤ self.new.net.work }
        ensures quiet { OnOk result (self.new.net.quiet ≡ length self.new.net.constraints) }
        ensures idle { self.old.net.quiet ≡ length self.old.net.constraints → self.new.net.work ≡ self.old.net.work }
        ensures others { ChangesNet self.old self.new }
        ensures marks { KeepStoreMarks self.old self.new }
    {
        marks_stay();
        within_is_an_order();
        self.net.propagate_all()
    }

    /// Takes the next variable off the list of those whose domains have changed. It may tell of others too, also of
    /// numbers that no variable has any more.
    pub fn next_changed(&mut self) -> Option<usize>
        ensures taken { TakesChanged self.old.net result self.new.net }
        ensures others { ChangesNet self.old self.new }
        ensures marks { KeepStoreMarks self.old self.new }
    {
        self.net.next_changed()
    }

    /// A mark at the store as it is. The network is told of it, so that it keeps what variables are at the mark; and where
    /// nothing is to be looked at, the mark says so.
    pub fn mark(&mut self) -> Mark
        ensures marked { self.new ≡ with_mark self.old }
        ensures is { IsStoreMark self.new result (snapshot_of self.old) }
        ensures latest { (earlier : Mark) → CanGoBack self.new earlier → IsMarkBefore earlier result }
        ensures marks { KeepStoreMarks self.old self.new }
        ensures idle { IsIdle self.old.net → IsIdleMark result }
    {
        Mark {
            tokens: self.tokens.mark(),
            variables: self.variables.len(),
            blocks: self.blocks.len(),
            watches: self.watchers.len(),
            net: self.net.mark(),
        }
    }

    /// The variables that came or were written since the mark, by number, some of them perhaps twice.
    pub fn touched_since(&self, mark: Mark) -> Result<Vec<usize>, AllocError>
        requires { CanGoBack self.now mark }
        ensures { IfOk result (λ numbers. (there : Snapshot)
            → IsStoreMark self.now mark there → AreTouched numbers.items there self.now) }
    {
        let mut numbers = self.net.written_since(mark.net)?;
        put_numbers(&mut numbers, mark.variables, self.variables.len())?;
        Ok(numbers)
    }

    /// Brings back what there was at the mark, without memory. Where nothing was to be looked at then, nothing is now.
    pub fn back_to(&mut self, mark: Mark)
        requires { CanGoBack self.old mark }
        ensures { GoesBackTo mark self.old self.new }
    {
        marks_stay();
        self.tokens.names_stay();
        self.tokens.back_to(mark.tokens);
        self.variables.truncate(mark.variables);
        self.blocks.truncate(mark.blocks);
        self.watchers.truncate(mark.watches);
        self.net.back_to(mark.net);
    }
}

// Adds a variable of a key that isn't there.
fn add_key(
    variables: &mut Keys,
    net: &mut Net,
    key: VarKey,
    domain: Dom,
) -> Result<usize, AllocError>
    requires fresh { FindsItem variables.old key None }
    ensures added { AddsKey key variables.old result variables.new }
    ensures net { AddsVar domain net.old result net.new }
    ensures domain { IsDomain domain }
{
    let count = variables.len();
    variables.push(key)?;
    let added = net.add_var(domain);
    if added.is_err() {
        variables.truncate(count);
    }
    added
}

// Puts the numbers from the one on that are below the other behind those that are there.
fn put_numbers(numbers: &mut Vec<usize>, from: usize, to: usize) -> Result<(), AllocError>
    ensures kept { OnOk result ((number : ℕ) → Contains numbers.old.items number → Contains numbers.new.items number) }
    ensures all { OnOk result ((number : ℕ) → from ≤ number → number < to → Contains numbers.new.items number) }
{
    for number in from..to {
        numbers.push(number)?;
    }
    Ok(())
}

// The key of the variable of this name. None where there is no token of the name's token.
fn key_of(tokens: &Tokens, name: &VarName) -> Option<VarKey>
    ensures { FindsKey (tokens_now tokens.now) name.now result }
{
    match name {
        VarName::Token(token, part) => Some(VarKey::Part(tokens.find(token)?, *part)),
        VarName::Local {
            token,
            rule,
            number,
        } => Some(VarKey::Local {
            token: tokens.find(token)?,
            rule: *rule,
            number: *number,
        }),
        VarName::Global(number) => Some(VarKey::Global(*number)),
    }
}
