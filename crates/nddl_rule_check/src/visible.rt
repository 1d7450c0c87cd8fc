//! What names mean in a block of a rule.

ghost use Rattle.std.specs.Prelude.{◌≡◌, OnOk};
ghost use Rattle.nddl_resolve.specs.Paths.{around_of};
ghost use Rattle.nddl_rule_check.specs.Seeing.{seen_until, token_alone, until_of, seeing_label, seeing_local, seeing_turn};

use nddl_ast::name::Name;
use nddl_resolve::{Around, Denoted, SeenNames, TokenSort};
use std::alloc::{AllocError, Global};
use std::marker::Model;

/// The variables of `foreach`, the locals and the labels that are seen, of each the innermost last, and the token whose
/// rule it is.
#[derive(Drop)]
pub struct Visible {
    turns: SeenNames,
    locals: SeenNames,
    labels: SeenNames,
    token: Option<TokenSort>,
}

/// How many of each sort are seen.
#[derive(Clone, Copy)]
pub struct SeenUntil {
    turns: usize,
    locals: usize,
    labels: usize,
}

impl Model for Visible {
    ghost use Rattle.std.specs.Prelude.{[]};
    ghost use Rattle.nddl_resolve.specs.Paths.{Surroundings};

    ghost Value = { Surroundings };

    ghost view = { λ inside. record {
      formals = [];
      turns = inside.turns;
      locals = inside.locals;
      labels = inside.labels;
      token = inside.token;
    } };
}

impl Visible {
    /// The token alone.
    pub fn new(alloc: Global, token: TokenSort) -> Visible
        ensures { result ≡ token_alone token }
    {
        Visible {
            turns: SeenNames::new(alloc),
            locals: SeenNames::new(alloc),
            labels: SeenNames::new(alloc),
            token: Some(token),
        }
    }

    pub fn around(&self) -> Around<'_>
        ensures { around_of result ≡ self.now }
    {
        Around {
            formals: None,
            turns: Some(&self.turns),
            locals: Some(&self.locals),
            labels: Some(&self.labels),
            token: self.token,
        }
    }

    /// A variable of `foreach` more.
    pub fn see_turn(&mut self, name: &Name, meant: Denoted) -> Result<(), AllocError>
        ensures { OnOk result (self.new ≡ seeing_turn self.old name.now meant) }
    {
        self.turns.push(&name.text, meant)
    }

    /// A local more.
    pub fn see_local(&mut self, name: &Name, meant: Denoted) -> Result<(), AllocError>
        ensures { OnOk result (self.new ≡ seeing_local self.old name.now meant) }
    {
        self.locals.push(&name.text, meant)
    }

    /// A label more.
    pub fn see_label(&mut self, name: &Name, meant: Denoted) -> Result<(), AllocError>
        ensures { OnOk result (self.new ≡ seeing_label self.old name.now meant) }
    {
        self.labels.push(&name.text, meant)
    }

    /// How many of each sort are seen.
    pub fn until(&self) -> SeenUntil
        ensures { result ≡ until_of self.now }
    {
        SeenUntil {
            turns: self.turns.len(),
            locals: self.locals.len(),
            labels: self.labels.len(),
        }
    }

    /// Without those that came since then. Without memory some of them may be left.
    pub fn forget(&mut self, until: SeenUntil) -> Result<(), AllocError>
        ensures { OnOk result (self.new ≡ seen_until self.old until) }
    {
        self.turns.truncate(until.turns)?;
        self.locals.truncate(until.locals)?;
        self.labels.truncate(until.labels)
    }
}
