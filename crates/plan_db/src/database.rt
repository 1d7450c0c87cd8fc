//! The database.

ghost use Rattle.std.specs.Prelude.{◌≡◌, ◌+◌, ◌↔◌, [], ◌∷◌, true, false, IsTrue, length, Err, IfOk, OnOk, OnErr, MatchBool, MatchOption, MatchResult};
ghost use Rattle.model_core.specs.History.{standing};
ghost use Rattle.model_core.specs.Lawful.{IsLawful};
ghost use Rattle.model_core.specs.State.{State};
ghost use Rattle.plan_db.specs.Database.{IsSound, HasLeast, HasCollapsed};
ghost use Rattle.plan_db.specs.Answers.{AnswersApply, AnswersReset, AnswersUndo, AnswersBacktrack};
ghost use Rattle.plan_db.specs.Answers.{AnswersDomain, AnswersNothing, AnswersStamp, AnswersNoStamp, IsSeen, IsUnseen};
ghost use Rattle.plan_db.specs.Edges.{AnswersEdges, AnswersNoEdges};
ghost use Rattle.plan_db.specs.Stamps.{StampsFollowDomains, NoStampFalls};
ghost use Rattle.plan_db.specs.declared.fault.DbFault.TheVariants.{Memory};

use super::changing::let_go_behind;
use super::edges::EdgeFault;
use super::fault::{DbFault, Outcome, QueryFault};
use super::{changing, edges, stamps, telling};
use db_edges::NamedEdge;
use db_history::{Standing, Subject, fits, rebuild};
use db_refusals::StoreView;
use decision_log::Log;
use domain_core::domain::Dom;
use eu_name::name::VarName;
use model_core::decision::Decision;
use model_core::model::Model;
use std::alloc::{AllocError, Global};
use std::marker;

/// A model with the decisions taken in it, and what they leave possible.
#[derive(Drop)]
pub struct Db {
    model: Model,
    log: Log,
    // The state of the list that stands, unless it is behind.
    kept: Standing,
    behind: bool,
    // The narrowings of the networks before the one that is kept.
    past_work: u64,
}

impl marker::Model for Db {
    ghost use Rattle.plan_db.specs.Answers.{Held, KeepsDatabase};

    ghost Value = { Held };

    ghost use Rattle.std.specs.Coded.{codes};
    ghost use Rattle.model_core.specs.contracts.model.Model as a_model;

    ghost coded = { Prim.hlevel (codes, a_model.the_row.coded) };

    ghost use Rattle.plan_db.specs.Stamps.{stamps_of};

    ghost view = { λ db. record { database = record { model = db.model; history = db.log }; behind = db.behind; stamps = stamps_of db.kept } };

    ghost invariant = { λ db. KeepsDatabase db.model db.log db.behind db.kept };
}

impl Db {
    /// A database in which nothing is decided.
    pub fn new(alloc: Global, model: Model) -> Result<Db, AllocError>
        requires { IsLawful model }
        ensures made { IfOk result (λ db. (db.database ≡ record { model = model; history = [] ∷ [] }) × (db.behind ≡ false)) }
        ensures sound { IfOk result (λ db. IsSound db.database) }
    {
        let kept = Standing::new(alloc, &model)?;
        Ok(Db {
            model,
            log: Log::new(alloc),
            kept,
            behind: false,
            past_work: 0,
        })
    }

    /// Takes a decision, and answers whether the decisions then leave something possible. Without memory stamps may be greater.
    pub fn apply(&mut self, decision: &Decision) -> Result<Outcome, DbFault>
        ensures applied { AnswersApply self.old decision.now result self.new }
        ensures stamps { OnOk result (StampsFollowDomains self.old.stamps self.new.stamps) }
        ensures risen { result ≡ Err Memory → NoStampFalls self.old.stamps self.new.stamps }
        ensures sound { IsSound self.new.database }
    {
        if self.behind {
            return Err(DbFault::Behind);
        }
        changing::apply(&self.model, &mut self.log, &mut self.kept, decision)
    }

    /// Takes the decision on the subject out, with those behind it that may then not stand, and answers whether those that are
    /// left leave something possible.
    pub fn reset(&mut self, subject: &Subject) -> Result<Outcome, DbFault>
        ensures reset { AnswersReset self.old subject.now result self.new }
        ensures sound { IsSound self.new.database }
    {
        if self.behind {
            return Err(DbFault::Behind);
        }
        let answer = changing::reset(
            &self.model,
            &mut self.log,
            &mut self.kept,
            &mut self.behind,
            subject,
        );
        let_go_behind(
            self.log.allocator(),
            &mut self.kept,
            self.behind,
            &mut self.past_work,
        );
        answer
    }

    /// Takes the last step back, and answers whether the decisions then leave something possible.
    pub fn undo(&mut self) -> Result<Outcome, DbFault>
        ensures undone { AnswersUndo self.old result self.new }
        ensures sound { IsSound self.new.database }
    {
        if self.behind {
            return Err(DbFault::Behind);
        }
        let answer = changing::undo(&self.model, &mut self.log, &mut self.kept, &mut self.behind);
        let_go_behind(
            self.log.allocator(),
            &mut self.kept,
            self.behind,
            &mut self.past_work,
        );
        answer
    }

    /// Takes the last decision back, if the last step took it. It takes no memory.
    pub fn backtrack(&mut self) -> Result<(), DbFault>
        ensures undone { AnswersBacktrack self.old result self.new }
        ensures stamps { OnOk result (StampsFollowDomains self.old.stamps self.new.stamps) }
        ensures sound { IsSound self.new.database }
    {
        if self.behind {
            return Err(DbFault::Behind);
        }
        changing::backtrack(&mut self.log, &mut self.kept)
    }

    /// Finds what the decisions that stand leave possible anew, from nothing. A database that was behind then isn't: what it kept
    /// went when it got behind, so the old state doesn't stand beside the new one.
    pub fn rebuild(&mut self) -> Result<(), AllocError>
        ensures ok { OnOk result ((self.new.database ≡ self.old.database) × (self.new.behind ≡ false)) }
        ensures err { OnErr result (self.new ≡ self.old) }
        ensures sound { IsSound self.new.database }
    {
        let work = self.work();
        rebuild(&self.model, &self.log, &mut self.kept, &mut self.behind)?;
        self.past_work = work;
        Ok(())
    }

    /// Whether memory was wanting in a `reset` or an `undo`, and the state that is kept is another one than that of the
    /// decisions that stand.
    pub fn is_behind(&self) -> bool
        ensures { result ≡ self.now.behind }
    {
        self.behind
    }

    /// The model in which the decisions are taken.
    pub fn model(&self) -> &Model
        ensures model { result.now ≡ self.now.database.model }
        ensures sound { IsSound self.now.database }
    {
        &self.model
    }

    /// Whether the decisions that stand leave something possible, where the database isn't behind.
    pub fn is_consistent(&self) -> bool
        ensures state { self.now.behind ≡ false
            → MatchBool result ((state : State) × HasLeast self.now.database state) (HasCollapsed self.now.database) }
        ensures sound { IsSound self.now.database }
    {
        fits(&self.kept)
    }

    /// The decisions that stand.
    pub fn decisions(&self) -> &[Decision]
        ensures { result.now ≡ standing self.now.database.history }
    {
        self.log.standing()
    }

    /// How many steps `undo` can take back.
    pub fn history(&self) -> u64
        ensures { result + 1 ≡ length self.now.database.history }
    {
        self.log.len()
    }

    /// How many narrowings were made for this database so far, in all networks that it kept. It stays at the greatest number.
    pub fn work(&self) -> u64 {
        self.past_work
            .saturating_add(self.kept.store().net().work())
    }

    /// What the variable may still be.
    pub fn domain(&self, variable: &VarName) -> Result<&Dom, QueryFault>
        ensures { MatchResult result
            (λ domain. AnswersDomain self.now variable.now domain.now)
            (λ fault. AnswersNothing self.now variable.now fault) }
    {
        if self.behind {
            return Err(QueryFault::Behind);
        }
        telling::domain(&self.kept, variable)
    }

    /// How often what the variable may be was changed. Where something is possible before and after an `apply` or a
    /// `backtrack`, the number stays if that stays, and else gets greater, or is the greatest there is. Other calls may count
    /// anew. It takes no memory.
    pub fn stamp(&self, variable: &VarName) -> Option<u64>
        ensures { MatchOption result (AnswersNoStamp self.now variable.now) (AnswersStamp self.now variable.now) }
    {
        if self.behind {
            return None;
        }
        stamps::stamp(&self.kept, variable)
    }

    /// The time edges of the decisions that stand, where these leave nothing possible.
    pub fn time_edges(&self) -> Result<Vec<NamedEdge>, EdgeFault>
        ensures { MatchResult result (λ edges. AnswersEdges self.now edges.items) (AnswersNoEdges self.now) }
    {
        if self.behind {
            return Err(EdgeFault::Behind);
        }
        edges::edges(&self.model, &self.log, &self.kept)
    }

    /// All that the decisions leave possible, with tokens in the order of names. It takes no memory.
    pub fn view(&self) -> Result<StoreView<'_>, QueryFault>
        ensures { MatchResult result (IsSeen self.now) (IsUnseen self.now) }
    {
        if self.behind {
            return Err(QueryFault::Behind);
        }
        telling::view(&self.model, &self.log, &self.kept)
    }
}
