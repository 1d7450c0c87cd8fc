//! As many active tokens as there may be.

use super::deciding::said;
use super::steps::Said;
use super::trial::{Trial, told_on_rounds};
use eu_name::name::{Step, TokenName};
use eu_name::sequence::Sequence;
use model_core::decision::Decision;
use plan_db::{Db, DbFault};
use std::alloc::{AllocError, Global};

// The token to which so many steps lead from the link, each to one more of the same.
fn link_after(alloc: Global, steps: u32) -> Result<TokenName, AllocError> {
    let mut found = Sequence::new(alloc);
    for _step in 0..steps {
        found.push(Step { rule: 0, slot: 0 })?;
    }
    Ok(TokenName {
        root: 3,
        steps: found,
    })
}

// Activates the token of so many steps.
fn activate(alloc: Global, db: &mut Db, steps: u32) -> Result<Said, AllocError> {
    let token = link_after(alloc, steps)?;
    Ok(said(db.apply(&Decision::Activate(token))))
}

// How many links can be activated, and why no more.
fn activate_links(alloc: Global, db: &mut Db) -> Result<(u32, Said), AllocError> {
    for steps in 0..600 {
        let said = activate(alloc, db, steps)?;
        if said != Said::Fits {
            return Ok((steps, said));
        }
    }
    Ok((600, Said::Fits))
}

/// How many links can be activated, and why no more.
#[derive(Clone, Copy)]
struct Links;

impl Trial for Links {
    type Told = Result<(u32, Said), AllocError>;

    fn tell(&self, alloc: Global, db: &mut Db) -> Result<(u32, Said), AllocError> {
        activate_links(alloc, db)
    }
}

fn is_full(told: Result<Result<(u32, Said), AllocError>, AllocError>) -> bool {
    match told {
        Ok(Ok((count, Said::Refused(fault)))) => count == 512 && fault == DbFault::ActiveFull,
        _ => false,
    }
}

#[test]
fn no_more_are_active_than_may_be(rt: HostRuntime) {
    assert!(rt; is_full(told_on_rounds(rt.alloc(), &Links)));
}
