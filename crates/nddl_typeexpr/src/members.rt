//! Distinct numbers.

ghost use Rattle.std.specs.Prelude.{◌≡◌, [], IfOk, OnOk, length};
ghost use Rattle.nddl_typeexpr.specs.Members.{distinct_from, has_number, with_number};

use indexmap::IndexSet;
use std::alloc::{AllocError, Global};
use std::marker::Model;
use std::rc::Rc;

/// Distinct numbers, which contracts see as a list. A copy shares their memory.
#[derive(Drop)]
pub struct Members {
    numbers: Rc<IndexSet<i32>>,
}

impl Model for Members {
    ghost use Rattle.std.specs.Prelude.{List, ℤ};

    ghost Value = { List ℤ };

    ghost view = { λ inside. inside.numbers.value.keys };
}

impl Members {
    /// The numbers of the list, each once.
    pub fn of(alloc: Global, numbers: &[i32]) -> Result<Members, AllocError>
        ensures { IfOk result (λ members. members ≡ distinct_from [] numbers.now) }
    {
        let mut distinct = IndexSet::new(alloc);
        for number in numbers {
            put_number(&mut distinct, *number)?;
        }
        let numbers = Rc::new(alloc, distinct)?;
        Ok(Members { numbers })
    }

    /// Whether the number is one of them.
    pub fn has(&self, number: i32) -> bool
        ensures { result ≡ has_number self.now number }
    {
        self.numbers.as_ref().contains(&number)
    }

    /// The numbers, in the order in which they were put in.
    pub fn as_slice(&self) -> &[i32]
        ensures { result.now ≡ self.now }
    {
        self.numbers.as_ref().as_slice()
    }

    pub fn len(&self) -> usize
        ensures { result ≡ length self.now }
    {
        self.numbers.as_ref().len()
    }

    /// A copy, which shares the memory of the numbers.
    pub fn copy(&self) -> Result<Members, AllocError>
        ensures { IfOk result (λ members. members ≡ self.now) }
    {
        let numbers = self.numbers.clone()?;
        Ok(Members { numbers })
    }
}

// Puts the number at the end, unless it is there.
fn put_number(distinct: &mut IndexSet<i32>, number: i32) -> Result<(), AllocError>
    ensures { OnOk result (distinct.new.keys ≡ with_number distinct.old.keys number) }
{
    distinct.insert(number)?;
    Ok(())
}
