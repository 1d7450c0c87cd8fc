//! Which cells were written since a mark.

ghost use Rattle.std.specs.Prelude.{◌≡◌, ◌<◌, ◌++◌, List, length, option_to_list, IfOk, OnOk};
ghost use Rattle.domain_core.specs.Domain.{Domain};
ghost use Rattle.cell_store.specs.Cells.{present, IsPlace};
ghost use Rattle.constraint_net.specs.Marks.{HaveChanged};

use cell_store::{Cells, Mark};
use std::alloc::{AllocError, Global};

/// The cells that the steps since the mark have written, in their order.
pub fn written_since(alloc: Global, cells: &Cells, mark: Mark) -> Result<Vec<usize>, AllocError>
    requires { mark < length cells.now.past }
    ensures { IfOk result (λ numbers. (there : List Domain)
        → IsPlace cells.now mark there → HaveChanged numbers.items there (present cells.now)) }
{
    let mut numbers = Vec::new(alloc);
    let present = cells.mark();
    for step in mark.steps()..present.steps() {
        note(&mut numbers, cells.written(step))?;
    }
    Ok(numbers)
}

// Puts the cell at the end, where there is one.
fn note(numbers: &mut Vec<usize>, written: Option<usize>) -> Result<(), AllocError>
    ensures { OnOk result (numbers.new.items ≡ numbers.old.items ++ option_to_list written) }
{
    if let Some(cell) = written {
        numbers.push(cell)?;
    }
    Ok(())
}
