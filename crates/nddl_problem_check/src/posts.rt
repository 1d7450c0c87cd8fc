//! Where tokens are posted and globals are declared.

ghost use Rattle.std.specs.Prelude.{◌≡◌, ◌++◌, IfOk, OnOk, map};
ghost use Rattle.nddl_symbols.specs.Names.{is_global_sort};
ghost use Rattle.nddl_problem_check.specs.Posts.{fact_place, fact_places, global_place, global_places, posting_place, posting_places};

use nddl_ast::declaration::Decl;
use nddl_symbols::declared::{is_posting, variable_sort};
use nddl_symbols::{Place, Sort};
use std::alloc::{AllocError, Global};

// Puts the word that posts a token behind the others, if the declaration does.
fn push_posting(number: usize, decl: &Decl, places: &mut Vec<Place>) -> Result<(), AllocError>
    ensures { OnOk result (places.new.items ≡ places.old.items ++ posting_place number decl.now) }
{
    match decl {
        Decl::Ask(ask) => {
            if is_posting(ask.word.text.as_str()) {
                places.push(Place {
                    decl: number,
                    at: ask.word.at,
                })?;
            }
            Ok(())
        }
        _ => Ok(()),
    }
}

/// The words that post tokens.
pub fn posting_places(alloc: Global, decls: &[&Decl]) -> Result<Vec<Place>, AllocError>
    ensures { IfOk result (λ places. places.items ≡ posting_places 0 (map (λ decl. decl.now) decls.now)) }
{
    let mut places = Vec::new(alloc);
    for (number, decl) in decls.iter().enumerate() {
        push_posting(number, *decl, &mut places)?;
    }
    Ok(places)
}

// Puts the word that posts a fact behind the others, if the declaration does.
fn push_fact(number: usize, decl: &Decl, places: &mut Vec<Place>) -> Result<(), AllocError>
    ensures { OnOk result (places.new.items ≡ places.old.items ++ fact_place number decl.now) }
{
    match decl {
        Decl::Ask(ask) => {
            if ask.word.text.as_str() == "fact" {
                places.push(Place {
                    decl: number,
                    at: ask.word.at,
                })?;
            }
            Ok(())
        }
        _ => Ok(()),
    }
}

/// The words that post facts.
pub fn fact_places(alloc: Global, decls: &[&Decl]) -> Result<Vec<Place>, AllocError>
    ensures { IfOk result (λ places. places.items ≡ fact_places 0 (map (λ decl. decl.now) decls.now)) }
{
    let mut places = Vec::new(alloc);
    for (number, decl) in decls.iter().enumerate() {
        push_fact(number, *decl, &mut places)?;
    }
    Ok(places)
}

fn is_global_sort(sort: Sort) -> bool
    ensures { result ≡ is_global_sort sort }
{
    match sort {
        Sort::Global => true,
        _ => false,
    }
}

// Puts the name of a global behind the others, if the declaration declares one.
fn push_global(number: usize, decl: &Decl, places: &mut Vec<Place>) -> Result<(), AllocError>
    ensures { OnOk result (places.new.items ≡ places.old.items ++ global_place number decl.now) }
{
    match decl {
        Decl::Variable(variable) => {
            if is_global_sort(variable_sort(variable)) {
                places.push(Place {
                    decl: number,
                    at: variable.name.at,
                })?;
            }
            Ok(())
        }
        _ => Ok(()),
    }
}

/// The names of the globals that are declared.
pub fn global_places(alloc: Global, decls: &[&Decl]) -> Result<Vec<Place>, AllocError>
    ensures { IfOk result (λ places. places.items ≡ global_places 0 (map (λ decl. decl.now) decls.now)) }
{
    let mut places = Vec::new(alloc);
    for (number, decl) in decls.iter().enumerate() {
        push_global(number, *decl, &mut places)?;
    }
    Ok(places)
}
