//! The sites of joined declarations, with what they are by hand.

use super::asked::Sought;
use super::rows::assert_rows;
use nddl_ast::declaration::FileDecls;
use nddl_symbols::{Site, join};
use std::alloc::{AllocError, Global};
use tests_samples::lines::Lines;

/// Each site as the number of its file and its number there.
fn lines_of(alloc: Global, sites: &[Site]) -> Result<String, AllocError> {
    let mut lines = Lines::new(alloc);
    for site in sites {
        lines.number(site.file);
        lines.begin(":", site.decl);
    }
    lines.into_text()
}

/// The joined declarations.
pub fn site_words(alloc: Global, files: &[FileDecls]) -> Result<String, AllocError> {
    match join(alloc, files) {
        Ok(sites) => lines_of(alloc, sites.as_slice()),
        Err(none) => Err(none),
    }
}

// A file that includes one that includes the first.
const OTHER: &str = "int a; #include \"r\" int b;";

const JOINED: &str = "
int x; int y; | 0:0 0:1
int x; #include \"q\" int y; | 0:0 1:0 2:0 1:2 0:2
#include \"q\" int x; #include \"r\" int y; | 1:0 2:0 1:2 0:1 0:3
#include \"r\" #include \"q\" int x; | 1:0 2:0 2:2 0:2
#include \"m\" #include \"Plasma.nddl\" #include \"q\" #include \"q\" | 1:0 2:0 1:2
";

#[test]
fn declarations_of_an_include_stand_at_its_place(rt: HostRuntime) {
    assert_rows(&rt, Sought::Sites, OTHER, "");
    assert_rows(&rt, Sought::Sites, OTHER, JOINED);
}
