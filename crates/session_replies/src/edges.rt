//! The lines of time edges.

ghost use Rattle.std.specs.Prelude.{◌≡◌, All, OnOk, codes};
ghost use Rattle.eu_name.specs.declared.name.VarName.TheVariants as variables;
ghost use Rattle.model_core.specs.declared.variable.Base.{Base};
ghost use Rattle.model_core.specs.Lawful.{IsLawful};
ghost use Rattle.model_core.specs.Variables.{HasBase};
ghost use Rattle.session_replies.specs.Lines.{IsEdgeLine, IsPointWord, IsVariableWord};
ghost use Rattle.session_replies.specs.Writable.{IsEdgeWritable, IsPointWritable};
ghost use Rattle.session_replies.specs.Written.{Writes, WritesBehind, WritesCounted, WritesLines};

use super::counting::{put_count_line, put_line_feed};
use db_edges::edge::{NamedEdge, Point};
use eu_name::name::{Part, TokenName, VarName};
use model_core::model::Model;
use plan_text::writing::{put_number, put_variable, put_word};
use std::alloc::{AllocError, Global};

// The name of the part of the token, behind the gap.
fn put_part(
    out: &mut Vec<u8>,
    gap: &[u8],
    alloc: Global,
    model: &Model,
    token: &TokenName,
    part: Part,
) -> Result<(), AllocError>
    requires lawful { IsLawful model.now }
    requires there { (base : Base) × HasBase model.now (variables.Token token.now part) base }
    ensures { OnOk result (WritesBehind gap.now (IsVariableWord model.now (variables.Token token.now part)) out.old.items out.new.items) }
{
    let name = VarName::Token(token.copy()?, part);
    put_variable(out, gap, alloc, model, &name)
}

// The point, behind the gap.
fn put_point(
    out: &mut Vec<u8>,
    gap: &[u8],
    alloc: Global,
    model: &Model,
    point: &Point,
) -> Result<(), AllocError>
    requires lawful { IsLawful model.now }
    requires writable { IsPointWritable model.now point.now }
    ensures { OnOk result (WritesBehind gap.now (IsPointWord model.now point.now) out.old.items out.new.items) }
{
    match point {
        Point::Origin => put_word(out, gap, b"origin"),
        Point::Start(token) => put_part(out, gap, alloc, model, token, Part::Start),
        Point::End(token) => put_part(out, gap, alloc, model, token, Part::End),
    }
}

// The edge as an inequality.
fn put_edge(
    out: &mut Vec<u8>,
    alloc: Global,
    model: &Model,
    edge: &NamedEdge,
) -> Result<(), AllocError>
    requires lawful { IsLawful model.now }
    requires writable { IsEdgeWritable model.now edge.now }
    ensures { OnOk result (Writes (IsEdgeLine model.now edge.now) out.old.items out.new.items) }
{
    put_point(out, b"", alloc, model, &edge.from)?;
    put_number(out, b" + ", edge.gap)?;
    put_point(out, b" <= ", alloc, model, &edge.to)
}

// A line for each edge.
fn put_edges(
    out: &mut Vec<u8>,
    alloc: Global,
    model: &Model,
    edges: &[NamedEdge],
) -> Result<(), AllocError>
    requires lawful { IsLawful model.now }
    requires writable { All (IsEdgeWritable model.now) edges.now }
    ensures { OnOk result (WritesLines (IsEdgeLine model.now) edges.now out.old.items out.new.items) }
{
    for edge in edges {
        put_edge(out, alloc, model, edge)?;
        put_line_feed(out)?;
    }
    Ok(())
}

/// The line of the number of edges of a cycle, and a line for each.
pub fn put_edge_lines(
    out: &mut Vec<u8>,
    alloc: Global,
    model: &Model,
    edges: &[NamedEdge],
) -> Result<(), AllocError>
    requires lawful { IsLawful model.now }
    requires writable { All (IsEdgeWritable model.now) edges.now }
    ensures { OnOk result (WritesCounted (codes "cycle") (IsEdgeLine model.now) edges.now out.old.items out.new.items) }
{
    put_count_line(out, b"cycle", edges.len())?;
    put_edges(out, alloc, model, edges)
}
