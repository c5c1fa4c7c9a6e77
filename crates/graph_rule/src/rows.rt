//! The edges of the graph, shown or not.

ghost use Rattle.std.specs.Prelude.{◌≡◌, ◌+◌, [], ◌++◌, filter, map, IfOk, OnOk};
ghost use Rattle.std.specs.List.{filter_map};
ghost use Rattle.std.specs.Option.{option_copied, option_map, option_to_list};
ghost use Rattle.why_needs.specs.why_state.States.{place_in};
ghost use Rattle.graph_rule.specs.Rows.{name_vertex, group_vertex, entry_row, is_untaken, is_asked, is_drawn, group_row, rows_of};

use crate::names::first_names;
use crate::parts::{GraphParts, members_in};
use answer_lines::graph_lines::{GraphNode, NodeState};
use boot_phases::service_entries::Entry;
use nt_bytes::{Names, Row, Units, same_folded};
use nt_names::name_places::NamePlaces;
use std::alloc::{AllocError, Global};

/// Vertices.
pub(crate) type Vertices = Row<usize>;

/// The vertices that edges lead to from each vertex.
pub(crate) type VertexRows = Row<Row<usize>>;

// ---- vertices

/// The sum, unless it is over the greatest number; then as for lack of memory.
fn add(a: usize, b: usize) -> Result<usize, AllocError>
    ensures { IfOk result (λ n. n ≡ a + b) }
{
    match a.checked_add(b) {
        Some(sum) => Ok(sum),
        None => Err(AllocError),
    }
}

/// The vertex of a name that is among these, after that many others.
fn vertex_after(
    before: usize,
    names: &NamePlaces,
    name: &[u16],
) -> Result<Option<usize>, AllocError>
    ensures { IfOk result (λ vertex. vertex ≡ option_map (λ k. before + k) (place_in names.now name.now)) }
{
    match names.place_of(name) {
        Some(at) => Ok(Some(add(before, at)?)),
        None => Ok(None),
    }
}

/// The vertex of a name.
pub(crate) fn name_vertex(parts: &GraphParts, name: &[u16]) -> Result<Option<usize>, AllocError>
    ensures { IfOk result (λ vertex. vertex ≡ name_vertex parts.now name.now) }
{
    match parts.names.place_of(name) {
        Some(at) => Ok(Some(at)),
        None => vertex_after(parts.names.as_slice().len(), &parts.missing, name),
    }
}

/// The vertex of a group.
fn group_vertex(parts: &GraphParts, name: &[u16]) -> Result<Option<usize>, AllocError>
    ensures { IfOk result (λ vertex. vertex ≡ group_vertex parts.now name.now) }
{
    let before = add(parts.names.as_slice().len(), parts.missing.as_slice().len())?;
    vertex_after(before, &parts.groups, name)
}

// ---- from an entry

fn push_vertex(vertex: Option<usize>, out: &mut Vertices) -> Result<(), AllocError>
    ensures { OnOk result (out.new ≡ out.old ++ option_to_list vertex) }
{
    match vertex {
        Some(vertex) => out.push(vertex),
        None => Ok(()),
    }
}

fn push_name(parts: &GraphParts, name: &Units, out: &mut Vertices) -> Result<(), AllocError>
    ensures { OnOk result (out.new ≡ out.old ++ option_to_list (name_vertex parts.now name.now)) }
{
    let vertex = name_vertex(parts, name.as_slice())?;
    push_vertex(vertex, out)
}

fn push_group(parts: &GraphParts, name: &Units, out: &mut Vertices) -> Result<(), AllocError>
    ensures { OnOk result (out.new ≡ out.old ++ option_to_list (group_vertex parts.now name.now)) }
{
    let vertex = group_vertex(parts, name.as_slice())?;
    push_vertex(vertex, out)
}

/// The vertices of names.
fn name_vertices(alloc: Global, parts: &GraphParts, names: &[Units]) -> Result<Vertices, AllocError>
    ensures { IfOk result (λ out. out ≡ filter_map (name_vertex parts.now) names.now) }
{
    let mut out = Vertices::new(alloc);
    for name in names {
        push_name(parts, name, &mut out)?;
    }
    Ok(out)
}

/// The vertices of groups.
fn group_vertices(
    alloc: Global,
    parts: &GraphParts,
    names: &[Units],
) -> Result<Vertices, AllocError>
    ensures { IfOk result (λ out. out ≡ filter_map (group_vertex parts.now) names.now) }
{
    let mut out = Vertices::new(alloc);
    for name in names {
        push_group(parts, name, &mut out)?;
    }
    Ok(out)
}

/// Puts the vertices after the others.
fn push_all(vertices: &[usize], out: &mut Vertices) -> Result<(), AllocError>
    ensures { OnOk result (out.new ≡ out.old ++ vertices.now) }
{
    for vertex in vertices {
        out.push(*vertex)?;
    }
    Ok(())
}

/// What an entry leads to: each name that it needs, and then each group.
fn entry_row(alloc: Global, parts: &GraphParts, entry: &Entry) -> Result<Vertices, AllocError>
    ensures { IfOk result (λ row. row ≡ entry_row parts.now entry.now) }
{
    let services = first_names(alloc, entry.services.copy(alloc)?)?;
    let mut row = name_vertices(alloc, parts, services.as_slice())?;
    let groups = first_names(alloc, entry.groups.copy(alloc)?)?;
    let groups = group_vertices(alloc, parts, groups.as_slice())?;
    push_all(groups.as_slice(), &mut row)?;
    Ok(row)
}

// ---- from a group

pub(crate) fn is_untaken(state: NodeState) -> bool
    ensures { result ≡ is_untaken state }
{
    match state {
        NodeState::Untaken => true,
        NodeState::Started => false,
        NodeState::Failed => false,
        NodeState::Unmet => false,
        NodeState::NotReached => false,
        NodeState::NoEntry => false,
    }
}

/// Whether the name is the one that is asked for.
fn is_asked(of: Option<&Units>, name: &Units) -> bool
    ensures { result ≡ is_asked (option_copied of.entry) name.now }
{
    match of {
        Some(asked) => same_folded(asked.as_slice(), name.as_slice()),
        None => false,
    }
}

/// Whether an edge leads from its group to the entry at a place.
fn is_drawn(parts: &GraphParts, of: Option<&Units>, at: usize) -> bool
    ensures { result ≡ is_drawn parts.now (option_copied of.entry) at }
{
    match parts.nodes.get(at) {
        Some(node) => !is_untaken(node.state) || is_asked(of, &node.name),
        None => false,
    }
}

/// What a group leads to: its entries, but for those that are untaken and not asked for.
fn group_row(
    alloc: Global,
    parts: &GraphParts,
    of: Option<&Units>,
    group: &Units,
) -> Result<Vertices, AllocError>
    ensures { IfOk result (λ row. row ≡ group_row parts.now (option_copied of.entry) group.now) }
{
    let members = members_in(alloc, &parts.members, group.as_slice())?;
    drawn_among(alloc, parts, of, members.as_slice())
}

fn drawn_among(
    alloc: Global,
    parts: &GraphParts,
    of: Option<&Units>,
    members: &[usize],
) -> Result<Vertices, AllocError>
    ensures { IfOk result (λ row. row ≡ filter (is_drawn parts.now (option_copied of.entry)) members.now) }
{
    let mut row = Vertices::new(alloc);
    for at in members {
        if is_drawn(parts, of, *at) {
            row.push(*at)?;
        }
    }
    Ok(row)
}

// ---- from all

fn push_entry_rows(
    alloc: Global,
    parts: &GraphParts,
    rows: &mut VertexRows,
) -> Result<(), AllocError>
    ensures { OnOk result (rows.new ≡ rows.old ++ map (entry_row parts.now) parts.now.entries) }
{
    for entry in parts.entries.as_slice() {
        rows.push(entry_row(alloc, parts, entry)?)?;
    }
    Ok(())
}

fn push_empty_rows(alloc: Global, names: &[Units], rows: &mut VertexRows) -> Result<(), AllocError>
    ensures { OnOk result (rows.new ≡ rows.old ++ map (λ name. []) names.now) }
{
    for _name in names {
        rows.push(Row::new(alloc))?;
    }
    Ok(())
}

fn push_group_rows(
    alloc: Global,
    parts: &GraphParts,
    of: Option<&Units>,
    rows: &mut VertexRows,
) -> Result<(), AllocError>
    ensures { OnOk result (rows.new ≡ rows.old ++ map (group_row parts.now (option_copied of.entry)) parts.now.groups) }
{
    for group in parts.groups.as_slice() {
        rows.push(group_row(alloc, parts, of, group)?)?;
    }
    Ok(())
}

/// What each vertex leads to.
pub(crate) fn rows_of(
    alloc: Global,
    parts: &GraphParts,
    of: Option<&Units>,
) -> Result<VertexRows, AllocError>
    ensures { IfOk result (λ rows. rows ≡ rows_of parts.now (option_copied of.entry)) }
{
    let mut rows = VertexRows::new(alloc);
    push_entry_rows(alloc, parts, &mut rows)?;
    push_empty_rows(alloc, parts.missing.as_slice(), &mut rows)?;
    push_group_rows(alloc, parts, of, &mut rows)?;
    Ok(rows)
}
