//! The graph of loads, as DOT.

ghost use Rattle.std.specs.Prelude.{◌≡◌, ◌<◌, ◌++◌, IfOk, IfSome, OnOk, codes, flat_map, if◌then◌else◌, length, map};
ghost use Rattle.json.specs.Print.{quoted};
ghost use Rattle.star_label.specs.Files.{label_at};
ghost use Rattle.star_outcome.specs.Views.{IsModule};
ghost use Rattle.star_reading.specs.Readings.{InReadPlans, LeadWithin, loads_at};
ghost use Rattle.star_report.specs.Components.{AreComponents};
ghost use Rattle.star_report.specs.Graph as spec;
ghost use Rattle.star_report.specs.Drawn.{AreNodesWithin, DrawsRun, EndWithin, IsNextNode, IsTableWithin, SayCycles, node_view};
ghost use Rattle.star_report.specs.Table.{IsTable};

use crate::components::Components;
use crate::modules::modules_by_number;
use indexmap::IndexSet;
use json::Writer;
use star_label::files::Files as Labels;
use star_outcome::module::Module;
use star_outcome::outcome::Run;
use star_reading::reading::Reads;
use star_scope::loads::Load;
use std::alloc::{AllocError, Global};

/// A file that is loaded, and whether the load lies on a cycle of loads.
#[derive(Clone, Copy, Debug, PartialEq, Eq)]
pub(crate) struct Edge {
    pub to: usize,
    pub on_cycle: bool,
}

/// A file, whether it is ok, and the files that it loads.
#[derive(Drop)]
pub(crate) struct Node {
    pub file: usize,
    pub is_ok: bool,
    pub edges: Vec<Edge>,
}

/// The files that load statements load, in source order, each once.
fn targets(alloc: Global, loads: &[Load]) -> Result<IndexSet<usize>, AllocError>
    ensures { IfOk result (λ s. s.keys ≡ spec.targets loads.now) }
{
    let mut files = IndexSet::new(alloc);
    for load in loads {
        if load.token.is_some() {
            files.insert(load.file)?;
        }
    }
    Ok(files)
}

/// The edges of a module. A load lies on a cycle of loads if both files are in one component.
fn edges_of(
    alloc: Global,
    reads: &Reads,
    components: &Components,
    it: &Module,
) -> Result<Vec<Edge>, AllocError>
    requires loads { LeadWithin reads.now.all.items }
    requires components { AreComponents reads.now.all.items components.now.marks.items }
    requires number { it.now.number < length reads.now.all.items }
    ensures targets { IfOk result (λ es. map (λ e. e.to) es.items
        ≡ spec.targets (loads_at reads.now.all.items it.now.number)) }
    ensures cycles { IfOk result (λ es. SayCycles reads.now.all.items it.now es.items) }
    ensures within { IfOk result (λ es. EndWithin (length reads.now.all.items) es.items) }
{
    let files = targets(alloc, reads.loads(it.number))?;
    let mut edges = Vec::with_capacity(alloc, files.len())?;
    for to in files.as_slice() {
        let on_cycle = components.are_one(it.number, *to);
        edges.push(Edge { to: *to, on_cycle })?;
    }
    Ok(edges)
}

/// The node of a module.
fn node_of(
    alloc: Global,
    reads: &Reads,
    components: &Components,
    it: &Module,
) -> Result<Node, AllocError>
    requires loads { LeadWithin reads.now.all.items }
    requires components { AreComponents reads.now.all.items components.now.marks.items }
    requires number { it.now.number < length reads.now.all.items }
    ensures file { IfOk result (λ v. v.file ≡ it.now.number) }
    ensures node { IfOk result (λ v. InReadPlans reads.now.all.items (λ plan. IsModule plan it.now.number it.now
        → spec.IsNode plan (node_view v))) }
    ensures within { IfOk result (λ v. EndWithin (length reads.now.all.items) v.edges.items) }
{
    Ok(Node {
        file: it.number,
        is_ok: it.is_good(),
        edges: edges_of(alloc, reads, components, it)?,
    })
}

/// Adds the node of a module, if there is one, after those of the files before it.
fn push_node(
    alloc: Global,
    reads: &Reads,
    components: &Components,
    entry: Option<&Module>,
    nodes: &mut Vec<Node>,
) -> Result<(), AllocError>
    requires loads { LeadWithin reads.now.all.items }
    requires components { AreComponents reads.now.all.items components.now.marks.items }
    requires within { IfSome entry (λ it. it.now.number < length reads.now.all.items) }
    ensures graph { OnOk result (InReadPlans reads.now.all.items (λ plan. IsNextNode plan entry.entry nodes.old.items
        nodes.new.items)) }
    ensures within { OnOk result (AreNodesWithin (length reads.now.all.items) nodes.old.items
        → AreNodesWithin (length reads.now.all.items) nodes.new.items) }
{
    match entry {
        Some(it) => {
            let node = node_of(alloc, reads, components, it)?;
            nodes.push(node)?;
            Ok(())
        }
        None => Ok(()),
    }
}

/// The nodes of all files that have a module.
fn nodes_of(
    alloc: Global,
    reads: &Reads,
    table: &[Option<&Module>],
) -> Result<Vec<Node>, AllocError>
    requires loads { LeadWithin reads.now.all.items }
    requires within { IsTableWithin (length reads.now.all.items) table.now }
    ensures graph { IfOk result (λ vs. InReadPlans reads.now.all.items (λ plan. IsTable plan table.now
        → spec.IsGraph plan (map node_view vs.items))) }
    ensures within { IfOk result (λ vs. AreNodesWithin (length reads.now.all.items) vs.items) }
{
    let components = Components::of(alloc, reads)?;
    let mut nodes = Vec::new(alloc);
    for entry in table {
        push_node(alloc, reads, &components, *entry, &mut nodes)?;
    }
    Ok(nodes)
}

/// Adds a label in double quotes to a text.
fn with_label(text: Vec<u8>, files: &Labels, n: usize) -> Result<Vec<u8>, AllocError>
    requires { n < length files.now }
    ensures { IfOk result (λ t. t.items ≡ text.items ++ quoted (label_at files.now n)) }
{
    let mut out = Writer::new(text);
    out.string(files.label(n).text())?;
    Ok(out.into_inner())
}

/// Adds the line of a node to a text.
fn with_node(text: Vec<u8>, files: &Labels, node: &Node) -> Result<Vec<u8>, AllocError>
    requires { node.now.file < length files.now }
    ensures { IfOk result (λ t. t.items ≡ text.items ++ spec.node_line files.now (node_view node.now)) }
{
    let mut text = text;
    text.extend_from_slice(b"  ")?;
    let mut text = with_label(text, files, node.file)?;
    if node.is_ok {
        text.extend_from_slice(b";\n")?;
    } else {
        text.extend_from_slice(b" [style=filled];\n")?;
    }
    Ok(text)
}

/// The end of the line of an edge.
fn edge_end(edge: &Edge) -> &'static str
    ensures { result.now ≡ (if edge.now.on_cycle then codes " [color=red];\n" else codes ";\n") }
{
    if edge.on_cycle {
        " [color=red];\n"
    } else {
        ";\n"
    }
}

/// Adds the line of an edge to a text.
fn with_edge(text: Vec<u8>, files: &Labels, n: usize, edge: &Edge) -> Result<Vec<u8>, AllocError>
    requires from { n < length files.now }
    requires to { edge.now.to < length files.now }
    ensures { IfOk result (λ t. t.items ≡ text.items ++ spec.edge_line files.now n edge.now) }
{
    let mut text = text;
    text.extend_from_slice(b"  ")?;
    let mut text = with_label(text, files, n)?;
    text.extend_from_slice(b" -> ")?;
    let mut text = with_label(text, files, edge.to)?;
    text.extend_from_slice(edge_end(edge).as_bytes())?;
    Ok(text)
}

/// Adds the lines of a node's edges to a text.
fn with_edges(text: Vec<u8>, files: &Labels, node: &Node) -> Result<Vec<u8>, AllocError>
    requires from { node.now.file < length files.now }
    requires to { EndWithin (length files.now) node.now.edges.items }
    ensures { IfOk result (λ t. t.items ≡ text.items ++ spec.edge_lines files.now (node_view node.now)) }
{
    let mut text = text;
    for edge in node.edges.as_slice() {
        text = with_edge(text, files, node.file, edge)?;
    }
    Ok(text)
}

/// Adds the lines of all nodes to a text.
fn with_nodes(text: Vec<u8>, files: &Labels, nodes: &[Node]) -> Result<Vec<u8>, AllocError>
    requires { AreNodesWithin (length files.now) nodes.now }
    ensures { IfOk result (λ t. t.items
        ≡ text.items ++ flat_map (spec.node_line files.now) (map node_view nodes.now)) }
{
    let mut text = text;
    for node in nodes {
        text = with_node(text, files, node)?;
    }
    Ok(text)
}

/// Adds the lines of all edges to a text.
fn with_all_edges(text: Vec<u8>, files: &Labels, nodes: &[Node]) -> Result<Vec<u8>, AllocError>
    requires { AreNodesWithin (length files.now) nodes.now }
    ensures { IfOk result (λ t. t.items
        ≡ text.items ++ flat_map (spec.edge_lines files.now) (map node_view nodes.now)) }
{
    let mut text = text;
    for node in nodes {
        text = with_edges(text, files, node)?;
    }
    Ok(text)
}

/// The graph as DOT.
fn dot(alloc: Global, files: &Labels, nodes: &[Node]) -> Result<Vec<u8>, AllocError>
    requires { AreNodesWithin (length files.now) nodes.now }
    ensures { IfOk result (λ t. t.items ≡ spec.graph_text files.now (map node_view nodes.now)) }
{
    let mut text = Vec::new(alloc);
    text.extend_from_slice(b"digraph loads {\n")?;
    let text = with_nodes(text, files, nodes)?;
    let mut text = with_all_edges(text, files, nodes)?;
    text.extend_from_slice(b"}\n")?;
    Ok(text)
}

/// The graph of the loads of a run as DOT. Each reached file has a node, which is filled if the file is not ok. The
/// node has an edge for each file that the load statements of its file load. The edge is red if the load lies on a
/// cycle of loads.
pub fn graph(
    alloc: Global,
    files: &Labels,
    reads: &Reads,
    run: &mut Run,
) -> Result<Vec<u8>, AllocError>
    requires files { length run.old.cells ≡ length files.now }
    requires reads { length reads.now.all.items ≡ length files.now }
    requires loads { LeadWithin reads.now.all.items }
    ensures same { run.new ≡ run.old }
    ensures text { IfOk result (λ s. DrawsRun files.now reads.now.all.items run.old s.items) }
{
    let mut kept = run.kept(alloc)?;
    let table = modules_by_number(alloc, files.len(), run, kept.as_mut_slice())?;
    let nodes = nodes_of(alloc, reads, table.as_slice())?;
    dot(alloc, files, nodes.as_slice())
}
