//! The graph in one of the two forms.

ghost use Rattle.std.specs.Prelude.{◌≡◌, ◌++◌, OnOk, IfOk};
ghost use Rattle.why_text.specs.graph_text.Objects.{printed_graph};

use crate::graph_text::dot::push_dot;
use crate::graph_text::json::push_json;
use answer_lines::graph_lines::Graph;
use answer_lines::why_lines::WhyLine;
use nt_bytes::Bytes;
use report_text::line_text::ReportForm;
use std::alloc::{AllocError, Global};

fn push_graph(
    alloc: Global,
    out: &mut Vec<u8>,
    form: ReportForm,
    head: &[WhyLine],
    graph: &Graph,
) -> Result<(), AllocError>
    ensures { OnOk result (out.new.items ≡ out.old.items ++ printed_graph form head.now graph.now) }
{
    match form {
        ReportForm::Text => push_dot(alloc, out, head, graph),
        ReportForm::Json => push_json(alloc, out, head, graph),
    }
}

/// The graph of a start in a form, with the first lines about the start.
pub fn print_graph(
    alloc: Global,
    form: ReportForm,
    head: &[WhyLine],
    graph: &Graph,
) -> Result<Bytes, AllocError>
    ensures exact { IfOk result (λ text. text ≡ printed_graph form head.now graph.now) }
{
    let mut text = Vec::new(alloc);
    push_graph(alloc, &mut text, form, head, graph)?;
    Ok(Bytes::from_vec(text))
}
