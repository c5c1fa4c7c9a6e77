//! What stands between quotes in the text of a graph.

ghost use Rattle.graph_laws.specs.dot_laws.Texts.{QuotedIsPieces, QuotedIsPrintable, QuotedIsUndone, QuotedIsOne, DotIsText};

/// Between quotes each text is a sequence of bytes other than quotes and backslashes, of `\\` and of `\"` (`pieces`): no backslash stands before anything
/// else, and no quote alone. It is printable where the text is (`printable`). The three replacements undone, the last one first, give the text back
/// (`undone`), so that two texts are never the same there (`one`).
pub fn text_in_quotes_is_told()
    ensures pieces { QuotedIsPieces }
    ensures printable { QuotedIsPrintable }
    ensures undone { QuotedIsUndone }
    ensures one { QuotedIsOne }
{}

/// The text of a graph is of printable ASCII and ends of lines, where the names in it are of units.
pub fn the_text_of_a_graph_is_ascii()
    ensures { DotIsText }
{}
