//! What the text of a graph says, and what its objects say.

ghost use Rattle.graph_laws.specs.dot_laws.Forms.{ObjectsTellGraph, TextTellsGraph, ObjectsTellText};

/// The objects of a graph tell the first lines about the start, each node and each edge: two graphs of starts with the same objects are one
/// (`objects`), and so have one text (`same`). The text reports the same of each node, by its place, shape and style, and of each edge; of names it reports what is
/// printed of them, and of the first lines their text with commas between them (`text`).
pub fn text_and_objects_tell_the_same()
    ensures objects { ObjectsTellGraph }
    ensures text { TextTellsGraph }
    ensures same { ObjectsTellText }
{}
