//! What holds of the text of a graph in the DOT language, and of its objects, apart from any code.

mod drawings;
mod forms;
mod texts;

pub use drawings::the_text_of_a_graph_is_of_the_dot_language;
pub use forms::text_and_objects_tell_the_same;
pub use texts::{text_in_quotes_is_told, the_text_of_a_graph_is_ascii};
