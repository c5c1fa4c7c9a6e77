//! What holds of the lacks of an unmet entry and of its `cycle` lines, by their definitions, apart from any code.

mod cycles;
mod freed;
mod items;
mod lacks;

pub use cycles::each_entry_of_a_cycle_needs_the_next;
pub use freed::no_cycle_where_the_lacks_can_be_met;
pub use items::the_items_are_all_that_an_entry_leads_to;
pub use lacks::an_entry_lacks_nothing_where_its_needs_were_met;
