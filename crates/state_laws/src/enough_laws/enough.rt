//! What would become of an unmet entry if its lacks were met.

ghost use Rattle.state_laws.specs.enough_laws.Enough.{AttemptedWhereNoCycle};

/// Where the phases read one set that a hive can hold: take the lacks that aren't open away from all that an unmet name leads to, let each entry stay in its plan
/// and no attempt fail. The name's entry is then attempted exactly where there is no `cycle` line.
pub fn an_entry_would_be_attempted_where_there_is_no_cycle()
    ensures { AttemptedWhereNoCycle }
{}
