//! What it is that a need was met.

ghost use Rattle.state_laws.specs.state_laws.Met.{NameIsMetWhereStarted, GroupIsMetWhereStarted};

/// A name is met by the first attempts, however many, exactly where one of them went well and is of that name, where a hive can hold the sets that the phases
/// read (`name`); and a group exactly where one of them went well and is of an entry of that group (`group`).
pub fn a_need_is_met_where_it_was_started()
    ensures name { NameIsMetWhereStarted }
    ensures group { GroupIsMetWhereStarted }
{}
