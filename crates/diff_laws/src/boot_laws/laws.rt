//! The laws. Each has its statement in `specs/Follow.antt`.

ghost use Rattle.diff_laws.specs.boot_laws.Follow.{BootsFollow, NoLineFollows, SameFollows, OwnBoot, OwnAnswer};

/// Where services and groups of two sets agree, of which the second is one that a hive can hold, so do their boots (`agree`). So where there is no
/// line on services and groups, there is none on the boots (`lines`), and the answer is that nothing differs (`same`).
pub fn boots_agree_where_services_and_groups_do()
    ensures agree { BootsFollow }
    ensures lines { NoLineFollows }
    ensures same { SameFollows }
{}

/// There is no line on the boot of a set against itself, whatever the set (`boot`). A set that a hive can hold, compared with itself, is the same
/// (`answer`).
pub fn a_set_is_the_same_as_itself()
    ensures boot { OwnBoot }
    ensures answer { OwnAnswer }
{}
