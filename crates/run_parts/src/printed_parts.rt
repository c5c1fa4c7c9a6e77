//! What a part of a run came to on a disk and in print: one that was played, and one that was given up.
//!
//! A part is an act of the book of startup. The relations of `specs/Parts` say what was printed, in one of the two forms, and done so far
//! and which act is left, whatever wakes and outcomes may follow; so parts compose in sequence, and a whole script is one more part. What
//! a whole script came to is its report: `specs/Reports`. Of code there is none: the run's crate has it.

ghost use Rattle.std.specs.Prelude.{List, [], ◌∷◌};
ghost use Rattle.hive_model.specs.Edit.{Step};
ghost use Rattle.hive_model.specs.Image.{Image};
ghost use Rattle.hive_model.specs.Tree.{Tree};
ghost use Rattle.hive_store.specs.Changes.{Carried};
ghost use Rattle.start_model.specs.Possible.{Outcome};
ghost use Rattle.run_parts.specs.printed_parts.Chain.{Place, Wakes, Keeps, Commits, Leads, IsSeen};

/// Between two wakes with a load and one commit: the commit led from what the first image is recovered as to what the second one is, and the log of the second lists exactly
/// the sectors in which these differ.
pub fn a_commit_between_two_wakes_is_seen()
    ensures { (first second : Image) (woken old new last : Carried) (tree u v : Tree) (loaded : Outcome) (edits : List (List Step)) (p q : Place)
        → Leads (Wakes first woken tree ∷ Keeps loaded ∷ Commits edits old new u ∷ Wakes second last v ∷ []) p q
        → IsSeen first old new second }
{}
