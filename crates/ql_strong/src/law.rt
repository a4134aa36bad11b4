ghost use Rattle.std.specs.Prelude.{◌≡◌, ◌||◌, ℕ, List};
ghost use Rattle.ql_base.specs.IdLists.{IsAscending, has_id};
ghost use Rattle.ql_machine.specs.Changes.{received_by_all};

/// The law that to receive some effects and then more is to receive all of them at once.
pub fn received_at_once()
    ensures { (received : List (List ℕ)) (ids more both : List ℕ) → IsAscending more
        → IsAscending both → ((a : ℕ) → has_id both a ≡ (has_id ids a || has_id more a))
        → received_by_all (received_by_all received ids) more ≡ received_by_all received both }
{}
