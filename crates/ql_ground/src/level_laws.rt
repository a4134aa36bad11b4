ghost use Rattle.std.specs.Prelude.{◌≡◌, ◌&&◌, ℕ, not, List, ◌∷◌};
ghost use Rattle.std.specs.List.{list_all};
ghost use Rattle.ql_levels.specs.declared.level.Level.TheVariants.{Eventual, Causal, Wide, Strong};
ghost use Rattle.ql_levels.specs.declared.level.TxnLevel.TheVariants.{Rc, Mav, Rr};
ghost use Rattle.ql_ground.specs.Effects.{Effect};
ghost use Rattle.ql_ground.specs.Order.{GivesLevel, GivesTxnLevel};
ghost use Rattle.ql_ground.specs.Relations.{inside, sametxn};
ghost use Rattle.ql_ground.specs.Truth.{in_one_txn};

/// The law of the levels' order: an assignment that satisfies a goal's problem at a level satisfies its
/// problem at each lower level. So where the top level's problem is satisfied each level's is, and a level
/// above a refuted one is refuted.
pub fn higher_levels_ask_more()
    ensures strong { GivesLevel Strong Wide }
    ensures wide { GivesLevel Wide Causal }
    ensures causal { GivesLevel Causal Eventual }
    ensures repeatable { GivesTxnLevel Rr Mav }
    ensures monotonic { GivesTxnLevel Mav Rc }
{}

/// The law of `txn` over constants, which requires only of the first of the other effects that it isn't
/// current: this is equivalent to requiring it of each, since the effects of one transaction are all current
/// or none is.
pub fn first_other_decides()
    ensures { (x : List Effect) (run : ℕ) (members : List ℕ) (c : ℕ) (others : List ℕ)
        → in_one_txn x (inside x run) members (c ∷ others)
        ≡ (list_all (inside x run) members
        && (not (inside x run c) && list_all (sametxn x c) others)) }
{}
