ghost use Rattle.std.specs.Prelude.{◌≡◌, [], ◌∷◌, ◌++◌};
ghost use Rattle.ql_cnf.specs.Circuits.{yes, no};
ghost use Rattle.ql_levels.specs.declared.level.Level.TheVariants.{Eventual, Causal, Wide, Strong};
ghost use Rattle.ql_ground.specs.Ground.{op_problem};
ghost use Rattle.ql_ground.specs.Worked.{always_true, axioms_of_one, rest_of_one};

/// The problems of the only operation of the only type, whose contract is `true`, clause for clause.
pub fn problems_of_one_operation()
    ensures eventual { op_problem (0 ∷ []) 0 Eventual always_true
        ≡ record { variables = 10; clauses = axioms_of_one ++ rest_of_one } }
    ensures causal { op_problem (0 ∷ []) 0 Causal always_true
        ≡ record {
          variables = 10;
          clauses = axioms_of_one ++ (yes 4 ∷ no 5 ∷ []) ∷ []
              ++ rest_of_one;
        } }
    ensures wide { op_problem (0 ∷ []) 0 Wide always_true
        ≡ record {
          variables = 10;
          clauses = axioms_of_one ++ (no 3 ∷ yes 4 ∷ no 6 ∷ []) ∷ []
              ++ rest_of_one;
        } }
    ensures strong { op_problem (0 ∷ []) 0 Strong always_true
        ≡ record {
          variables = 10;
          clauses = axioms_of_one ++ (yes 1 ∷ no 3 ∷ yes 4 ∷ []) ∷ []
              ++ rest_of_one;
        } }
{}
