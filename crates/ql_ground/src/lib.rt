// Ground problems: the clause list of a goal over a contract's variables, and its soundness.
// The one contract: where no assignment satisfies a goal's clauses, its level implies its contract in
// every execution.
#![tactic(auto)]

mod axiom;
mod axiom_groups;
mod body;
mod clause;
mod contract_problem;
mod goal;
mod goal_groups;
mod level_laws;
mod operation_axioms;
mod promises;
mod rule;
mod soundness;
mod worked;

pub use clause::literal;
pub use goal::{Goal, problem};
pub use level_laws::{first_other_decides, higher_levels_ask_more};
pub use rule::{I, J, K, Rule, add_instance, add_rule};
pub use soundness::{refuted_op_is_implied, refuted_txn_is_implied};
pub use worked::problems_of_one_operation;
