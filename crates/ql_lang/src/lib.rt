// The trees of the contract language, as the parser makes them and the later passes read them.
// Each tree follows the grammar node for node, and each list of trees is seen as a list.
// The one contract: trees and lists are seen as plain data, and a contract or a source is printed in
// its one spelling.
#![tactic(auto)]

mod contract;
mod expression;
mod formula;
mod name;
mod operation;
mod print;
mod print_expressions;
mod print_programs;
mod program;
mod relation;

pub use contract::{Contract, Point, Points, Prop, Var, Vars};
pub use expression::{BinOp, Expr, ExprNode, Exprs, TextLit};
pub use formula::{Body, Choices, Formula, OpChoice, Term, Terms};
pub use name::{Name, NameList};
pub use operation::{
    Base, Bind, Binds, EmitDecl, Kind, OpDecl, OpDecls, Param, Params, Stmt, Stmts,
};
pub use print::print_contract;
pub use print_programs::print_program;
pub use program::{Field, Fields, Init, InitNode, Program, TxnDecl, TxnDecls, TypeDecl, TypeDecls};
pub use relation::{Rel, RelName};
