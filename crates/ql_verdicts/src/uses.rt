// The operations that transactions use, by number.
ghost use Rattle.std.specs.Prelude.{◌≡◌, ◌≢◌, ℕ, true, [], Some, slice_get};
ghost use Rattle.ql_base.specs.declared.ids.DeclId.{DeclId};
ghost use Rattle.ql_base.specs.declared.ids.OpId.{OpId};
ghost use Rattle.ql_lang.specs.declared.name.Name.{Name};
ghost use Rattle.ql_lang.specs.declared.operation.OpDecl.{OpDecl};
ghost use Rattle.ql_lang.specs.declared.program.Program.{Program};
ghost use Rattle.ql_lang.specs.declared.program.TxnDecl.{TxnDecl};
ghost use Rattle.ql_levels.specs.declared.level.Level.{Level};
ghost use Rattle.ql_levels.specs.declared.level.Level.TheVariants.{Strong};
ghost use Rattle.ql_typing.specs.Operations.{all_ops, op_place, uses_op};
ghost use Rattle.ql_typing.specs.Programs.{program_faults};
ghost use Rattle.ql_classify.specs.Outcome.{FirstFails, IsAccepted, all_tests};
ghost use Rattle.ql_classify.specs.Targets.{IsOpLevel};
ghost use Rattle.ql_classify.specs.declared.classless.Classless.TheVariants.{StrongInTxn};
ghost use Rattle.ql_verdicts.specs.Uses.{NamesOp};

/// The law that names and numbers of operations are the same in a typed program: two operations have two
/// names (`distinct`); what a transaction names is an operation, which it uses (`each`), and it uses no other
/// (`only`).
pub fn uses_are_operations()
    ensures distinct { (p : Program) → program_faults p ≡ [] → (i j : ℕ) (a b : OpDecl)
        → slice_get (all_ops p.types) i ≡ Some a → slice_get (all_ops p.types) j ≡ Some b
        → a.name.word ≡ b.name.word → i ≡ j }
    ensures each { (p : Program) → program_faults p ≡ [] → (d k : ℕ) (t : TxnDecl) (n : Name)
        → slice_get p.txns d ≡ Some t → slice_get t.uses k ≡ Some n → (o : ℕ)
        × (op_place p.types n.word ≡ Some o) × (uses_op p d o ≡ true) }
    ensures only { (p : Program) → program_faults p ≡ [] → (d o : ℕ) → uses_op p d o ≡ true
        → NamesOp p d o }
{}

/// The law of strong uses by number: of an accepted program no transaction uses an operation whose level is
/// strong, and where a strong use is reported, the transaction does use that operation, and its level is strong.
pub fn strong_uses_are_reported()
    ensures accepted { (p : Program) → program_faults p ≡ [] → IsAccepted p
        → (d o : ℕ) (level : Level) → uses_op p d o ≡ true → IsOpLevel p o level → level ≢ Strong }
    ensures reported { (p : Program) (d : DeclId) (o : OpId) → FirstFails p (all_tests p) (StrongInTxn d o) → (uses_op p d.0 o.0 ≡ true) × IsOpLevel p o.0 Strong }
{}
