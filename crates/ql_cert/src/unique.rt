ghost use Rattle.std.specs.Prelude.{◌≡◌, List};
ghost use Rattle.ql_cnf.specs.Satisfaction.{ClauseList};
ghost use Rattle.ql_lines.specs.Lines.{Ahead};
ghost use Rattle.ql_lines.specs.Fields.{Fields};
ghost use Rattle.ql_refute.specs.declared.refutation.Line.{Line};
ghost use Rattle.ql_cert.specs.CertFile.{IsCertFile, IsCertOf};
ghost use Rattle.ql_cert.specs.Faults.{FirstFileFault, fields_in};
ghost use Rattle.ql_cert.specs.ProofFile.{IsProofFile, IsProofOf};
ghost use Rattle.ql_cert.specs.declared.cert.Section.{Section};
ghost use Rattle.ql_cert.specs.declared.fault.CertFault.{CertFault};

/// The lines of a file spell one certificate or have one first fault, never both, and never neither.
pub fn one_certificate()
    ensures reading { (lines : List Fields) (r s : List Section) → IsCertOf r lines
        → IsCertOf s lines → r ≡ s }
    ensures fault { (file : Ahead) (f g : CertFault) → FirstFileFault IsCertFile file f
        → FirstFileFault IsCertFile file g → f ≡ g }
    ensures apart { (file : Ahead) (f : CertFault) → FirstFileFault IsCertFile file f
        → IsCertFile (fields_in file.lines) → ⊥ }
    ensures some { (file : Ahead) → (IsCertFile (fields_in file.lines) → ⊥)
        → ((f : CertFault) → FirstFileFault IsCertFile file f → ⊥) → ⊥ }
{}

/// The same of proofs.
pub fn one_proof()
    ensures reading { (lines : List Fields) (c d : ClauseList) (r s : List Line)
        → IsProofOf c r lines → IsProofOf d s lines → (c ≡ d) × (r ≡ s) }
    ensures fault { (file : Ahead) (f g : CertFault) → FirstFileFault IsProofFile file f
        → FirstFileFault IsProofFile file g → f ≡ g }
    ensures apart { (file : Ahead) (f : CertFault) → FirstFileFault IsProofFile file f
        → IsProofFile (fields_in file.lines) → ⊥ }
    ensures some { (file : Ahead) → (IsProofFile (fields_in file.lines) → ⊥)
        → ((f : CertFault) → FirstFileFault IsProofFile file f → ⊥) → ⊥ }
{}
