ghost use Rattle.std.specs.Prelude.{◌≡◌, Result};
ghost use Rattle.ql_lines.specs.Lines.{Ahead};
ghost use Rattle.ql_lines.specs.declared.fault.Broken.{Broken};
ghost use Rattle.ql_lines.specs.Outcomes.{Outcome};

use crate::format::LineFormat;

/// A file of a format says one thing or has one first fault, never both, and never neither.
pub fn one_outcome<F: LineFormat>(format: &F)
    ensures one { (file : Ahead) (x y : Result F.Said (Broken F.Rule))
        → Outcome (F.gives format.now) (F.closes format.now) (F.start format.now) file x
        → Outcome (F.gives format.now) (F.closes format.now) (F.start format.now) file y → x ≡ y }
    ensures some { (file : Ahead)
        → ((x : Result F.Said (Broken F.Rule))
        → Outcome (F.gives format.now) (F.closes format.now) (F.start format.now) file x → ⊥)
        → ⊥ }
{
    let _format = format;
}
