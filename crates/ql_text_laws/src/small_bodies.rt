ghost use Rattle.std.specs.Prelude.{ℕ, List};
ghost use Rattle.ql_base.specs.declared.limits.TheConstants.{MAX_BODY_VARIABLES};
ghost use Rattle.ql_ground.specs.SmallBodies.{AreBodiesWithin};
ghost use Rattle.ql_lang.specs.declared.program.Program.{Program};
ghost use Rattle.ql_commands.specs.Sources.{IsSourceOf};

use crate::printed_sources::source_printed_again;

/// The law that the circuit of each contract of a source's program has at most 256 gates.
pub fn sources_have_small_bodies()
    ensures { (bytes : List ℕ) (p : Program) → IsSourceOf bytes p
        → AreBodiesWithin MAX_BODY_VARIABLES p }
{
    source_printed_again();
}
