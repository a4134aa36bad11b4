ghost use Rattle.std.specs.Prelude.{◌≡◌, ℕ};
ghost use Rattle.ql_lang.specs.declared.name.Name.{Name};
ghost use Rattle.ql_lang.specs.declared.operation.Kind.{Kind};
ghost use Rattle.ql_typing.specs.Functions.{of_base};

use crate::function::kind_of_base;
use ql_lang::{Bind, Field, Kind, Name, OpDecl, Param, Stmt, TxnDecl, TypeDecl, Var};

/// What the source lists under a name, and the source offset at which a fault reports it as one too many.
pub(crate) trait Named {
    ghost named: { Self → Name };

    ghost placed: { Self → ℕ };

    fn name(&self) -> &Name
        ensures { result.now ≡ named self.now };

    fn place(&self) -> u32
        ensures { result ≡ placed self.now };
}

/// A name that is declared with a kind.
pub(crate) trait Kinded: Named {
    ghost kinded: { Self → Kind };

    fn kind(&self) -> Kind
        ensures { result ≡ kinded self.now };
}

impl Named for Name {
    ghost named = { λ name. name };

    ghost placed = { λ name. name.at };

    fn name(&self) -> &Name {
        self
    }

    fn place(&self) -> u32 {
        self.at
    }
}

impl Named for Var {
    ghost named = { λ var. var.name };

    ghost placed = { λ var. var.name.at };

    fn name(&self) -> &Name {
        &self.name
    }

    fn place(&self) -> u32 {
        self.name.at
    }
}

impl Named for Field {
    ghost named = { λ field. field.name };

    ghost placed = { λ field. field.at };

    fn name(&self) -> &Name {
        &self.name
    }

    fn place(&self) -> u32 {
        self.at
    }
}

impl Named for Param {
    ghost named = { λ param. param.name };

    ghost placed = { λ param. param.name.at };

    fn name(&self) -> &Name {
        &self.name
    }

    fn place(&self) -> u32 {
        self.name.at
    }
}

impl Named for Bind {
    ghost named = { λ bind. bind.name };

    ghost placed = { λ bind. bind.name.at };

    fn name(&self) -> &Name {
        &self.name
    }

    fn place(&self) -> u32 {
        self.name.at
    }
}

impl Named for Stmt {
    ghost named = { λ stmt. stmt.target };

    ghost placed = { λ stmt. stmt.target.at };

    fn name(&self) -> &Name {
        &self.target
    }

    fn place(&self) -> u32 {
        self.target.at
    }
}

impl Named for OpDecl {
    ghost named = { λ op. op.name };

    ghost placed = { λ op. op.at };

    fn name(&self) -> &Name {
        &self.name
    }

    fn place(&self) -> u32 {
        self.at
    }
}

impl Named for TypeDecl {
    ghost named = { λ declared. declared.name };

    ghost placed = { λ declared. declared.at };

    fn name(&self) -> &Name {
        &self.name
    }

    fn place(&self) -> u32 {
        self.at
    }
}

impl Named for TxnDecl {
    ghost named = { λ declared. declared.name };

    ghost placed = { λ declared. declared.at };

    fn name(&self) -> &Name {
        &self.name
    }

    fn place(&self) -> u32 {
        self.at
    }
}

impl Kinded for Field {
    ghost kinded = { λ field. field.kind };

    fn kind(&self) -> Kind {
        self.kind
    }
}

impl Kinded for Param {
    ghost kinded = { λ param. of_base param.base };

    fn kind(&self) -> Kind {
        kind_of_base(self.base)
    }
}

impl Kinded for Bind {
    ghost kinded = { λ bind. of_base bind.base };

    fn kind(&self) -> Kind {
        kind_of_base(self.base)
    }
}
