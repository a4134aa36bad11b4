ghost use Rattle.std.specs.Prelude.{◌≡◌, ◌<◌, ◌≤◌, IfErr, IfOk, None, OnOk, Some, [], length, map, option_map, true};
ghost use Rattle.ql_grammar.specs.declared.terminal.Terminal.TheVariants.{NameToken};
ghost use Rattle.ql_grammar.specs.Machine.{is_ahead};
ghost use Rattle.ql_grammar.specs.Table.{
  ABinding,
  AKind,
  APart,
  ASentence,
  ASource,
  ATransaction,
  AType,
  AnEffect,
  AnExpr,
  AnInit,
  AnOperation,
  Effect,
  MoreAssignments,
  MoreFields,
  MoreTransactions,
  SomeParams,
  TheAssignments,
  TheBindings,
  TheFields,
  TheNames,
  TheOperations,
  TheParams,
  TheTransactions,
  TheTypes,
  WholeSource,
  assignment_symbols,
  assignments_symbols,
  binding_symbols,
  bindings_symbols,
  body_symbols,
  contract_symbols,
  field_symbols,
  operation_symbols,
  operations_symbols,
  param_symbols,
  params_symbols,
  transaction_symbols,
  type_symbols,
  uses_symbols,
};
ghost use Rattle.ql_lang.specs.Expressions.{expression_of};
ghost use Rattle.ql_lang.specs.Programs.{
  assignment_of,
  binding_of,
  emission_of,
  operation_of,
  replicated_of,
  source_of,
  transaction_of,
};
ghost use Rattle.ql_lang.specs.Trees.{sentence_of};
ghost use Rattle.ql_parse.specs.Readings.{
  Added,
  AreEmissionsRefused,
  AreMembersRefused,
  AreRefused,
  AreTermsRefused,
  Gave,
  GaveAll,
  GaveBody,
  GaveEmission,
  GaveHeading,
  GaveMembers,
  GaveRest,
  GaveTerms,
  IsAddedRefused,
  IsRefused,
  IsRestRefused,
  closed_symbols,
  ending_symbols,
  heading_symbols,
  initial_symbols,
  typed_symbols,
  types_symbols,
  value_symbols,
};

use crate::expression::Operand;
use crate::fault::Refusal;
use crate::junction::both;
use crate::reader::Reader;
use ql_grammar::{Role, Terminal};
use ql_lang::{
    Bind, Binds, Contract, EmitDecl, Field, Fields, Init, Kind, Name, NameList, OpDecl, OpDecls,
    Param, Params, Program, Stmt, Stmts, TxnDecl, TxnDecls, TypeDecl, TypeDecls,
};
use std::alloc::Global;

/// For so many parameters, emitted values or statements a list has room at first.
const USUAL_PARTS: usize = 2;

/// What stands before the braces of an operation.
#[derive(Drop)]
struct Heading {
    at: u32,
    name: Name,
    params: Params,
    kind: Kind,
}

/// What stands in the braces of an operation.
#[derive(Drop)]
struct Body {
    contract: Contract,
    answer: Operand,
    effect: Option<EmitDecl>,
}

impl Reader<'_> {
    /// A colon and a kind.
    fn typed(&mut self) -> Result<Kind, Refusal>
        ensures gave { IfOk result (λ k. GaveAll typed_symbols (AKind k) self.old self.new) }
        ensures shorter { OnOk result (length self.new.tokens < length self.old.tokens) }
        ensures refused { IfErr result (AreRefused typed_symbols self.old) }
    {
        self.take(Terminal::Colon, Role::Plain)?;
        self.kind()
    }

    /// An `=` and what a field begins with, up to the semicolon.
    fn initial(&mut self, alloc: Global) -> Result<Init, Refusal>
        ensures gave { IfOk result (λ i. GaveAll initial_symbols (AnInit i) self.old self.new) }
        ensures shorter { OnOk result (length self.new.tokens < length self.old.tokens) }
        ensures refused { IfErr result (AreRefused initial_symbols self.old) }
    {
        self.take(Terminal::Equals, Role::Plain)?;
        let init = self.beginning(alloc)?;
        self.past(init, Terminal::Semicolon, Role::Plain)
    }

    /// A state field.
    fn field(&mut self, alloc: Global) -> Result<Field, Refusal>
        ensures gave { IfOk result (λ f. Added field_symbols TheFields f self.old self.new) }
        ensures shorter { OnOk result (length self.new.tokens < length self.old.tokens) }
        ensures refused { IfErr result (IsAddedRefused field_symbols TheFields self.old) }
    {
        let at = self.take(Terminal::StateWord, Role::Plain)?;
        let name = self.name(Role::Plain)?;
        let kind = self.typed()?;
        let init = self.initial(alloc)?;
        Ok(Field {
            at,
            name,
            kind,
            init,
        })
    }

    /// The state fields of a type.
    fn fields(&mut self, alloc: Global) -> Result<Fields, Refusal>
        ensures gave { IfOk result
            (λ found. GaveRest MoreFields (TheFields []) (TheFields found) self.old self.new) }
        ensures within { OnOk result (length self.new.tokens ≤ length self.old.tokens) }
        ensures refused { IfErr result (IsRestRefused MoreFields (TheFields []) self.old) }
    {
        let mut found = Vec::new(alloc);
        'more: while self.sees(Terminal::StateWord) {
            let item = self.field(alloc)?;
            found.push(item)?;
        }
        Ok(Fields::of(found))
    }

    /// A parameter.
    fn param(&mut self) -> Result<Param, Refusal>
        ensures gave { IfOk result (λ p. Added param_symbols TheParams p self.old self.new) }
        ensures shorter { OnOk result (length self.new.tokens < length self.old.tokens) }
        ensures refused { IfErr result (IsAddedRefused param_symbols TheParams self.old) }
    {
        let name = self.name(Role::Plain)?;
        let base = self.base_behind(Terminal::Colon)?;
        Ok(Param { name, base })
    }

    /// Parameters with commas between them, of which one comes next.
    fn some_params(&mut self, alloc: Global) -> Result<Params, Refusal>
        requires { is_ahead NameToken self.old.tokens ≡ true }
        ensures gave { IfOk result
            (λ found. GaveRest SomeParams (TheParams []) (TheParams found) self.old self.new) }
        ensures within { OnOk result (length self.new.tokens ≤ length self.old.tokens) }
        ensures refused { IfErr result (IsRestRefused SomeParams (TheParams []) self.old) }
    {
        let mut found = Vec::with_capacity(alloc, USUAL_PARTS)?;
        'more: loop {
            let param = self.param()?;
            found.push(param)?;
            if !self.passes(Terminal::Comma) {
                return Ok(Params::of(found));
            }
        }
    }

    /// Parameters, or none.
    fn any_params(&mut self, alloc: Global) -> Result<Params, Refusal>
        ensures gave { IfOk result
            (λ found. GaveRest SomeParams (TheParams []) (TheParams found) self.old self.new) }
        ensures within { OnOk result (length self.new.tokens ≤ length self.old.tokens) }
        ensures refused { IfErr result (IsRestRefused SomeParams (TheParams []) self.old) }
    {
        if self.sees(Terminal::NameToken) {
            return self.some_params(alloc);
        }
        let none = Vec::new(alloc);
        let params = Params::of(none);
        Ok(params)
    }

    /// An operation's parameters in their brackets.
    fn params(&mut self, alloc: Global) -> Result<Params, Refusal>
        ensures gave { IfOk result
            (λ found. GaveAll params_symbols (TheParams found) self.old self.new) }
        ensures shorter { OnOk result (length self.new.tokens < length self.old.tokens) }
        ensures refused { IfErr result (AreRefused params_symbols self.old) }
    {
        self.take(Terminal::OpenParen, Role::Plain)?;
        let found = self.any_params(alloc)?;
        self.past(found, Terminal::CloseParen, Role::Plain)
    }

    /// The expression after a word that stands before one.
    #[inline(always)]
    fn value_behind(&mut self, alloc: Global, word: Terminal) -> Result<Operand, Refusal>
        ensures gave { IfOk result
            (λ o. GaveAll (value_symbols word) (AnExpr o.start (expression_of o.expr)) self.old
            self.new) }
        ensures shorter { OnOk result (length self.new.tokens < length self.old.tokens) }
        ensures refused { IfErr result (AreRefused (value_symbols word) self.old) }
    {
        self.take(word, Role::Before)?;
        self.whole_expression(alloc)
    }

    /// The same, up to a semicolon.
    fn closed_value(&mut self, alloc: Global, word: Terminal) -> Result<Operand, Refusal>
        ensures gave { IfOk result
            (λ o. GaveAll (closed_symbols word) (AnExpr o.start (expression_of o.expr)) self.old
            self.new) }
        ensures shorter { OnOk result (length self.new.tokens < length self.old.tokens) }
        ensures refused { IfErr result (AreRefused (closed_symbols word) self.old) }
    {
        let value = self.value_behind(alloc, word)?;
        self.past(value, Terminal::Semicolon, Role::Plain)
    }

    /// The contract after its word, up to a semicolon.
    fn closed_contract(&mut self, alloc: Global) -> Result<Contract, Refusal>
        ensures gave { IfOk result
            (λ k. GaveAll contract_symbols (ASentence (sentence_of k)) self.old self.new) }
        ensures shorter { OnOk result (length self.new.tokens < length self.old.tokens) }
        ensures refused { IfErr result (AreRefused contract_symbols self.old) }
    {
        self.take(Terminal::ContractWord, Role::Before)?;
        let contract = self.contract(alloc)?;
        self.past(contract, Terminal::Semicolon, Role::Plain)
    }

    /// A value that is emitted.
    fn binding(&mut self, alloc: Global) -> Result<Bind, Refusal>
        ensures gave { IfOk result
            (λ b. GaveAll binding_symbols (ABinding (binding_of b)) self.old self.new) }
        ensures shorter { OnOk result (length self.new.tokens < length self.old.tokens) }
        ensures refused { IfErr result (AreRefused binding_symbols self.old) }
    {
        let name = self.name(Role::Plain)?;
        let base = self.base_behind(Terminal::Colon)?;
        let value = self.value_behind(alloc, Terminal::Equals)?;
        Ok(Bind {
            name,
            base,
            value: value.expr,
        })
    }

    /// The values that are emitted.
    fn bindings(&mut self, alloc: Global) -> Result<Binds, Refusal>
        ensures gave { IfOk result
            (λ found. GaveAll bindings_symbols (TheBindings (map binding_of found)) self.old
            self.new) }
        ensures shorter { OnOk result (length self.new.tokens < length self.old.tokens) }
        ensures refused { IfErr result (AreRefused bindings_symbols self.old) }
    {
        self.take(Terminal::EmitWord, Role::Plain)?;
        let mut found = Vec::with_capacity(alloc, USUAL_PARTS)?;
        'more: loop {
            let binding = self.binding(alloc)?;
            found.push(binding)?;
            if !self.passes(Terminal::Comma) {
                return Ok(Binds::of(found));
            }
        }
    }

    /// A statement.
    fn assignment(&mut self, alloc: Global) -> Result<Stmt, Refusal>
        ensures gave { IfOk result
            (λ s. Added assignment_symbols TheAssignments (assignment_of s) self.old self.new) }
        ensures shorter { OnOk result (length self.new.tokens < length self.old.tokens) }
        ensures refused { IfErr result (IsAddedRefused assignment_symbols TheAssignments self.old) }
    {
        let target = self.name(Role::Plain)?;
        let value = self.closed_value(alloc, Terminal::Assign)?;
        Ok(Stmt {
            target,
            value: value.expr,
        })
    }

    /// The statements of an operation.
    fn statements(&mut self, alloc: Global) -> Result<Stmts, Refusal>
        ensures gave { IfOk result
            (λ found. GaveRest MoreAssignments (TheAssignments [])
            (TheAssignments (map assignment_of found)) self.old self.new) }
        ensures within { OnOk result (length self.new.tokens ≤ length self.old.tokens) }
        ensures refused { IfErr result
            (IsRestRefused MoreAssignments (TheAssignments []) self.old) }
    {
        let mut found = Vec::with_capacity(alloc, USUAL_PARTS)?;
        'more: while self.sees(Terminal::NameToken) {
            let item = self.assignment(alloc)?;
            found.push(item)?;
        }
        Ok(Stmts::of(found))
    }

    /// The statements in their braces.
    fn applied_statements(&mut self, alloc: Global) -> Result<Stmts, Refusal>
        ensures gave { IfOk result
            (λ found. GaveAll assignments_symbols (TheAssignments (map assignment_of found))
            self.old self.new) }
        ensures shorter { OnOk result (length self.new.tokens < length self.old.tokens) }
        ensures refused { IfErr result (AreRefused assignments_symbols self.old) }
    {
        self.take(Terminal::ApplyWord, Role::Plain)?;
        self.take(Terminal::OpenBrace, Role::Plain)?;
        let found = self.statements(alloc)?;
        self.past(found, Terminal::CloseBrace, Role::Plain)
    }

    /// What an operation emits and how that is applied.
    fn emission(&mut self, alloc: Global) -> Result<EmitDecl, Refusal>
        ensures gave { IfOk result (λ e. GaveEmission (emission_of e) self.old self.new) }
        ensures shorter { OnOk result (length self.new.tokens < length self.old.tokens) }
        ensures refused { IfErr result (AreEmissionsRefused self.old) }
    {
        let binds = self.bindings(alloc)?;
        let emitted = both(binds, self.closed_value(alloc, Terminal::WhenWord))?;
        let (emitted, stmts) = both(emitted, self.applied_statements(alloc))?;
        Ok(EmitDecl {
            binds: emitted.0,
            test: emitted.1.expr,
            stmts,
        })
    }

    /// What an operation emits, or nothing.
    fn effect(&mut self, alloc: Global) -> Result<Option<EmitDecl>, Refusal>
        ensures gave { IfOk result
            (λ e. GaveRest Effect (AnEffect None) (AnEffect (option_map emission_of e)) self.old
            self.new) }
        ensures within { OnOk result (length self.new.tokens ≤ length self.old.tokens) }
        ensures refused { IfErr result (IsRestRefused Effect (AnEffect None) self.old) }
    {
        if self.sees(Terminal::EmitWord) {
            let emission = self.emission(alloc)?;
            return Ok(Some(emission));
        }
        Ok(None)
    }

    /// The word `op`, a name, the parameters and the kind of the answer.
    fn heading(&mut self, alloc: Global) -> Result<Heading, Refusal>
        ensures gave { IfOk result
            (λ h. GaveHeading h.at h.name h.params h.kind self.old self.new) }
        ensures shorter { OnOk result (length self.new.tokens < length self.old.tokens) }
        ensures refused { IfErr result (AreRefused heading_symbols self.old) }
    {
        let at = self.take(Terminal::OpWord, Role::Plain)?;
        let name = self.name(Role::Plain)?;
        let params = self.params(alloc)?;
        let kind = self.typed()?;
        Ok(Heading {
            at,
            name,
            params,
            kind,
        })
    }

    /// The effect of an operation and its last brace.
    fn ending(&mut self, alloc: Global) -> Result<Option<EmitDecl>, Refusal>
        ensures gave { IfOk result
            (λ e. GaveAll ending_symbols (AnEffect (option_map emission_of e)) self.old self.new) }
        ensures shorter { OnOk result (length self.new.tokens < length self.old.tokens) }
        ensures refused { IfErr result (AreRefused ending_symbols self.old) }
    {
        let effect = self.effect(alloc)?;
        self.past(effect, Terminal::CloseBrace, Role::Plain)
    }

    /// What stands in the braces of an operation.
    fn body(&mut self, alloc: Global) -> Result<Body, Refusal>
        ensures gave { IfOk result
            (λ b. GaveBody (sentence_of b.contract) b.answer.start (expression_of b.answer.expr)
            (option_map emission_of b.effect) self.old self.new) }
        ensures shorter { OnOk result (length self.new.tokens < length self.old.tokens) }
        ensures refused { IfErr result (AreRefused body_symbols self.old) }
    {
        self.take(Terminal::OpenBrace, Role::Plain)?;
        let contract = self.closed_contract(alloc)?;
        let said = both(contract, self.closed_value(alloc, Terminal::AnswerWord))?;
        let (said, effect) = both(said, self.ending(alloc))?;
        Ok(Body {
            contract: said.0,
            answer: said.1,
            effect,
        })
    }

    /// An operation.
    fn operation(&mut self, alloc: Global) -> Result<OpDecl, Refusal>
        ensures gave { IfOk result
            (λ o. GaveAll operation_symbols (AnOperation (operation_of o)) self.old self.new) }
        ensures shorter { OnOk result (length self.new.tokens < length self.old.tokens) }
        ensures refused { IfErr result (AreRefused operation_symbols self.old) }
    {
        let heading = self.heading(alloc)?;
        let body = self.body(alloc)?;
        Ok(OpDecl {
            at: heading.at,
            name: heading.name,
            params: heading.params,
            kind: heading.kind,
            contract: body.contract,
            answer: body.answer.expr,
            effect: body.effect,
        })
    }

    /// The operations of a type.
    fn operations_of_type(&mut self, alloc: Global) -> Result<OpDecls, Refusal>
        ensures gave { IfOk result
            (λ found. GaveAll operations_symbols (TheOperations (map operation_of found)) self.old
            self.new) }
        ensures shorter { OnOk result (length self.new.tokens < length self.old.tokens) }
        ensures refused { IfErr result (AreRefused operations_symbols self.old) }
    {
        let mut found = Vec::new(alloc);
        'more: loop {
            let item = self.operation(alloc)?;
            found.push(item)?;
            if !self.sees(Terminal::OpWord) {
                return Ok(OpDecls::of(found));
            }
        }
    }

    /// The members of a type, whose name was read.
    fn members(&mut self, alloc: Global, at: u32, name: Name) -> Result<TypeDecl, Refusal>
        ensures gave { IfOk result (λ t. GaveMembers at name (replicated_of t) self.old self.new) }
        ensures shorter { OnOk result (length self.new.tokens < length self.old.tokens) }
        ensures refused { IfErr result (AreMembersRefused at name self.old) }
    {
        self.take(Terminal::OpenBrace, Role::Plain)?;
        let fields = self.fields(alloc)?;
        let ops = self.operations_of_type(alloc)?;
        let decl = TypeDecl {
            at,
            name,
            fields,
            ops,
        };
        self.past(decl, Terminal::CloseBrace, Role::Plain)
    }

    /// A type.
    fn type_decl(&mut self, alloc: Global) -> Result<TypeDecl, Refusal>
        ensures gave { IfOk result
            (λ t. GaveAll type_symbols (AType (replicated_of t)) self.old self.new) }
        ensures shorter { OnOk result (length self.new.tokens < length self.old.tokens) }
        ensures refused { IfErr result (AreRefused type_symbols self.old) }
    {
        let at = self.take(Terminal::TypeWord, Role::Plain)?;
        let name = self.name(Role::Plain)?;
        self.members(alloc, at, name)
    }

    /// The types of a source.
    fn types(&mut self, alloc: Global) -> Result<TypeDecls, Refusal>
        ensures gave { IfOk result
            (λ found. GaveAll types_symbols (TheTypes (map replicated_of found)) self.old
            self.new) }
        ensures shorter { OnOk result (length self.new.tokens < length self.old.tokens) }
        ensures refused { IfErr result (AreRefused types_symbols self.old) }
    {
        let mut found = Vec::new(alloc);
        'more: loop {
            let item = self.type_decl(alloc)?;
            found.push(item)?;
            if !self.sees(Terminal::TypeWord) {
                return Ok(TypeDecls::of(found));
            }
        }
    }

    /// The operations that a transaction uses.
    fn uses(&mut self, alloc: Global) -> Result<NameList, Refusal>
        ensures gave { IfOk result
            (λ names. GaveAll uses_symbols (TheNames names) self.old self.new) }
        ensures shorter { OnOk result (length self.new.tokens < length self.old.tokens) }
        ensures refused { IfErr result (AreRefused uses_symbols self.old) }
    {
        self.take(Terminal::UsesWord, Role::Plain)?;
        let names = self.names(alloc, Terminal::Comma)?;
        self.past(names, Terminal::Semicolon, Role::Plain)
    }

    /// A transaction after its name.
    fn terms_of_use(&mut self, alloc: Global, at: u32, name: Name) -> Result<TxnDecl, Refusal>
        ensures gave { IfOk result (λ t. GaveTerms at name (transaction_of t) self.old self.new) }
        ensures shorter { OnOk result (length self.new.tokens < length self.old.tokens) }
        ensures refused { IfErr result (AreTermsRefused at name self.old) }
    {
        self.take(Terminal::OpenBrace, Role::Plain)?;
        let uses = self.uses(alloc)?;
        let contract = self.closed_contract(alloc)?;
        let decl = TxnDecl {
            at,
            name,
            uses,
            contract,
        };
        self.past(decl, Terminal::CloseBrace, Role::Plain)
    }

    /// A transaction.
    fn transaction(&mut self, alloc: Global) -> Result<TxnDecl, Refusal>
        ensures gave { IfOk result
            (λ t. GaveAll transaction_symbols (ATransaction (transaction_of t)) self.old self.new) }
        ensures shorter { OnOk result (length self.new.tokens < length self.old.tokens) }
        ensures refused { IfErr result (AreRefused transaction_symbols self.old) }
    {
        let at = self.take(Terminal::TransactionWord, Role::Plain)?;
        let name = self.name(Role::Plain)?;
        self.terms_of_use(alloc, at, name)
    }

    /// The transactions of a source.
    fn transactions(&mut self, alloc: Global) -> Result<TxnDecls, Refusal>
        ensures gave { IfOk result
            (λ found. GaveRest MoreTransactions (TheTransactions [])
            (TheTransactions (map transaction_of found)) self.old self.new) }
        ensures within { OnOk result (length self.new.tokens ≤ length self.old.tokens) }
        ensures refused { IfErr result
            (IsRestRefused MoreTransactions (TheTransactions []) self.old) }
    {
        let mut found = Vec::new(alloc);
        'more: while self.sees(Terminal::TransactionWord) {
            let item = self.transaction(alloc)?;
            found.push(item)?;
        }
        Ok(TxnDecls::of(found))
    }

    /// A whole source.
    pub(crate) fn program(&mut self, alloc: Global) -> Result<Program, Refusal>
        ensures gave { IfOk result
            (λ p. Gave (APart WholeSource) (ASource (source_of p)) self.old self.new) }
        ensures refused { IfErr result (IsRefused (APart WholeSource) self.old) }
    {
        let types = self.types(alloc)?;
        let txns = self.transactions(alloc)?;
        Ok(Program { types, txns })
    }
}
