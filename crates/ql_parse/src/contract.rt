ghost use Rattle.std.specs.Prelude.{◌||◌, ◌≡◌, ◌<◌, IfErr, IfOk, OnOk, false, length, true};
ghost use Rattle.ql_grammar.specs.declared.terminal.Terminal.TheVariants.{CurWord, NameToken, OpenParen, TrueWord};
ghost use Rattle.ql_grammar.specs.ContractGrammar.{Atom, Whole};
ghost use Rattle.ql_grammar.specs.Machine.{is_ahead};
ghost use Rattle.ql_grammar.specs.Table.{
  APart,
  AProp,
  ASentence,
  ATerm,
  AVar,
  PropAt,
  Term,
  TermList,
  TheTerms,
  TheVars,
  VarList,
  Variable,
  WholeContract,
};
ghost use Rattle.ql_lang.specs.Trees.{proposition_of, sentence_of};
ghost use Rattle.ql_parse.specs.Junctions.{joined_props, more_props, prop_mark, prop_operand};
ghost use Rattle.ql_parse.specs.Readings.{
  AreNamesRefused,
  AreRefused,
  Gave,
  GaveAll,
  GaveNames,
  GaveTwo,
  IsRefused,
  IsTurnRefused,
  Turned,
  application_symbols,
  braced_symbols,
  equality_symbols,
  pair_symbols,
  txn_symbols,
};

use crate::fault::Refusal;
use crate::junction::{Junction, both, boxed};
use crate::reader::Reader;
use ql_grammar::{Role, Terminal};
use ql_lang::{Contract, NameList, Point, Points, Prop, Rel, RelName, Var, Vars};
use std::alloc::Global;

/// For so many variables, or operations of one, a list has room at first.
const USUAL_PARTS: usize = 1;

impl Reader<'_> {
    /// A variable or `cur`.
    fn term(&mut self, role: Role) -> Result<Point, Refusal>
        ensures gave { IfOk result (λ p. Gave (APart (Term role)) (ATerm p) self.old self.new) }
        ensures shorter { OnOk result (length self.new.tokens < length self.old.tokens) }
        ensures refused { IfErr result (IsRefused (APart (Term role)) self.old) }
    {
        if self.sees(Terminal::CurWord) {
            let at = self.take(Terminal::CurWord, role)?;
            return Ok(Point::CurAt(at));
        }
        let name = self.name(role)?;
        Ok(Point::Named(name))
    }

    /// Whether a term comes next.
    fn sees_term(&self) -> bool
        ensures { result ≡ (is_ahead CurWord self.now.tokens
            || is_ahead NameToken self.now.tokens) }
    {
        self.sees(Terminal::CurWord) || self.sees(Terminal::NameToken)
    }

    /// The terms in the braces of a `txn`.
    fn terms(&mut self, alloc: Global) -> Result<Points, Refusal>
        ensures gave { IfOk result (λ ps. Gave (APart TermList) (TheTerms ps) self.old self.new) }
        ensures shorter { OnOk result (length self.new.tokens < length self.old.tokens) }
        ensures refused { IfErr result (IsRefused (APart TermList) self.old) }
    {
        let mut terms = Vec::new(alloc);
        'terms: loop {
            let term = self.term(Role::Makes(1))?;
            terms.push(term)?;
            if !self.passes(Terminal::Comma) {
                return Ok(Points::of(terms));
            }
        }
    }

    /// Two terms with `=` between them.
    fn equality(&mut self) -> Result<Prop, Refusal>
        ensures gave { IfOk result
            (λ p. GaveAll equality_symbols (AProp (proposition_of p)) self.old self.new) }
        ensures shorter { OnOk result (length self.new.tokens < length self.old.tokens) }
        ensures refused { IfErr result (AreRefused equality_symbols self.old) }
    {
        let left = self.term(Role::Plain)?;
        let at = self.take(Terminal::Equals, Role::Makes(2))?;
        let right = self.term(Role::Plain)?;
        Ok(Prop::Apply(Rel::Base(RelName::Eq, at), left, right))
    }

    /// Two terms in brackets.
    fn pair(&mut self) -> Result<(Point, Point), Refusal>
        ensures gave { IfOk result (λ both. GaveTwo pair_symbols (ATerm both.0) (ATerm both.1) self.old self.new) }
        ensures shorter { OnOk result (length self.new.tokens < length self.old.tokens) }
        ensures refused { IfErr result (AreRefused pair_symbols self.old) }
    {
        self.take(Terminal::OpenParen, Role::Opens(0))?;
        let left = self.term(Role::Plain)?;
        self.take(Terminal::Comma, Role::Plain)?;
        let right = self.term(Role::Plain)?;
        self.past((left, right), Terminal::CloseParen, Role::Closes)
    }

    /// A relation that is applied to two terms.
    fn application(&mut self, alloc: Global) -> Result<Prop, Refusal>
        ensures gave { IfOk result
            (λ p. GaveAll application_symbols (AProp (proposition_of p)) self.old self.new) }
        ensures shorter { OnOk result (length self.new.tokens < length self.old.tokens) }
        ensures refused { IfErr result (AreRefused application_symbols self.old) }
    {
        let relation = self.single(alloc, Role::Makes(2), Role::Opens(1))?;
        let (left, right) = self.pair()?;
        Ok(Prop::Apply(relation, left, right))
    }

    /// The word `txn` and its two groups of terms.
    fn txn(&mut self, alloc: Global) -> Result<Prop, Refusal>
        ensures gave { IfOk result
            (λ p. GaveAll txn_symbols (AProp (proposition_of p)) self.old self.new) }
        ensures shorter { OnOk result (length self.new.tokens < length self.old.tokens) }
        ensures refused { IfErr result (AreRefused txn_symbols self.old) }
    {
        let at = self.take(Terminal::TxnWord, Role::Makes(1))?;
        let first = self.braced(alloc)?;
        let second = self.braced(alloc)?;
        Ok(Prop::Txn(at, first, second))
    }

    /// Terms in braces.
    fn braced(&mut self, alloc: Global) -> Result<Points, Refusal>
        ensures gave { IfOk result (λ ps. GaveAll braced_symbols (TheTerms ps) self.old self.new) }
        ensures shorter { OnOk result (length self.new.tokens < length self.old.tokens) }
        ensures refused { IfErr result (AreRefused braced_symbols self.old) }
    {
        self.take(Terminal::OpenBrace, Role::Plain)?;
        let terms = self.terms(alloc)?;
        self.past(terms, Terminal::CloseBrace, Role::Plain)
    }

    /// What neither is `true` nor stands in brackets.
    fn statement(&mut self, alloc: Global) -> Result<Prop, Refusal>
        requires no_truth { is_ahead TrueWord self.old.tokens ≡ false }
        requires no_group { is_ahead OpenParen self.old.tokens ≡ false }
        ensures gave { IfOk result
            (λ p. Gave (APart (PropAt Atom)) (AProp (proposition_of p)) self.old self.new) }
        ensures shorter { OnOk result (length self.new.tokens < length self.old.tokens) }
        ensures refused { IfErr result (IsRefused (APart (PropAt Atom)) self.old) }
    {
        if self.sees(Terminal::TxnWord) {
            return self.txn(alloc);
        }
        if self.sees_term() {
            return self.equality();
        }
        self.application(alloc)
    }

    /// A single statement, or statements in brackets.
    #[cycle(prop)]
    fn atom(&mut self, alloc: Global) -> Result<Prop, Refusal>
        ensures gave { IfOk result
            (λ p. Gave (APart (PropAt Atom)) (AProp (proposition_of p)) self.old self.new) }
        ensures shorter { OnOk result (length self.new.tokens < length self.old.tokens) }
        ensures refused { IfErr result (IsRefused (APart (PropAt Atom)) self.old) }
    {
        if self.sees(Terminal::TrueWord) {
            return self.past(Prop::True, Terminal::TrueWord, Role::Makes(1));
        }
        if self.sees(Terminal::OpenParen) {
            self.take(Terminal::OpenParen, Role::Opens(0))?;
            let inside = self.prop(alloc)?;
            return self.past(inside, Terminal::CloseParen, Role::Closes);
        }
        self.statement(alloc)
    }

    /// An operand of this operator.
    #[cycle(prop)]
    fn prop_operand(&mut self, alloc: Global, junction: Junction) -> Result<Prop, Refusal>
        ensures gave { IfOk result
            (λ p. Gave (APart (PropAt (prop_operand junction))) (AProp (proposition_of p)) self.old
            self.new) }
        ensures shorter { OnOk result (length self.new.tokens < length self.old.tokens) }
        ensures refused { IfErr result
            (IsRefused (APart (PropAt (prop_operand junction))) self.old) }
    {
        match junction {
            Junction::And => self.atom(alloc),
            Junction::Or => self.joined_props(alloc, Junction::And),
        }
    }

    /// Statements with this operator and tighter ones between them.
    #[cycle(prop)]
    fn joined_props(&mut self, alloc: Global, junction: Junction) -> Result<Prop, Refusal>
        ensures gave { IfOk result
            (λ p. Gave (APart (PropAt (joined_props junction))) (AProp (proposition_of p)) self.old
            self.new) }
        ensures shorter { OnOk result (length self.new.tokens < length self.old.tokens) }
        ensures refused { IfErr result
            (IsRefused (APart (PropAt (joined_props junction))) self.old) }
    {
        let mark = junction.prop_mark();
        let mut left = self.prop_operand(alloc, junction)?;
        'more: while self.sees(mark) {
            left = self.more_props(alloc, junction, left)?;
        }
        Ok(left)
    }

    /// The operator's mark and its second operand.
    #[cycle(prop)]
    fn more_props(&mut self, alloc: Global, junction: Junction, left: Prop) -> Result<Prop, Refusal>
        requires { is_ahead (prop_mark junction) self.old.tokens ≡ true }
        ensures turned { IfOk result
            (λ p. Turned (more_props junction) (AProp (proposition_of left))
            (AProp (proposition_of p)) self.old self.new) }
        ensures shorter { OnOk result (length self.new.tokens < length self.old.tokens) }
        ensures refused { IfErr result
            (IsTurnRefused (more_props junction) (AProp (proposition_of left)) self.old) }
    {
        let left = self.past(left, junction.prop_mark(), Role::Makes(1))?;
        let (left, right) = both(left, self.prop_operand(alloc, junction))?;
        let (left, right) = boxed(alloc, left, right)?;
        Ok(junction.of_props(left, right))
    }

    /// Statements with `=>` between them.
    #[cycle(prop)]
    fn prop(&mut self, alloc: Global) -> Result<Prop, Refusal>
        ensures gave { IfOk result
            (λ p. Gave (APart (PropAt Whole)) (AProp (proposition_of p)) self.old self.new) }
        ensures shorter { OnOk result (length self.new.tokens < length self.old.tokens) }
        ensures refused { IfErr result (IsRefused (APart (PropAt Whole)) self.old) }
    {
        let left = self.joined_props(alloc, Junction::Or)?;
        if !self.sees(Terminal::Arrow) {
            return Ok(left);
        }
        let left = self.past(left, Terminal::Arrow, Role::Makes(1))?;
        let (left, right) = both(left, self.prop(alloc))?;
        let (left, right) = boxed(alloc, left, right)?;
        Ok(Prop::Implies(left, right))
    }

    /// Names with this mark between them.
    pub(crate) fn names(&mut self, alloc: Global, mark: Terminal) -> Result<NameList, Refusal>
        ensures gave { IfOk result (λ names. GaveNames mark names self.old self.new) }
        ensures shorter { OnOk result (length self.new.tokens < length self.old.tokens) }
        ensures refused { IfErr result (AreNamesRefused mark self.old) }
    {
        let mut names = Vec::with_capacity(alloc, USUAL_PARTS)?;
        'names: loop {
            let name = self.name(Role::Plain)?;
            names.push(name)?;
            if !self.passes(mark) {
                return Ok(NameList::of(names));
            }
        }
    }

    /// A variable with the operations that it ranges over.
    fn variable(&mut self, alloc: Global) -> Result<Var, Refusal>
        ensures gave { IfOk result (λ v. Gave (APart Variable) (AVar v) self.old self.new) }
        ensures shorter { OnOk result (length self.new.tokens < length self.old.tokens) }
        ensures refused { IfErr result (IsRefused (APart Variable) self.old) }
    {
        let name = self.name(Role::Plain)?;
        if self.passes(Terminal::Colon) {
            let ops = self.names(alloc, Terminal::Bar)?;
            return Ok(Var { name, ops });
        }
        let none = Vec::new(alloc);
        let ops = NameList::of(none);
        Ok(Var { name, ops })
    }

    /// Variables with commas between them.
    fn variables(&mut self, alloc: Global) -> Result<Vars, Refusal>
        ensures gave { IfOk result (λ vars. Gave (APart VarList) (TheVars vars) self.old self.new) }
        ensures shorter { OnOk result (length self.new.tokens < length self.old.tokens) }
        ensures refused { IfErr result (IsRefused (APart VarList) self.old) }
    {
        let mut vars = Vec::with_capacity(alloc, USUAL_PARTS)?;
        'vars: loop {
            let var = self.variable(alloc)?;
            vars.push(var)?;
            if !self.passes(Terminal::Comma) {
                return Ok(Vars::of(vars));
            }
        }
    }

    /// A whole contract.
    pub(crate) fn contract(&mut self, alloc: Global) -> Result<Contract, Refusal>
        ensures gave { IfOk result
            (λ c. Gave (APart WholeContract) (ASentence (sentence_of c)) self.old self.new) }
        ensures shorter { OnOk result (length self.new.tokens < length self.old.tokens) }
        ensures refused { IfErr result (IsRefused (APart WholeContract) self.old) }
    {
        if self.passes(Terminal::ForallWord) {
            let vars = self.variables(alloc)?;
            self.take(Terminal::Dot, Role::Plain)?;
            let body = self.prop(alloc)?;
            return Ok(Contract { vars, body });
        }
        let body = self.prop(alloc)?;
        let none = Vec::new(alloc);
        let vars = Vars::of(none);
        Ok(Contract { vars, body })
    }
}
