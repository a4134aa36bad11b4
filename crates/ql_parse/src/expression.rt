ghost use Rattle.std.specs.Prelude.{◌≡◌, ◌<◌, ◌≤◌, IfErr, IfOk, OnOk, is_some, length, map, true};
ghost use Rattle.ql_grammar.specs.declared.terminal.Terminal.TheVariants.{
  IfWord,
  IntToken,
  Minus,
  NameToken,
  NotWord,
  OpenParen,
  TextToken,
};
ghost use Rattle.ql_grammar.specs.ExpressionGrammar.{Chosen, Unary};
ghost use Rattle.ql_grammar.specs.Machine.{is_ahead, operator_ahead};
ghost use Rattle.ql_grammar.specs.Table.{
  APart,
  AnExpr,
  Arguments,
  ExprAt,
  TheExprs,
  constant_ways,
};
ghost use Rattle.ql_lang.specs.Expressions.{Choosing, Combining, expression_of};
ghost use Rattle.ql_parse.specs.Precedences.{
  Combined,
  chains,
  more_at,
  operand_at,
  part_at,
  tighter,
  up_to,
};
ghost use Rattle.ql_parse.specs.Readings.{
  AreRefused,
  Gave,
  GaveAll,
  GaveOneOf,
  GaveRest,
  GaveTwo,
  IsOneOfRefused,
  IsRefused,
  IsRestRefused,
  bracketed_arguments,
  branch_symbols,
  branches_symbols,
};

use crate::fault::Refusal;
use crate::junction::{both, boxed};
use crate::reader::Reader;
use ql_grammar::{Precedence, Role, Terminal};
use ql_lang::{BinOp, Expr, ExprNode, Exprs};
use std::alloc::Global;

/// No function takes more arguments than `get` and `put`.
const MOST_ARGUMENTS: usize = 3;

/// An expression that was read, and where it starts: at its own offset, or at that of a bracket round it.
#[derive(Drop)]
pub(crate) struct Operand {
    pub(crate) start: u32,
    pub(crate) expr: Expr,
}

/// The next tighter precedence.
fn tighter(precedence: Precedence) -> Option<Precedence>
    ensures { result ≡ tighter precedence }
{
    match precedence {
        Precedence::Product => None,
        Precedence::Sum => Some(Precedence::Product),
        Precedence::Comparison => Some(Precedence::Sum),
        Precedence::Conjunction => Some(Precedence::Comparison),
        Precedence::Disjunction => Some(Precedence::Conjunction),
    }
}

/// This precedence and all tighter ones, the tightest first.
fn up_to(precedence: Precedence) -> &'static [Precedence]
    ensures { result.now ≡ up_to precedence }
{
    match precedence {
        Precedence::Product => &[Precedence::Product],
        Precedence::Sum => &[Precedence::Product, Precedence::Sum],
        Precedence::Comparison => {
            &[Precedence::Product, Precedence::Sum, Precedence::Comparison]
        }
        Precedence::Conjunction => &[
            Precedence::Product,
            Precedence::Sum,
            Precedence::Comparison,
            Precedence::Conjunction,
        ],
        Precedence::Disjunction => &[
            Precedence::Product,
            Precedence::Sum,
            Precedence::Comparison,
            Precedence::Conjunction,
            Precedence::Disjunction,
        ],
    }
}

/// Whether operators of this precedence may follow one another without brackets.
fn chains(precedence: Precedence) -> bool
    ensures { result ≡ chains precedence }
{
    match precedence {
        Precedence::Comparison => false,
        _ => true,
    }
}

/// The operator with its two operands, which starts where the first one does.
#[inline(always)]
fn combination(alloc: Global, left: Operand, op: BinOp, right: Operand) -> Result<Operand, Refusal>
    ensures tree { IfOk result
        (λ o. AnExpr o.start (expression_of o.expr)
        ≡ AnExpr left.start
        (Combining left.start op (expression_of left.expr) (expression_of right.expr))) }
    ensures full { IfErr result (λ e. e ≡ Refusal.NoMemory) }
{
    let start = left.start;
    let (first, second) = boxed(alloc, left.expr, right.expr)?;
    let node = ExprNode::Binary(op, first, second);
    Ok(Operand {
        start,
        expr: Expr { at: start, node },
    })
}

/// The choice that the word `if` at `at` begins.
#[inline(always)]
fn conditional(
    alloc: Global,
    at: u32,
    test: Expr,
    then: Expr,
    other: Expr,
) -> Result<Operand, Refusal>
    ensures tree { IfOk result
        (λ o. AnExpr o.start (expression_of o.expr)
        ≡ AnExpr at
        (Choosing at (expression_of test) (expression_of then) (expression_of other))) }
    ensures full { IfErr result (λ e. e ≡ Refusal.NoMemory) }
{
    let test = Box::new(alloc, test)?;
    let (first, second) = boxed(alloc, then, other)?;
    let node = ExprNode::If(test, first, second);
    Ok(Operand {
        start: at,
        expr: Expr { at, node },
    })
}

impl Reader<'_> {
    /// A truth value or the unit.
    fn constant(&mut self) -> Result<Operand, Refusal>
        ensures gave { IfOk result
            (λ o. GaveOneOf constant_ways (AnExpr o.start (expression_of o.expr)) self.old
            self.new) }
        ensures shorter { OnOk result (length self.new.tokens < length self.old.tokens) }
        ensures refused { IfErr result (IsOneOfRefused constant_ways self.old) }
    {
        if self.sees(Terminal::TrueWord) {
            let at = self.take(Terminal::TrueWord, Role::Makes(1))?;
            return Ok(Operand {
                start: at,
                expr: Expr {
                    at,
                    node: ExprNode::Bool(true),
                },
            });
        }
        if self.sees(Terminal::FalseWord) {
            let at = self.take(Terminal::FalseWord, Role::Makes(1))?;
            return Ok(Operand {
                start: at,
                expr: Expr {
                    at,
                    node: ExprNode::Bool(false),
                },
            });
        }
        let at = self.take(Terminal::UnitWord, Role::Makes(1))?;
        Ok(Operand {
            start: at,
            expr: Expr {
                at,
                node: ExprNode::Unit,
            },
        })
    }

    /// A number.
    fn numeral(&mut self) -> Result<Operand, Refusal>
        requires { is_ahead IntToken self.old.tokens ≡ true }
        ensures gave { IfOk result
            (λ o. Gave (APart (ExprAt Unary)) (AnExpr o.start (expression_of o.expr)) self.old
            self.new) }
        ensures shorter { OnOk result (length self.new.tokens < length self.old.tokens) }
        ensures refused { IfErr result (IsRefused (APart (ExprAt Unary)) self.old) }
    {
        let at = self.place();
        let value = self.number(Role::Makes(1))?;
        Ok(Operand {
            start: at,
            expr: Expr {
                at,
                node: ExprNode::Int(value),
            },
        })
    }

    /// A text.
    fn literal(&mut self, alloc: Global) -> Result<Operand, Refusal>
        requires { is_ahead TextToken self.old.tokens ≡ true }
        ensures gave { IfOk result
            (λ o. Gave (APart (ExprAt Unary)) (AnExpr o.start (expression_of o.expr)) self.old
            self.new) }
        ensures shorter { OnOk result (length self.new.tokens < length self.old.tokens) }
        ensures refused { IfErr result (IsRefused (APart (ExprAt Unary)) self.old) }
    {
        let at = self.place();
        let text = self.text(alloc, Role::Makes(1))?;
        Ok(Operand {
            start: at,
            expr: Expr {
                at,
                node: ExprNode::Text(text),
            },
        })
    }

    /// A variable, or a call with its arguments.
    #[cycle(expr)]
    fn named(&mut self, alloc: Global) -> Result<Operand, Refusal>
        requires { is_ahead NameToken self.old.tokens ≡ true }
        ensures gave { IfOk result
            (λ o. Gave (APart (ExprAt Unary)) (AnExpr o.start (expression_of o.expr)) self.old
            self.new) }
        ensures shorter { OnOk result (length self.new.tokens < length self.old.tokens) }
        ensures refused { IfErr result (IsRefused (APart (ExprAt Unary)) self.old) }
    {
        let name = self.name(Role::Makes(1))?;
        let at = name.at;
        if self.sees(Terminal::OpenParen) {
            let args = self.bracketed(alloc)?;
            let node = ExprNode::Call(name, Exprs::of(args));
            return Ok(Operand {
                start: at,
                expr: Expr { at, node },
            });
        }
        Ok(Operand {
            start: at,
            expr: Expr {
                at,
                node: ExprNode::Var(name),
            },
        })
    }

    /// The arguments of a call in their brackets.
    #[cycle(expr)]
    fn bracketed(&mut self, alloc: Global) -> Result<Vec<Expr>, Refusal>
        ensures gave { IfOk result
            (λ es. GaveAll bracketed_arguments (TheExprs (map expression_of es.items)) self.old
            self.new) }
        ensures shorter { OnOk result (length self.new.tokens < length self.old.tokens) }
        ensures refused { IfErr result (AreRefused bracketed_arguments self.old) }
    {
        self.take(Terminal::OpenParen, Role::Opens(0))?;
        let args = self.arguments_of_call(alloc)?;
        self.past(args, Terminal::CloseParen, Role::Closes)
    }

    /// Expressions with commas between them.
    #[cycle(expr)]
    fn arguments_of_call(&mut self, alloc: Global) -> Result<Vec<Expr>, Refusal>
        ensures gave { IfOk result
            (λ es. Gave (APart Arguments) (TheExprs (map expression_of es.items)) self.old
            self.new) }
        ensures shorter { OnOk result (length self.new.tokens < length self.old.tokens) }
        ensures refused { IfErr result (IsRefused (APart Arguments) self.old) }
    {
        let mut found = Vec::with_capacity(alloc, MOST_ARGUMENTS)?;
        'more: loop {
            let arg = self.whole_expression(alloc)?;
            found.push(arg.expr)?;
            if !self.passes(Terminal::Comma) {
                return Ok(found);
            }
        }
    }

    /// An expression in brackets.
    #[cycle(expr)]
    fn group(&mut self, alloc: Global) -> Result<Operand, Refusal>
        requires { is_ahead OpenParen self.old.tokens ≡ true }
        ensures gave { IfOk result
            (λ o. Gave (APart (ExprAt Unary)) (AnExpr o.start (expression_of o.expr)) self.old
            self.new) }
        ensures shorter { OnOk result (length self.new.tokens < length self.old.tokens) }
        ensures refused { IfErr result (IsRefused (APart (ExprAt Unary)) self.old) }
    {
        let at = self.take(Terminal::OpenParen, Role::Opens(0))?;
        let inside = self.whole_expression(alloc)?;
        let group = Operand {
            start: at,
            expr: inside.expr,
        };
        self.past(group, Terminal::CloseParen, Role::Closes)
    }

    /// The word `not` and what it denies.
    #[cycle(expr)]
    fn denial(&mut self, alloc: Global) -> Result<Operand, Refusal>
        requires { is_ahead NotWord self.old.tokens ≡ true }
        ensures gave { IfOk result
            (λ o. Gave (APart (ExprAt Unary)) (AnExpr o.start (expression_of o.expr)) self.old
            self.new) }
        ensures shorter { OnOk result (length self.new.tokens < length self.old.tokens) }
        ensures refused { IfErr result (IsRefused (APart (ExprAt Unary)) self.old) }
    {
        let at = self.take(Terminal::NotWord, Role::Makes(1))?;
        let denied = self.unary(alloc)?;
        let node = ExprNode::Not(Box::new(alloc, denied.expr)?);
        Ok(Operand {
            start: at,
            expr: Expr { at, node },
        })
    }

    /// A `-` and what it negates.
    #[cycle(expr)]
    fn negation(&mut self, alloc: Global) -> Result<Operand, Refusal>
        requires { is_ahead Minus self.old.tokens ≡ true }
        ensures gave { IfOk result
            (λ o. Gave (APart (ExprAt Unary)) (AnExpr o.start (expression_of o.expr)) self.old
            self.new) }
        ensures shorter { OnOk result (length self.new.tokens < length self.old.tokens) }
        ensures refused { IfErr result (IsRefused (APart (ExprAt Unary)) self.old) }
    {
        let at = self.take(Terminal::Minus, Role::Makes(1))?;
        let negated = self.unary(alloc)?;
        let node = ExprNode::Neg(Box::new(alloc, negated.expr)?);
        Ok(Operand {
            start: at,
            expr: Expr { at, node },
        })
    }

    /// A value, name, call or expression in brackets, with `not` and `-` before it.
    #[cycle(expr)]
    fn unary(&mut self, alloc: Global) -> Result<Operand, Refusal>
        ensures gave { IfOk result
            (λ o. Gave (APart (ExprAt Unary)) (AnExpr o.start (expression_of o.expr)) self.old
            self.new) }
        ensures shorter { OnOk result (length self.new.tokens < length self.old.tokens) }
        ensures refused { IfErr result (IsRefused (APart (ExprAt Unary)) self.old) }
    {
        if self.sees(Terminal::IntToken) {
            return self.numeral();
        }
        if self.sees(Terminal::TextToken) {
            return self.literal(alloc);
        }
        if self.sees(Terminal::NameToken) {
            return self.named(alloc);
        }
        if self.sees(Terminal::OpenParen) {
            return self.group(alloc);
        }
        if self.sees(Terminal::NotWord) {
            return self.denial(alloc);
        }
        if self.sees(Terminal::Minus) {
            return self.negation(alloc);
        }
        self.constant()
    }

    /// An operand of operators of this precedence.
    #[cycle(expr)]
    fn operand(&mut self, alloc: Global, precedence: Precedence) -> Result<Operand, Refusal>
        ensures gave { IfOk result
            (λ o. Gave (APart (ExprAt (operand_at precedence)))
            (AnExpr o.start (expression_of o.expr)) self.old self.new) }
        ensures shorter { OnOk result (length self.new.tokens < length self.old.tokens) }
        ensures refused { IfErr result
            (IsRefused (APart (ExprAt (operand_at precedence))) self.old) }
    {
        if let Some(inner) = tighter(precedence) {
            return self.operands(alloc, inner);
        }
        self.unary(alloc)
    }

    /// The next operator, which has this precedence, and its second operand.
    #[cycle(expr)]
    fn combined(
        &mut self,
        alloc: Global,
        precedence: Precedence,
        left: Operand,
    ) -> Result<Operand, Refusal>
        requires { is_some (operator_ahead precedence self.old.tokens) ≡ true }
        ensures gave { IfOk result
            (λ o. Combined precedence (AnExpr left.start (expression_of left.expr))
            (AnExpr o.start (expression_of o.expr)) self.old self.new) }
        ensures shorter { OnOk result (length self.new.tokens < length self.old.tokens) }
        ensures refused { IfErr result
            (IsRestRefused (more_at precedence) (AnExpr left.start (expression_of left.expr))
            self.old) }
    {
        let op = self.operator(precedence)?;
        let (left, right) = both(left, self.operand(alloc, precedence))?;
        combination(alloc, left, op, right)
    }

    /// The next operators, which have this precedence, each with its second operand.
    #[cycle(expr)]
    fn more_operands(
        &mut self,
        alloc: Global,
        precedence: Precedence,
        left: Operand,
    ) -> Result<Operand, Refusal>
        requires { is_some (operator_ahead precedence self.old.tokens) ≡ true }
        ensures gave { IfOk result
            (λ o. GaveRest (more_at precedence) (AnExpr left.start (expression_of left.expr))
            (AnExpr o.start (expression_of o.expr)) self.old self.new) }
        ensures shorter { OnOk result (length self.new.tokens < length self.old.tokens) }
        ensures refused { IfErr result
            (IsRestRefused (more_at precedence) (AnExpr left.start (expression_of left.expr))
            self.old) }
    {
        let both = self.combined(alloc, precedence, left)?;
        if !chains(precedence) {
            return Ok(both);
        }
        if !self.sees_operator(precedence) {
            return Ok(both);
        }
        self.more_operands(alloc, precedence, both)
    }

    /// Operands with operators of this precedence and of tighter ones between them.
    #[cycle(expr)]
    fn operands(&mut self, alloc: Global, precedence: Precedence) -> Result<Operand, Refusal>
        ensures gave { IfOk result
            (λ o. Gave (APart (ExprAt (part_at precedence)))
            (AnExpr o.start (expression_of o.expr)) self.old self.new) }
        ensures shorter { OnOk result (length self.new.tokens < length self.old.tokens) }
        ensures refused { IfErr result (IsRefused (APart (ExprAt (part_at precedence))) self.old) }
    {
        let mut left = self.unary(alloc)?;
        if !self.sees_any_operator() {
            return Ok(left);
        }
        for level in up_to(precedence) {
            if !self.sees_operator(*level) {
                continue;
            }
            left = self.more_operands(alloc, *level, left)?;
        }
        Ok(left)
    }

    /// A word and the expression after it.
    #[cycle(expr)]
    fn branch(&mut self, alloc: Global, word: Terminal) -> Result<Operand, Refusal>
        ensures gave { IfOk result
            (λ o. GaveAll (branch_symbols word) (AnExpr o.start (expression_of o.expr)) self.old
            self.new) }
        ensures shorter { OnOk result (length self.new.tokens < length self.old.tokens) }
        ensures refused { IfErr result (AreRefused (branch_symbols word) self.old) }
    {
        self.take(word, Role::Plain)?;
        self.whole_expression(alloc)
    }

    /// The two expressions between which a test chooses, each after its word.
    #[cycle(expr)]
    fn branches(&mut self, alloc: Global) -> Result<(Operand, Operand), Refusal>
        ensures gave { IfOk result
            (λ both. GaveTwo branches_symbols
            (AnExpr both.0.start (expression_of both.0.expr))
            (AnExpr both.1.start (expression_of both.1.expr)) self.old self.new) }
        ensures shorter { OnOk result (length self.new.tokens < length self.old.tokens) }
        ensures refused { IfErr result (AreRefused branches_symbols self.old) }
    {
        let then = self.branch(alloc, Terminal::ThenWord)?;
        let other = self.branch(alloc, Terminal::ElseWord);
        both(then, other)
    }

    /// A test and the two expressions between which it chooses.
    #[cycle(expr)]
    fn choice(&mut self, alloc: Global) -> Result<Operand, Refusal>
        requires { is_ahead IfWord self.old.tokens ≡ true }
        ensures gave { IfOk result
            (λ o. Gave (APart (ExprAt Chosen)) (AnExpr o.start (expression_of o.expr)) self.old
            self.new) }
        ensures shorter { OnOk result (length self.new.tokens < length self.old.tokens) }
        ensures refused { IfErr result (IsRefused (APart (ExprAt Chosen)) self.old) }
    {
        let at = self.take(Terminal::IfWord, Role::Makes(1))?;
        let test = self.whole_expression(alloc)?;
        let (test, branches) = both(test, self.branches(alloc))?;
        conditional(alloc, at, test.expr, branches.0.expr, branches.1.expr)
    }

    /// A whole expression.
    #[cycle(expr)]
    pub(crate) fn whole_expression(&mut self, alloc: Global) -> Result<Operand, Refusal>
        ensures gave { IfOk result
            (λ o. Gave (APart (ExprAt Chosen)) (AnExpr o.start (expression_of o.expr)) self.old
            self.new) }
        ensures shorter { OnOk result (length self.new.tokens < length self.old.tokens) }
        ensures refused { IfErr result (IsRefused (APart (ExprAt Chosen)) self.old) }
    {
        if self.sees(Terminal::IfWord) {
            return self.choice(alloc);
        }
        self.operands(alloc, Precedence::Disjunction)
    }
}
