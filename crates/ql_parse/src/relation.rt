ghost use Rattle.std.specs.Prelude.{◌≡◌, ◌<◌, IfErr, IfOk, OnOk, length, true};
ghost use Rattle.ql_grammar.specs.Machine.{is_ahead};
ghost use Rattle.ql_grammar.specs.Table.{APart, ARelation, RelationAt, relation_ways};
ghost use Rattle.ql_lang.specs.Trees.{relation_of};
ghost use Rattle.ql_parse.specs.Junctions.{joined_relations, more_relations, relation_mark, relation_operand};
ghost use Rattle.ql_parse.specs.Readings.{Gave, GaveOneOf, IsOneOfRefused, IsRefused, IsTurnRefused, Turned, relation_ahead};

use crate::fault::Refusal;
use crate::junction::{Junction, both, boxed};
use crate::reader::Reader;
use ql_grammar::{Role, Terminal};
use ql_lang::{Rel, RelName};
use std::alloc::Global;

impl Reader<'_> {
    /// The name of a relation that comes next, with its word; where none does, the last of them.
    fn relation_word(&self) -> (Terminal, RelName)
        ensures { result ≡ relation_ahead self.now.tokens }
    {
        if self.sees(Terminal::VisWord) {
            (Terminal::VisWord, RelName::Vis)
        } else if self.sees(Terminal::SoWord) {
            (Terminal::SoWord, RelName::So)
        } else if self.sees(Terminal::SooWord) {
            (Terminal::SooWord, RelName::Soo)
        } else if self.sees(Terminal::SameObjWord) {
            (Terminal::SameObjWord, RelName::SameObj)
        } else if self.sees(Terminal::EqWord) {
            (Terminal::EqWord, RelName::Eq)
        } else if self.sees(Terminal::HbWord) {
            (Terminal::HbWord, RelName::Hb)
        } else {
            (Terminal::HboWord, RelName::Hbo)
        }
    }

    /// A named relation, or one in brackets. Its name or its bracket has this role.
    #[cycle(relation)]
    pub(crate) fn single(
        &mut self,
        alloc: Global,
        name: Role,
        bracket: Role,
    ) -> Result<Rel, Refusal>
        ensures gave { IfOk result
            (λ r. GaveOneOf (relation_ways name bracket) (ARelation (relation_of r)) self.old
            self.new) }
        ensures shorter { OnOk result (length self.new.tokens < length self.old.tokens) }
        ensures refused { IfErr result (IsOneOfRefused (relation_ways name bracket) self.old) }
    {
        if self.sees(Terminal::OpenBracket) {
            self.take(Terminal::OpenBracket, bracket)?;
            let inside = self.joined_relations(alloc, Junction::Or)?;
            return self.past(inside, Terminal::CloseBracket, Role::Closes);
        }
        let (word, known) = self.relation_word();
        let at = self.take(word, name)?;
        Ok(Rel::Base(known, at))
    }

    /// An operand of this operator.
    #[cycle(relation)]
    fn relation_operand(&mut self, alloc: Global, junction: Junction) -> Result<Rel, Refusal>
        ensures gave { IfOk result
            (λ r. Gave (APart (RelationAt (relation_operand junction))) (ARelation (relation_of r))
            self.old self.new) }
        ensures shorter { OnOk result (length self.new.tokens < length self.old.tokens) }
        ensures refused { IfErr result
            (IsRefused (APart (RelationAt (relation_operand junction))) self.old) }
    {
        match junction {
            Junction::And => self.single(alloc, Role::Makes(1), Role::Opens(0)),
            Junction::Or => self.joined_relations(alloc, Junction::And),
        }
    }

    /// Relations with this operator and tighter ones between them.
    #[cycle(relation)]
    fn joined_relations(&mut self, alloc: Global, junction: Junction) -> Result<Rel, Refusal>
        ensures gave { IfOk result
            (λ r. Gave (APart (RelationAt (joined_relations junction))) (ARelation (relation_of r))
            self.old self.new) }
        ensures shorter { OnOk result (length self.new.tokens < length self.old.tokens) }
        ensures refused { IfErr result
            (IsRefused (APart (RelationAt (joined_relations junction))) self.old) }
    {
        let mark = junction.relation_mark();
        let mut left = self.relation_operand(alloc, junction)?;
        'more: while self.sees(mark) {
            left = self.more_relations(alloc, junction, left)?;
        }
        Ok(left)
    }

    /// The operator's mark and its second operand.
    #[cycle(relation)]
    fn more_relations(
        &mut self,
        alloc: Global,
        junction: Junction,
        left: Rel,
    ) -> Result<Rel, Refusal>
        requires { is_ahead (relation_mark junction) self.old.tokens ≡ true }
        ensures turned { IfOk result
            (λ r. Turned (more_relations junction) (ARelation (relation_of left))
            (ARelation (relation_of r)) self.old self.new) }
        ensures shorter { OnOk result (length self.new.tokens < length self.old.tokens) }
        ensures refused { IfErr result
            (IsTurnRefused (more_relations junction) (ARelation (relation_of left)) self.old) }
    {
        let left = self.past(left, junction.relation_mark(), Role::Makes(1))?;
        let (left, right) = both(left, self.relation_operand(alloc, junction))?;
        let (left, right) = boxed(alloc, left, right)?;
        Ok(junction.of_relations(left, right))
    }
}
