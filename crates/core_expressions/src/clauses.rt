// Clauses of `case` and of `receive` (Core Erlang 1.0.3, "Expressions"), each annotated any number of times.
ghost use Rattle.std.specs.Prelude.{map, ◌∷◌, []};
ghost use Rattle.core_tokens.specs.declared.token.Keyword.TheVariants.{When};
ghost use Rattle.core_tokens.specs.declared.token.Mark.TheVariants.{Less};
ghost use Rattle.core_tree.specs.Syntax.{clauses_of};
ghost use Rattle.core_tree.specs.Expression as trees;
ghost use Rattle.core_tree.specs.Tree.{pattern_of, tree_of};
ghost use Rattle.core_grammar.specs.inside.Decoder.{BuildsUnlessMemory, MovesUnlessMemory, word_behind, after_word};
ghost use Rattle.core_grammar.specs.inside.DecoderForms.{guarded_at, behind_patterns_at, clause_of, started, inside_start_at, aliased, noted_start_at, angles_at, bare_start_at, start_at, clause_at, clauses_at, choices_at, case_at, expiry_at, receive_at, expression_at};
ghost use Rattle.core_expressions.specs.inside.FormView.{start_in_note_at, start_of, state_in};

use crate::form_reader::FormReader;
use core_grammar::Subject;
use core_tokens::{Keyword, Mark, ReadFault};
use core_tree::{Case, Clause, Clauses, Expr, Pattern, Patterns, Receive};
use std::alloc::Global;
use term_core::Atom;

/// What a clause begins with.
#[derive(Drop)]
pub(crate) enum Start {
    /// One pattern.
    One(Pattern),
    /// Patterns in angles.
    Many(Vec<Pattern>),
    /// The whole clause, in the parentheses of an annotation.
    Whole(Clause),
}

fn one_pattern(alloc: Global, pattern: Pattern) -> Result<Vec<Pattern>, ReadFault>
    ensures { BuildsUnlessMemory (λ v. map pattern_of v.items) result (pattern_of pattern ∷ []) }
{
    let mut patterns = Vec::new(alloc);
    patterns.push(pattern)?;
    Ok(patterns)
}

fn one_clause(alloc: Global, clause: Clause) -> Result<Vec<Clause>, ReadFault>
    ensures { BuildsUnlessMemory (λ v. v.items) result (clause ∷ []) }
{
    let mut clauses = Vec::new(alloc);
    clauses.push(clause)?;
    Ok(clauses)
}

fn receive_of(
    alloc: Global,
    at: usize,
    clauses: Vec<Clause>,
    timeout: Expr,
    action: Expr,
) -> Result<Expr, ReadFault>
    ensures { BuildsUnlessMemory tree_of result (trees.Receive at (clauses_of clauses.items) (tree_of timeout) (tree_of action)) }
{
    let clauses = Clauses(clauses);
    Ok(Expr::Receive(Box::new(
        alloc,
        Receive {
            at,
            clauses,
            timeout,
            action,
        },
    )?))
}

fn case_of(alloc: Global, at: usize, value: Expr, clauses: Vec<Clause>) -> Result<Expr, ReadFault>
    ensures { BuildsUnlessMemory tree_of result (trees.Case at (tree_of value) (clauses_of clauses.items)) }
{
    let clauses = Clauses(clauses);
    Ok(Expr::Case(Box::new(alloc, Case { at, value, clauses })?))
}

impl<'a> FormReader<'a> {
    // The guard of a clause and its body: `when expr -> expr`.
    #[cycle(expressions)]
    #[tactic(auto, unfolding(core_grammar::specs::inside::DecoderForms::guarded_at))]
    fn guarded(&mut self, own: &Atom, levels: u16) -> Result<(Expr, Expr), ReadFault>
        ensures { MovesUnlessMemory (λ p. (tree_of p.0, tree_of p.1)) result (state_in self.new) (guarded_at own.now levels (expression_at own.now levels) (state_in self.old)) }
    {
        self.parser.word(Keyword::When)?;
        let guard = self.expression(own, levels)?;
        let body = self.body(own, levels)?;
        Ok((guard, body))
    }

    // What follows the patterns of a clause.
    #[cycle(expressions)]
    fn behind_patterns(
        &mut self,
        own: &Atom,
        levels: u16,
        patterns: Vec<Pattern>,
    ) -> Result<Clause, ReadFault>
        ensures { MovesUnlessMemory (λ c. c) result (state_in self.new) (behind_patterns_at own.now levels (expression_at own.now levels) (map pattern_of patterns.items) (state_in self.old)) }
    {
        let (guard, body) = self.guarded(own, levels)?;
        Ok(Clause {
            patterns: Patterns(patterns),
            guard,
            body,
        })
    }

    // The start of a clause as a clause.
    #[cycle(expressions)]
    fn clause_of(&mut self, own: &Atom, levels: u16, start: Start) -> Result<Clause, ReadFault>
        ensures { MovesUnlessMemory (λ c. c) result (state_in self.new) (clause_of own.now levels (expression_at own.now levels) (start_of start) (state_in self.old)) }
    {
        match start {
            Start::One(pattern) => {
                let patterns = one_pattern(self.parser.alloc, pattern)?;
                Ok(self.behind_patterns(own, levels, patterns)?)
            }
            Start::Many(patterns) => Ok(self.behind_patterns(own, levels, patterns)?),
            Start::Whole(clause) => Ok(clause),
        }
    }

    // The start of a clause in the parentheses of an annotation: with `when` after its patterns it is the
    // whole clause.
    #[cycle(expressions)]
    fn started(&mut self, own: &Atom, levels: u16, start: Start) -> Result<Start, ReadFault>
        ensures { MovesUnlessMemory start_of result (state_in self.new) (started own.now levels (expression_at own.now levels) (start_of start) (after_word When (state_in self.old).pieces) (state_in self.old)) }
    {
        if !self.parser.is_at_word(Keyword::When) {
            return Ok(start);
        }
        Ok(Start::Whole(self.clause_of(own, levels, start)?))
    }

    // What is in the parentheses of an annotation of a clause or of its patterns.
    #[cycle(expressions)]
    #[tactic(auto, unfolding(core_grammar::specs::inside::DecoderForms::inside_start_at))]
    fn inside_start(
        &mut self,
        own: &Atom,
        levels: u16,
        subject: Subject,
    ) -> Result<Start, ReadFault>
        ensures { MovesUnlessMemory start_of result (state_in self.new) (inside_start_at own.now levels (expression_at own.now levels) (start_at own.now levels subject) (state_in self.old)) }
    {
        let start = self.start(own, levels, subject)?;
        Ok(self.started(own, levels, start)?)
    }

    // The start of a clause after the parentheses of an annotation: a variable may be that of an alias.
    fn aliased(&mut self, own: &Atom, levels: u16, start: Start) -> Result<Start, ReadFault>
        ensures { MovesUnlessMemory start_of result (state_in self.new) (aliased own.now levels (expression_at own.now levels) (start_of start) (state_in self.old)) }
    {
        match start {
            Start::One(pattern) => Ok(Start::One(self.parser.alias(pattern, levels)?)),
            Start::Many(patterns) => Ok(Start::Many(patterns)),
            Start::Whole(clause) => Ok(Start::Whole(clause)),
        }
    }

    // A start of a clause in the parentheses of an annotation, and the end of the annotation.
    #[cycle(expressions)]
    #[tactic(auto, unfolding(core_grammar::specs::inside::Decoder::in_note_at))]
    fn start_in_note(
        &mut self,
        own: &Atom,
        levels: u16,
        subject: Subject,
    ) -> Result<Start, ReadFault>
        ensures { MovesUnlessMemory start_of result (state_in self.new) (start_in_note_at own.now levels subject (state_in self.old)) }
    {
        let start = self.inside_start(own, levels, subject)?;
        self.parser.note(levels).and(Ok(start))
    }

    // A start of a clause in the parentheses of an annotation, whose parts are at so many levels.
    #[cycle(expressions)]
    #[tactic(auto, unfolding(core_grammar::specs::inside::DecoderForms::noted_start_at))]
    fn noted_start(&mut self, own: &Atom, levels: u16, subject: Subject) -> Result<Start, ReadFault>
        ensures { MovesUnlessMemory start_of result (state_in self.new) (noted_start_at own.now levels (expression_at own.now levels) (start_at own.now levels subject) (state_in self.old)) }
    {
        let start = self.start_in_note(own, levels, subject)?;
        Ok(self.aliased(own, levels, start)?)
    }

    // What follows the angle of patterns: any number of them for values, one for a message.
    #[tactic(auto, unfolding(core_grammar::specs::inside::DecoderForms::angles_at, core_grammar::specs::inside::Decoder::exactly_at))]
    fn angles(&mut self, levels: u16, subject: Subject) -> Result<Vec<Pattern>, ReadFault>
        ensures { MovesUnlessMemory (λ v. map pattern_of v.items) result (state_in self.new) (angles_at levels subject (state_in self.old)) }
    {
        match subject {
            Subject::Values => Ok(self.parser.patterns(levels, Mark::Greater)?),
            Subject::Message => {
                let pattern = self.parser.pattern(levels)?;
                self.parser.mark(Mark::Greater)?;
                Ok(one_pattern(self.parser.alloc, pattern)?)
            }
        }
    }

    // Patterns without a parenthesis before them.
    #[tactic(auto, unfolding(core_grammar::specs::inside::DecoderForms::bare_start_at))]
    fn bare_start(&mut self, levels: u16, subject: Subject) -> Result<Start, ReadFault>
        ensures { MovesUnlessMemory start_of result (state_in self.new) (bare_start_at levels subject (state_in self.old)) }
    {
        if self.parser.skip_mark(Mark::Less) {
            return Ok(Start::Many(self.angles(levels, subject)?));
        }
        Ok(Start::One(self.parser.pattern(levels)?))
    }

    // What a clause begins with, annotated in at most so many levels.
    #[cycle(expressions)]
    fn start(&mut self, own: &Atom, levels: u16, subject: Subject) -> Result<Start, ReadFault>
        ensures { MovesUnlessMemory start_of result (state_in self.new) (start_at own.now levels subject (state_in self.old)) }
    {
        if !self.parser.opens_note(levels)? {
            return Ok(self.bare_start(levels, subject)?);
        }
        Ok(self.noted_start(own, levels - 1, subject)?)
    }

    // A clause whose parts have at most so many levels.
    #[cycle(expressions)]
    #[tactic(auto, unfolding(core_grammar::specs::inside::DecoderForms::clause_at))]
    fn clause(&mut self, own: &Atom, levels: u16, subject: Subject) -> Result<Clause, ReadFault>
        ensures { MovesUnlessMemory (λ c. c) result (state_in self.new) (clause_at own.now levels (expression_at own.now levels) (start_at own.now levels) subject (state_in self.old)) }
    {
        let start = self.start(own, levels, subject)?;
        Ok(self.clause_of(own, levels, start)?)
    }

    // The clauses as far as the keyword after them, when these were read before.
    #[cycle(expressions)]
    fn clauses(
        &mut self,
        own: &Atom,
        levels: u16,
        subject: Subject,
        front: Vec<Clause>,
    ) -> Result<Vec<Clause>, ReadFault>
        ensures { MovesUnlessMemory (λ v. v.items) result (state_in self.new) (clauses_at own.now levels (expression_at own.now levels) (start_at own.now levels) subject front.items (state_in self.old)) }
    {
        let mut clauses = front;
        let count = self.parser.tokens.len();
        'clauses: for _taken in 0..count {
            if self.parser.is_at_word(subject.word_behind()) {
                return Ok(clauses);
            }
            clauses.push(self.clause(own, levels, subject)?)?;
        }
        Err(self.parser.fault())
    }

    // What follows the value of a `case`.
    #[cycle(expressions)]
    #[tactic(auto, unfolding(core_grammar::specs::inside::DecoderForms::choices_at))]
    fn choices(&mut self, own: &Atom, levels: u16) -> Result<Vec<Clause>, ReadFault>
        ensures { MovesUnlessMemory (λ v. v.items) result (state_in self.new) (choices_at own.now levels (expression_at own.now levels) (start_at own.now levels) (state_in self.old)) }
    {
        self.parser.word(Keyword::Of)?;
        let first = self.clause(own, levels, Subject::Values)?;
        let front = one_clause(self.parser.alloc, first)?;
        let clauses = self.clauses(own, levels, Subject::Values, front)?;
        self.parser.word(Keyword::End)?;
        Ok(clauses)
    }

    /// What follows the `case` at `at`.
    #[cycle(expressions)]
    pub(crate) fn case(&mut self, own: &Atom, levels: u16, at: usize) -> Result<Expr, ReadFault>
        ensures { MovesUnlessMemory tree_of result (state_in self.new) (case_at own.now levels (expression_at own.now levels) (start_at own.now levels) at (state_in self.old)) }
    {
        let value = self.expression(own, levels)?;
        let clauses = self.choices(own, levels)?;
        Ok(case_of(self.parser.alloc, at, value, clauses)?)
    }

    // The timeout of a `receive`, and what is done then.
    #[cycle(expressions)]
    #[tactic(auto, unfolding(core_grammar::specs::inside::DecoderForms::expiry_at))]
    fn expiry(&mut self, own: &Atom, levels: u16) -> Result<(Expr, Expr), ReadFault>
        ensures { MovesUnlessMemory (λ p. (tree_of p.0, tree_of p.1)) result (state_in self.new) (expiry_at own.now levels (expression_at own.now levels) (state_in self.old)) }
    {
        self.parser.word(Keyword::After)?;
        let timeout = self.expression(own, levels)?;
        let action = self.body(own, levels)?;
        Ok((timeout, action))
    }

    /// What follows the `receive` at `at`.
    #[cycle(expressions)]
    pub(crate) fn receive(&mut self, own: &Atom, levels: u16, at: usize) -> Result<Expr, ReadFault>
        ensures { MovesUnlessMemory tree_of result (state_in self.new) (receive_at own.now levels (expression_at own.now levels) (start_at own.now levels) at (state_in self.old)) }
    {
        let front = Vec::new(self.parser.alloc);
        let clauses = self.clauses(own, levels, Subject::Message, front)?;
        let (timeout, action) = self.expiry(own, levels)?;
        Ok(receive_of(self.parser.alloc, at, clauses, timeout, action)?)
    }
}
