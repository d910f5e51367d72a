// Definitions and modules (Core Erlang 1.0.3, "Module definitions").
ghost use Rattle.std.specs.Prelude.{map};
ghost use Rattle.core_tokens.specs.declared.token.Keyword.TheVariants.{End};
ghost use Rattle.core_tokens.specs.declared.token.Mark.TheVariants.{RightBracket};
ghost use Rattle.core_scopes.specs.Outcomes.{GivesUnlessMemory};
ghost use Rattle.core_grammar.specs.inside.Decoder.{MovesUnlessMemory, items_at, closed_at, rows_at, noted_at, function_name_at};
ghost use Rattle.core_grammar.specs.inside.DecoderModules.{attribute_at, bare_fun_at, fun_at, behind_name_at, opened, inside_opening_at, opening_at, definition_at, front_at, bare_module_at, ended, module_at};
ghost use Rattle.core_scopes.specs.Drafts.{defined_of, draft_of};
ghost use Rattle.core_reader.specs.inside.ReaderView.{state_in, fun_of, opening_of, front_of};

use core_expressions::FormReader;
use core_scopes::{Defined, Draft, Front};
use core_tokens::{Keyword, Mark, ReadFault};
use core_tree::{Attribute, Definition, Expr, NamedFunction, Variable};
use term_core::Atom;

/// The levels of construct within construct that a text may have.
pub(crate) const LEVEL_LIMIT: u16 = 1_000;

/// The parameters of a function, and its body.
#[derive(Drop)]
pub(crate) struct Fun {
    pub parameters: Vec<Variable>,
    pub body: Expr,
}

/// What a definition begins with.
#[derive(Drop)]
pub(crate) enum Opening {
    /// Its name.
    Name(NamedFunction),
    /// The whole of it, in the parentheses of an annotation.
    Whole(Defined),
}

/// Reads definitions and modules, with what reads expressions below it.
#[derive(Drop)]
pub(crate) struct ModuleReader<'a> {
    pub forms: FormReader<'a>,
}

impl<'a> ModuleReader<'a> {
    // `Atom = const`, of at most so many levels.
    #[tactic(auto, unfolding(core_grammar::specs::inside::DecoderModules::attribute_at))]
    fn attribute(&mut self, levels: u16) -> Result<Attribute, ReadFault>
        ensures { MovesUnlessMemory (λ a. a) result (state_in self.new) (attribute_at levels (state_in self.old)) }
    {
        let name = self.forms.parser.atom()?;
        self.forms.parser.mark(Mark::Equals)?;
        let value = self.forms.parser.constant(levels)?;
        Ok(Attribute { name, value })
    }

    // Attributes with commas between them.
    fn attribute_items(&mut self, levels: u16) -> Result<Vec<Attribute>, ReadFault>
        ensures { MovesUnlessMemory (λ v. v.items) result (state_in self.new) (items_at (attribute_at levels) (state_in self.old)) }
    {
        let mut items = Vec::new(self.forms.parser.alloc);
        let count = self.forms.parser.tokens.len();
        'items: for _taken in 0..count {
            items.push(self.attribute(levels)?)?;
            if !self.forms.parser.skip_mark(Mark::Comma) {
                return Ok(items);
            }
        }
        Err(self.forms.parser.fault())
    }

    // Any number of attributes, and the closing bracket.
    #[tactic(auto, unfolding(core_grammar::specs::inside::Decoder::closed_at))]
    fn attributes(&mut self, levels: u16) -> Result<Vec<Attribute>, ReadFault>
        ensures { MovesUnlessMemory (λ v. v.items) result (state_in self.new) (closed_at (attribute_at levels) RightBracket (state_in self.old)) }
    {
        if self.forms.parser.skip_mark(Mark::RightBracket) {
            return Ok(Vec::new(self.forms.parser.alloc));
        }
        let items = self.attribute_items(levels)?;
        self.forms.parser.mark(Mark::RightBracket)?;
        Ok(items)
    }

    // Names of functions with commas between them.
    fn export_items(&mut self, levels: u16) -> Result<Vec<NamedFunction>, ReadFault>
        ensures { MovesUnlessMemory (λ v. v.items) result (state_in self.new) (items_at (function_name_at levels) (state_in self.old)) }
    {
        let mut items = Vec::new(self.forms.parser.alloc);
        let count = self.forms.parser.tokens.len();
        'items: for _taken in 0..count {
            items.push(self.forms.parser.function_name(levels)?)?;
            if !self.forms.parser.skip_mark(Mark::Comma) {
                return Ok(items);
            }
        }
        Err(self.forms.parser.fault())
    }

    // Any number of names of functions, and the closing bracket.
    #[tactic(auto, unfolding(core_grammar::specs::inside::Decoder::closed_at))]
    fn exports(&mut self, levels: u16) -> Result<Vec<NamedFunction>, ReadFault>
        ensures { MovesUnlessMemory (λ v. v.items) result (state_in self.new) (closed_at (function_name_at levels) RightBracket (state_in self.old)) }
    {
        if self.forms.parser.skip_mark(Mark::RightBracket) {
            return Ok(Vec::new(self.forms.parser.alloc));
        }
        let items = self.export_items(levels)?;
        self.forms.parser.mark(Mark::RightBracket)?;
        Ok(items)
    }

    // `fun (Var, ..) -> expr` in the module `own`, with so many variables, without annotations.
    #[tactic(auto, unfolding(core_grammar::specs::inside::DecoderModules::bare_fun_at))]
    fn bare_fun(&mut self, own: &Atom, arity: u8, levels: u16) -> Result<Fun, ReadFault>
        ensures { MovesUnlessMemory fun_of result (state_in self.new) (bare_fun_at own.now arity levels (state_in self.old)) }
    {
        self.forms.parser.word(Keyword::Fun)?;
        self.forms.parser.mark(Mark::LeftParenthesis)?;
        let parameters = self.forms.parser.parameters(arity, levels)?;
        self.forms.parser.mark(Mark::RightParenthesis)?;
        self.forms.parser.mark(Mark::Arrow)?;
        let body = self.forms.expression(own, levels)?;
        Ok(Fun { parameters, body })
    }

    // `fun (Var, ..) -> expr` in the module `own`, with so many variables, annotated in at most so many
    // levels.
    fn fun(&mut self, own: &Atom, arity: u8, levels: u16) -> Result<Fun, ReadFault>
        ensures { MovesUnlessMemory fun_of result (state_in self.new) (fun_at own.now arity levels (state_in self.old)) }
    {
        if !self.forms.parser.opens_note(levels)? {
            return Ok(self.bare_fun(own, arity, levels)?);
        }
        let function = self.fun(own, arity, levels - 1)?;
        self.forms.parser.note(levels - 1)?;
        Ok(function)
    }

    // What follows the name of a definition.
    #[tactic(auto, unfolding(core_grammar::specs::inside::DecoderModules::behind_name_at))]
    fn behind_name(
        &mut self,
        own: &Atom,
        levels: u16,
        named: NamedFunction,
    ) -> Result<Defined, ReadFault>
        ensures { MovesUnlessMemory defined_of result (state_in self.new) (behind_name_at own.now levels named (state_in self.old)) }
    {
        let NamedFunction { at, function } = named;
        self.forms.parser.mark(Mark::Equals)?;
        let Fun { parameters, body } = self.fun(own, function.arity, levels)?;
        let definition = Definition {
            at,
            parameters,
            body,
        };
        Ok(Defined {
            function,
            definition,
        })
    }

    // The opening in the parentheses of an annotation: with `=` after a name it is the whole definition.
    fn opened(&mut self, own: &Atom, levels: u16, opening: Opening) -> Result<Opening, ReadFault>
        ensures { MovesUnlessMemory opening_of result (state_in self.new) (opened own.now levels (opening_of opening) (state_in self.old)) }
    {
        match opening {
            Opening::Whole(defined) => Ok(Opening::Whole(defined)),
            Opening::Name(named) => {
                if !self.forms.parser.is_at_mark(Mark::Equals) {
                    return Ok(Opening::Name(named));
                }
                Ok(Opening::Whole(self.behind_name(own, levels, named)?))
            }
        }
    }

    // What is in the parentheses of an annotation of a definition or of its name.
    #[cycle(opening)]
    #[tactic(auto, unfolding(core_grammar::specs::inside::DecoderModules::inside_opening_at))]
    fn inside_opening(&mut self, own: &Atom, levels: u16) -> Result<Opening, ReadFault>
        ensures { MovesUnlessMemory opening_of result (state_in self.new) (inside_opening_at own.now levels (opening_at own.now levels) (state_in self.old)) }
    {
        let opening = self.opening(own, levels)?;
        Ok(self.opened(own, levels, opening)?)
    }

    // What a definition of the module `own` begins with, annotated in at most so many levels.
    #[cycle(opening)]
    fn opening(&mut self, own: &Atom, levels: u16) -> Result<Opening, ReadFault>
        ensures { MovesUnlessMemory opening_of result (state_in self.new) (opening_at own.now levels (state_in self.old)) }
    {
        if !self.forms.parser.opens_note(levels)? {
            return Ok(Opening::Name(self.forms.parser.bare_name()?));
        }
        let opening = self.inside_opening(own, levels - 1)?;
        self.forms.parser.note(levels - 1).and(Ok(opening))
    }

    // A definition of the module `own`, whose parts have at most so many levels.
    #[tactic(auto, unfolding(core_grammar::specs::inside::DecoderModules::definition_at))]
    fn definition(&mut self, own: &Atom, levels: u16) -> Result<Defined, ReadFault>
        ensures { MovesUnlessMemory defined_of result (state_in self.new) (definition_at own.now levels (state_in self.old)) }
    {
        match self.opening(own, levels)? {
            Opening::Whole(defined) => Ok(defined),
            Opening::Name(named) => Ok(self.behind_name(own, levels, named)?),
        }
    }

    // The definitions of the module `own`, as far as the last `end`.
    fn definitions(&mut self, own: &Atom, levels: u16) -> Result<Vec<Defined>, ReadFault>
        ensures { MovesUnlessMemory (λ v. map defined_of v.items) result (state_in self.new) (rows_at (definition_at own.now levels) End (state_in self.old)) }
    {
        let mut definitions = Vec::new(self.forms.parser.alloc);
        let count = self.forms.parser.tokens.len();
        'definitions: for _taken in 0..count {
            if self.forms.parser.is_at_word(Keyword::End) {
                return Ok(definitions);
            }
            definitions.push(self.definition(own, levels)?)?;
        }
        Err(self.forms.parser.fault())
    }

    // The name, the exports and the attributes.
    #[tactic(auto, unfolding(core_grammar::specs::inside::DecoderModules::front_at))]
    fn front(&mut self, levels: u16) -> Result<Front, ReadFault>
        ensures { MovesUnlessMemory front_of result (state_in self.new) (front_at levels (state_in self.old)) }
    {
        self.forms.parser.word(Keyword::Module)?;
        let name = self.forms.parser.atom()?;
        self.forms.parser.mark(Mark::LeftBracket)?;
        let exports = self.exports(levels)?;
        self.forms.parser.word(Keyword::Attributes)?;
        self.forms.parser.mark(Mark::LeftBracket)?;
        let attributes = self.attributes(levels)?;
        Ok(Front {
            name,
            exports,
            attributes,
        })
    }

    // A module without annotations round it.
    #[tactic(auto, unfolding(core_grammar::specs::inside::DecoderModules::bare_module_at))]
    fn bare_module(&mut self, levels: u16) -> Result<Draft, ReadFault>
        ensures { MovesUnlessMemory draft_of result (state_in self.new) (bare_module_at levels (state_in self.old)) }
    {
        let front = self.front(levels)?;
        let definitions = self.definitions(&front.name, levels)?;
        let end = self.forms.parser.place();
        self.forms.parser.word(Keyword::End)?;
        Ok(Draft {
            front,
            definitions,
            end,
        })
    }

    // A module, annotated in at most so many levels.
    fn noted_module(&mut self, levels: u16) -> Result<Draft, ReadFault>
        ensures { MovesUnlessMemory draft_of result (state_in self.new) (noted_at bare_module_at levels (state_in self.old)) }
    {
        if !self.forms.parser.opens_note(levels)? {
            return Ok(self.bare_module(levels)?);
        }
        let draft = self.noted_module(levels - 1)?;
        self.forms.parser.note(levels - 1)?;
        Ok(draft)
    }

    // The draft, where nothing is left to read and all of it is served.
    fn ended(&self, draft: Draft) -> Result<Draft, ReadFault>
        ensures { GivesUnlessMemory draft_of result (ended (state_in self.now).pieces (state_in self.now).refused (draft_of draft) (state_in self.now)) }
    {
        match (self.forms.parser.tokens, self.forms.parser.refused) {
            ([], None) => Ok(draft),
            ([], Some(unserved)) => Err(unserved.fault()),
            ([_, ..], _) => Err(self.forms.parser.fault()),
        }
    }

    /// A module, all of the tokens.
    #[tactic(auto, unfolding(core_grammar::specs::inside::DecoderModules::module_at))]
    pub fn module(&mut self) -> Result<Draft, ReadFault>
        ensures { GivesUnlessMemory draft_of result (module_at (state_in self.old)) }
    {
        let draft = self.noted_module(LEVEL_LIMIT)?;
        Ok(self.ended(draft)?)
    }
}
