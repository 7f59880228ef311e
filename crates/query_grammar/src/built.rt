ghost use Rattle.std.specs.Prelude.{◌≡◌, [], ◌∷◌, ◌++◌, IfOk, OnOk, if◌then◌else◌};
ghost use Rattle.query_grammar.specs.Built.{add, change_last, cut_of, empty, is_slot_role, is_template, object_tagged, object_typed, query_as, query_of, refusal, slot_refusal};
ghost use Rattle.query_grammar.specs.Classes.{is_label};
ghost use Rattle.query_grammar.specs.Names.{standing};

use crate::fault::Kind;
use crate::mode::Role;
use crate::names::{Names, standing};
use crate::prefixes::Prefixes;
use crate::values::{
    count_in, part_refusal, slot_of, spelled_out, text_of, unless, with_tag, with_type,
};
use query_model::{Cut, Names1, Patterns, Query, Scope, Slot, TriplePattern};
use query_tokens::Token;
use rdf_term::{Duplicate, Memory, Seq, Term, Text};
use std::alloc::Global;
use std::mem;

/// The most patterns of a group and of a template.
const MOST_PATTERNS: usize = 256;

/// What the query asks for, as far as it was read.
#[derive(Clone, Copy, Debug)]
pub enum Form {
    Select,
    Ask,
    /// CONSTRUCT, up to the end of its template.
    Template,
    /// CONSTRUCT, behind its template.
    Construct,
    /// CONSTRUCT WHERE, whose block is template and group.
    Short,
}

/// What was read of a query so far.
#[derive(Drop)]
pub struct Built {
    pub prefixes: Prefixes,
    /// The prefix that is declared next.
    pub pending: Text,
    pub form: Form,
    /// Whether DISTINCT stands.
    pub distinct: bool,
    /// Whether `*` stands for the variables.
    pub all: bool,
    pub vars: Names,
    pub template: Patterns,
    /// The patterns of the template or of the group, by the form.
    pub patterns: Patterns,
    pub subject: Slot,
    pub verb: Slot,
    pub scope: Scope,
    pub limit: Option<u64>,
    pub offset: u64,
}

/// A slot without text, before one was read.
fn no_slot(alloc: Global) -> Slot
    ensures { result ≡ Slot.Fixed (Term.Plain []) }
{
    Slot::Fixed(Term::Plain(Text::new(alloc)))
}

/// Whether a template is read.
fn is_template(form: Form) -> bool
    ensures { result ≡ is_template form }
{
    match form {
        Form::Template | Form::Short => true,
        Form::Select | Form::Ask | Form::Construct => false,
    }
}

/// Whether a token is a slot there, or the datatype of one.
fn is_slot_role(role: Role) -> bool
    ensures { result ≡ is_slot_role role }
{
    match role {
        Role::Subject | Role::SubjectType | Role::Verb => true,
        Role::Object | Role::ObjectType | Role::GraphName => true,
        _ => false,
    }
}

fn is_label(token: &Token) -> bool
    ensures { result ≡ is_label token.now }
{
    matches!(token, Token::Label(_))
}

/// The patterns with another last one, which `pattern` is.
fn with_last(mut items: Vec<TriplePattern>, pattern: TriplePattern) -> Result<Patterns, Memory>
    ensures { IfOk result (λ it. it ≡ items.items ++ pattern ∷ []) }
{
    items.push(pattern)?;
    Ok(Seq::from_vec(items))
}

/// Gives the last pattern's object a language tag.
#[tactic(auto, unfolding(crate::specs::Built::change_last))]
fn tag_last(patterns: Patterns, tag: Text) -> Result<Patterns, Memory>
    ensures { IfOk result (λ it. it ≡ change_last (object_tagged tag) patterns) }
{
    let mut items = patterns.into_vec();
    match items.pop() {
        None => Ok(Seq::from_vec(items)),
        Some(TriplePattern { s, p, o, g }) => {
            let o = with_tag(o, tag);
            with_last(items, TriplePattern { s, p, o, g })
        }
    }
}

/// Gives the last pattern's object a datatype.
#[tactic(auto, unfolding(crate::specs::Built::change_last))]
fn type_last(patterns: Patterns, datatype: Slot) -> Result<Patterns, Memory>
    ensures { IfOk result (λ it. it ≡ change_last (object_typed datatype) patterns) }
{
    let mut items = patterns.into_vec();
    match items.pop() {
        None => Ok(Seq::from_vec(items)),
        Some(TriplePattern { s, p, o, g }) => {
            let o = with_type(o, datatype);
            with_last(items, TriplePattern { s, p, o, g })
        }
    }
}

fn cut_of(built: &Built) -> Cut
    ensures { result ≡ cut_of built.now }
{
    Cut {
        limit: built.limit,
        offset: built.offset,
    }
}

/// The variables of SELECT.
fn projected(
    alloc: Global,
    all: bool,
    vars: Names,
    patterns: &[TriplePattern],
) -> Result<Names1, Memory>
    ensures { IfOk result (λ names. names ≡ (if all then standing patterns.now else vars)) }
{
    if all {
        standing(alloc, patterns)
    } else {
        Ok(vars.into_names())
    }
}

/// The query of CONSTRUCT WHERE, whose block is template and group.
fn short(alloc: Global, block: Patterns, cut: Cut) -> Result<Query, Memory>
    ensures { IfOk result (λ query. query ≡ Query.Construct block block cut) }
{
    Ok(Query::Construct {
        template: block.copy(alloc)?,
        group: block,
        cut,
    })
}

impl Built {
    /// Before the first token. It takes no memory.
    pub fn new(alloc: Global) -> Built
        ensures { result ≡ empty }
    {
        Built {
            prefixes: Prefixes::new(alloc),
            pending: Text::new(alloc),
            form: Form::Select,
            distinct: false,
            all: false,
            vars: Names::new(alloc),
            template: Patterns::new(alloc),
            patterns: Patterns::new(alloc),
            subject: no_slot(alloc),
            verb: no_slot(alloc),
            scope: Scope::Any,
            limit: None,
            offset: 0,
        }
    }

    /// A token that says the same: a prefixed name as its IRI, where it stands for a slot, so that
    /// namespace and local part are joined once.
    #[tactic(auto, using(crate::proofs::SpellLemmas::same_refusal, crate::proofs::SpellLemmas::same_add))]
    pub fn spelled_out(&self, alloc: Global, role: Role, token: Token) -> Result<Token, Memory>
        ensures refusal { IfOk result (λ t. refusal self.now role t ≡ refusal self.now role token) }
        ensures add { IfOk result (λ t. add self.now role t ≡ add self.now role token) }
    {
        if !is_slot_role(role) {
            return Ok(token);
        }
        let spelled = spelled_out(alloc, &self.prefixes, token)?;
        Ok(spelled)
    }

    #[tactic(auto, unfolding(crate::specs::Built::slot_refusal))]
    fn slot_refusal(&self, alloc: Global, token: &Token) -> Result<Option<Kind>, Memory>
        ensures { IfOk result (λ kind. kind ≡ slot_refusal self.now token.now) }
    {
        if is_template(self.form) & is_label(token) {
            Ok(Some(Kind::Unsupported))
        } else {
            part_refusal(alloc, &self.prefixes, token)
        }
    }

    /// Why a token that the grammar takes is refused, if it is.
    #[tactic(auto, unfolding(crate::specs::Built::refusal))]
    pub fn refusal(&self, alloc: Global, role: Role, token: &Token) -> Result<Option<Kind>, Memory>
        ensures { IfOk result (λ kind. kind ≡ refusal self.now role token.now) }
    {
        match role {
            Role::Declared => Ok(None),
            Role::EmptyGraphEnd => Ok(Some(Kind::Unsupported)),
            Role::Limit | Role::Offset => {
                let count = count_in(token);
                Ok(unless(count.is_some(), Kind::Unsupported))
            }
            Role::Object => {
                if self.patterns.len() == MOST_PATTERNS {
                    Ok(Some(Kind::Unsupported))
                } else {
                    self.slot_refusal(alloc, token)
                }
            }
            Role::Subject => self.slot_refusal(alloc, token),
            _ => part_refusal(alloc, &self.prefixes, token),
        }
    }

    #[tactic(auto, unfolding(crate::specs::Built::add))]
    fn declare(&mut self, alloc: Global, token: &Token) -> Result<(), Memory>
        ensures { OnOk result (self.new ≡ add self.old Role.DeclaredIri token.now) }
    {
        let prefix = self.pending.copy(alloc)?;
        self.prefixes.declare(prefix, text_of(alloc, token)?)
    }

    #[tactic(auto, unfolding(crate::specs::Built::add))]
    fn project(&mut self, alloc: Global, token: &Token) -> Result<(), Memory>
        ensures { OnOk result (self.new ≡ add self.old Role.Projected token.now) }
    {
        let name = text_of(alloc, token)?;
        self.vars.add(alloc, name)
    }

    #[tactic(auto, unfolding(crate::specs::Built::add))]
    fn end_template(&mut self, alloc: Global)
        ensures { (token : _) → self.new ≡ add self.old Role.TemplateEnd token }
    {
        self.form = Form::Construct;
        self.template = mem::replace(&mut self.patterns, Patterns::new(alloc));
    }

    #[tactic(auto, unfolding(crate::specs::Built::add))]
    fn tag_subject(&mut self, alloc: Global, token: &Token) -> Result<(), Memory>
        ensures { OnOk result (self.new ≡ add self.old Role.SubjectTag token.now) }
    {
        let tag = text_of(alloc, token)?;
        let subject = self.subject.copy(alloc)?;
        self.subject = with_tag(subject, tag);
        Ok(())
    }

    #[tactic(auto, unfolding(crate::specs::Built::add))]
    fn type_subject(&mut self, alloc: Global, token: &Token) -> Result<(), Memory>
        ensures { OnOk result (self.new ≡ add self.old Role.SubjectType token.now) }
    {
        let datatype = slot_of(alloc, &self.prefixes, token)?;
        let subject = self.subject.copy(alloc)?;
        self.subject = with_type(subject, datatype);
        Ok(())
    }

    #[tactic(auto, unfolding(crate::specs::Built::add))]
    fn add_object(&mut self, alloc: Global, token: &Token) -> Result<(), Memory>
        ensures { OnOk result (self.new ≡ add self.old Role.Object token.now) }
    {
        let pattern = TriplePattern {
            s: self.subject.copy(alloc)?,
            p: self.verb.copy(alloc)?,
            o: slot_of(alloc, &self.prefixes, token)?,
            g: self.scope.copy(alloc)?,
        };
        self.patterns.push(pattern)?;
        Ok(())
    }

    #[tactic(auto, unfolding(crate::specs::Built::add))]
    fn tag_object(&mut self, alloc: Global, token: &Token) -> Result<(), Memory>
        ensures { OnOk result (self.new ≡ add self.old Role.ObjectTag token.now) }
    {
        let tag = text_of(alloc, token)?;
        let patterns = mem::replace(&mut self.patterns, Patterns::new(alloc));
        self.patterns = tag_last(patterns, tag)?;
        Ok(())
    }

    #[tactic(auto, unfolding(crate::specs::Built::add))]
    fn type_object(&mut self, alloc: Global, token: &Token) -> Result<(), Memory>
        ensures { OnOk result (self.new ≡ add self.old Role.ObjectType token.now) }
    {
        let datatype = slot_of(alloc, &self.prefixes, token)?;
        let patterns = mem::replace(&mut self.patterns, Patterns::new(alloc));
        self.patterns = type_last(patterns, datatype)?;
        Ok(())
    }

    /// Adds what a token says, by what it is there.
    #[tactic(auto, unfolding(crate::specs::Built::add))]
    pub fn add(&mut self, alloc: Global, role: Role, token: &Token) -> Result<(), Memory>
        ensures { OnOk result (self.new ≡ add self.old role token.now) }
    {
        match role {
            Role::Plain => {}
            Role::Declared => self.pending = text_of(alloc, token)?,
            Role::DeclaredIri => self.declare(alloc, token)?,
            Role::Distinct => self.distinct = true,
            Role::All => self.all = true,
            Role::Projected => self.project(alloc, token)?,
            Role::IsAsk => self.form = Form::Ask,
            Role::IsConstruct => self.form = Form::Template,
            Role::IsShort => self.form = Form::Short,
            Role::TemplateEnd => self.end_template(alloc),
            Role::GraphName => self.scope = Scope::Graph(slot_of(alloc, &self.prefixes, token)?),
            Role::GraphEnd | Role::EmptyGraphEnd => self.scope = Scope::Any,
            Role::Subject => self.subject = slot_of(alloc, &self.prefixes, token)?,
            Role::SubjectTag => self.tag_subject(alloc, token)?,
            Role::SubjectType => self.type_subject(alloc, token)?,
            Role::Verb => self.verb = slot_of(alloc, &self.prefixes, token)?,
            Role::Object => self.add_object(alloc, token)?,
            Role::ObjectTag => self.tag_object(alloc, token)?,
            Role::ObjectType => self.type_object(alloc, token)?,
            Role::Limit => self.limit = count_in(token),
            Role::Offset => self.offset = count_in(token).unwrap_or(0),
        }
        Ok(())
    }

    fn into_select(self, alloc: Global) -> Result<Query, Memory>
        ensures { IfOk result (λ query. query ≡ query_as Form.Select self) }
    {
        let cut = cut_of(&self);
        let vars = projected(alloc, self.all, self.vars, self.patterns.as_slice())?;
        Ok(Query::Select {
            distinct: self.distinct,
            vars,
            group: self.patterns,
            cut,
        })
    }

    fn into_construct(self) -> Query
        ensures { result ≡ query_as Form.Construct self }
    {
        let cut = cut_of(&self);
        Query::Construct {
            template: self.template,
            group: self.patterns,
            cut,
        }
    }

    fn into_short(self, alloc: Global) -> Result<Query, Memory>
        ensures { IfOk result (λ query. query ≡ query_as Form.Short self) }
    {
        let cut = cut_of(&self);
        short(alloc, self.patterns, cut)
    }

    /// The query that was read.
    #[tactic(auto, unfolding(crate::specs::Built::query_of))]
    pub fn into_query(self, alloc: Global) -> Result<Query, Memory>
        ensures { IfOk result (λ query. query ≡ query_of self) }
    {
        match self.form {
            Form::Select => self.into_select(alloc),
            Form::Ask => Ok(Query::Ask {
                group: self.patterns,
            }),
            Form::Template => Ok(self.into_construct()),
            Form::Construct => Ok(self.into_construct()),
            Form::Short => self.into_short(alloc),
        }
    }
}
