ghost use Rattle.std.specs.Prelude.{◌≡◌, false, true};
ghost use Rattle.query_grammar.specs.Machine.{block_ends, can_end, counted, end_of, next, opened, slot_then, when};

use crate::classes::{is_graph_name, is_iri, is_verb, is_word};
use query_tokens::{Number, Token};

/// What a token is in a query.
#[derive(Clone, Copy, Debug)]
pub enum Role {
    /// A mark or a word that only holds others apart.
    Plain,
    /// The prefix that PREFIX declares.
    Declared,
    /// The IRI that the prefix stands for.
    DeclaredIri,
    /// DISTINCT.
    Distinct,
    /// The `*` of SELECT.
    All,
    /// A variable of SELECT.
    Projected,
    /// ASK.
    IsAsk,
    /// CONSTRUCT.
    IsConstruct,
    /// The WHERE of CONSTRUCT WHERE.
    IsShort,
    /// The `}` of CONSTRUCT's template.
    TemplateEnd,
    /// The name behind GRAPH.
    GraphName,
    /// The `}` of a GRAPH block.
    GraphEnd,
    /// The `}` of a GRAPH block that holds nothing.
    EmptyGraphEnd,
    /// A subject, or the string of a subject.
    Subject,
    /// The language tag of a subject.
    SubjectTag,
    /// The datatype of a subject.
    SubjectType,
    /// A verb.
    Verb,
    /// An object, or the string of an object.
    Object,
    /// The language tag of an object.
    ObjectTag,
    /// The datatype of an object.
    ObjectType,
    /// The number behind LIMIT.
    Limit,
    /// The number behind OFFSET.
    Offset,
}

/// What may follow the braces.
#[derive(Clone, Copy, Debug)]
pub enum Ending {
    /// LIMIT and OFFSET.
    Cut,
    /// Nothing.
    Nothing,
}

/// Where a block of patterns stands.
#[derive(Clone, Copy, Debug)]
pub enum Place {
    /// In a group, outside GRAPH.
    InGroup,
    /// In the braces of GRAPH.
    InGraph,
    /// In the template of CONSTRUCT.
    InTemplate,
    /// In the braces of CONSTRUCT WHERE.
    InShort,
}

/// Where the tokens so far stop.
#[derive(Clone, Copy, Debug)]
pub enum Mode {
    /// Before PREFIX, SELECT, CONSTRUCT or ASK.
    Head,
    NamespaceDue,
    IriDue,
    /// Behind SELECT.
    SelectDue,
    /// Behind DISTINCT or REDUCED.
    FirstVar,
    MoreVars,
    /// Behind CONSTRUCT.
    TemplateDue,
    /// Behind CONSTRUCT WHERE.
    ShortDue,
    /// Before WHERE or the group.
    GroupDue(Ending),
    /// Behind WHERE.
    OpenDue(Ending),
    /// Where a block may begin.
    BlockDue(Ending, Place),
    /// Behind GRAPH.
    GraphDue(Ending),
    /// Behind the name of GRAPH.
    GraphOpenDue(Ending),
    /// Behind the `{` of GRAPH.
    GraphStart(Ending),
    /// Behind the `}` of GRAPH.
    AfterGraph(Ending),
    /// The flag says that a string stands last, which a tag or a datatype may follow.
    AfterSubject(bool, Ending, Place),
    SubjectTypeDue(Ending, Place),
    AfterVerb(Ending, Place),
    /// The flag says that a string stands last, which a tag or a datatype may follow.
    AfterObject(bool, Ending, Place),
    ObjectTypeDue(Ending, Place),
    AfterComma(Ending, Place),
    AfterSemicolon(Ending, Place),
    /// Where LIMIT or OFFSET may stand.
    CutDue,
    LimitDue,
    AfterLimit,
    LastOffsetDue,
    OffsetDue,
    AfterOffset,
    LastLimitDue,
    Ended,
}

fn when(allowed: bool, role: Role, mode: Mode) -> Option<(Role, Mode)>
    ensures { result ≡ when allowed role mode }
{
    if allowed { Some((role, mode)) } else { None }
}

/// A slot: `after_string` follows a string, `after` what nothing extends.
fn slot_then(token: &Token, role: Role, after_string: Mode, after: Mode) -> Option<(Role, Mode)>
    ensures { result ≡ slot_then token.now role after_string after }
{
    match token {
        Token::Str(_) => Some((role, after_string)),
        Token::Namespace(_)
        | Token::Iri(_)
        | Token::Name(_, _)
        | Token::Var(_)
        | Token::Label(_)
        | Token::Number(_, _)
        | Token::True
        | Token::False
        | Token::Quotes => Some((role, after)),
        _ => None,
    }
}

fn end_of(ending: Ending) -> Mode
    ensures { result ≡ end_of ending }
{
    match ending {
        Ending::Cut => Mode::CutDue,
        Ending::Nothing => Mode::Ended,
    }
}

/// What may end a block.
fn block_ends(token: &Token, ending: Ending, place: Place) -> Option<(Role, Mode)>
    ensures { result ≡ block_ends token.now ending place }
{
    match (token, place) {
        (Token::Dot, _) => Some((Role::Plain, Mode::BlockDue(ending, place))),
        (Token::Close, Place::InGroup) => Some((Role::Plain, end_of(ending))),
        (Token::Close, Place::InGraph) => Some((Role::GraphEnd, Mode::AfterGraph(ending))),
        (Token::Close, Place::InTemplate) => Some((Role::TemplateEnd, Mode::GroupDue(ending))),
        (Token::Close, Place::InShort) => Some((Role::Plain, end_of(ending))),
        (Token::Graph, Place::InGroup) => Some((Role::Plain, Mode::GraphDue(ending))),
        _ => None,
    }
}

/// The subject of a block that begins here.
fn subject(token: &Token, ending: Ending, place: Place) -> Option<(Role, Mode)>
    ensures { result ≡ slot_then token.now Role.Subject (Mode.AfterSubject true ending place) (Mode.AfterSubject false ending place) }
{
    slot_then(
        token,
        Role::Subject,
        Mode::AfterSubject(true, ending, place),
        Mode::AfterSubject(false, ending, place),
    )
}

fn head(token: &Token) -> Option<(Role, Mode)>
    ensures { result ≡ next Mode.Head token.now }
{
    match token {
        Token::Prefix => Some((Role::Plain, Mode::NamespaceDue)),
        Token::Select => Some((Role::Plain, Mode::SelectDue)),
        Token::Construct => Some((Role::IsConstruct, Mode::TemplateDue)),
        Token::Ask => Some((Role::IsAsk, Mode::GroupDue(Ending::Nothing))),
        _ => None,
    }
}

fn select_due(token: &Token) -> Option<(Role, Mode)>
    ensures { result ≡ next Mode.SelectDue token.now }
{
    match token {
        Token::Distinct => Some((Role::Distinct, Mode::FirstVar)),
        Token::Reduced => Some((Role::Plain, Mode::FirstVar)),
        Token::Star => Some((Role::All, Mode::GroupDue(Ending::Cut))),
        Token::Var(_) => Some((Role::Projected, Mode::MoreVars)),
        _ => None,
    }
}

fn first_var(token: &Token) -> Option<(Role, Mode)>
    ensures { result ≡ next Mode.FirstVar token.now }
{
    match token {
        Token::Star => Some((Role::All, Mode::GroupDue(Ending::Cut))),
        Token::Var(_) => Some((Role::Projected, Mode::MoreVars)),
        _ => None,
    }
}

fn more_vars(token: &Token) -> Option<(Role, Mode)>
    ensures { result ≡ next Mode.MoreVars token.now }
{
    match token {
        Token::Var(_) => Some((Role::Projected, Mode::MoreVars)),
        Token::Where => Some((Role::Plain, Mode::OpenDue(Ending::Cut))),
        Token::Open => Some((Role::Plain, Mode::BlockDue(Ending::Cut, Place::InGroup))),
        _ => None,
    }
}

fn template_due(token: &Token) -> Option<(Role, Mode)>
    ensures { result ≡ next Mode.TemplateDue token.now }
{
    match token {
        Token::Open => Some((Role::Plain, Mode::BlockDue(Ending::Cut, Place::InTemplate))),
        Token::Where => Some((Role::IsShort, Mode::ShortDue)),
        _ => None,
    }
}

fn group_due(token: &Token, ending: Ending) -> Option<(Role, Mode)>
    ensures { result ≡ next (Mode.GroupDue ending) token.now }
{
    match token {
        Token::Where => Some((Role::Plain, Mode::OpenDue(ending))),
        Token::Open => Some((Role::Plain, Mode::BlockDue(ending, Place::InGroup))),
        _ => None,
    }
}

/// The `{` that has to stand here.
fn open(token: &Token, mode: Mode) -> Option<(Role, Mode)>
    ensures { result ≡ opened token.now mode }
{
    match token {
        Token::Open => Some((Role::Plain, mode)),
        _ => None,
    }
}

fn block_due(token: &Token, ending: Ending, place: Place) -> Option<(Role, Mode)>
    ensures { result ≡ next (Mode.BlockDue ending place) token.now }
{
    match token {
        Token::Close | Token::Graph => block_ends(token, ending, place),
        _ => subject(token, ending, place),
    }
}

fn graph_start(token: &Token, ending: Ending) -> Option<(Role, Mode)>
    ensures { result ≡ next (Mode.GraphStart ending) token.now }
{
    match token {
        Token::Close => Some((Role::EmptyGraphEnd, Mode::AfterGraph(ending))),
        _ => subject(token, ending, Place::InGraph),
    }
}

fn after_graph(token: &Token, ending: Ending) -> Option<(Role, Mode)>
    ensures { result ≡ next (Mode.AfterGraph ending) token.now }
{
    match token {
        Token::Dot | Token::Close | Token::Graph => block_ends(token, ending, Place::InGroup),
        _ => subject(token, ending, Place::InGroup),
    }
}

fn after_subject(token: &Token, ending: Ending, place: Place) -> Option<(Role, Mode)>
    ensures { result ≡ next (Mode.AfterSubject false ending place) token.now }
{
    when(is_verb(token), Role::Verb, Mode::AfterVerb(ending, place))
}

fn after_subject_string(token: &Token, ending: Ending, place: Place) -> Option<(Role, Mode)>
    ensures { result ≡ next (Mode.AfterSubject true ending place) token.now }
{
    match token {
        Token::Tag(_) => Some((Role::SubjectTag, Mode::AfterSubject(false, ending, place))),
        Token::Carets => Some((Role::Plain, Mode::SubjectTypeDue(ending, place))),
        _ => when(is_verb(token), Role::Verb, Mode::AfterVerb(ending, place)),
    }
}

fn object(token: &Token, ending: Ending, place: Place) -> Option<(Role, Mode)>
    ensures { result ≡ next (Mode.AfterVerb ending place) token.now }
{
    slot_then(
        token,
        Role::Object,
        Mode::AfterObject(true, ending, place),
        Mode::AfterObject(false, ending, place),
    )
}

fn after_object(token: &Token, ending: Ending, place: Place) -> Option<(Role, Mode)>
    ensures { result ≡ next (Mode.AfterObject false ending place) token.now }
{
    match token {
        Token::Comma => Some((Role::Plain, Mode::AfterComma(ending, place))),
        Token::Semicolon => Some((Role::Plain, Mode::AfterSemicolon(ending, place))),
        Token::Dot | Token::Close | Token::Graph => block_ends(token, ending, place),
        _ => None,
    }
}

fn after_object_string(token: &Token, ending: Ending, place: Place) -> Option<(Role, Mode)>
    ensures { result ≡ next (Mode.AfterObject true ending place) token.now }
{
    match token {
        Token::Tag(_) => Some((Role::ObjectTag, Mode::AfterObject(false, ending, place))),
        Token::Carets => Some((Role::Plain, Mode::ObjectTypeDue(ending, place))),
        Token::Comma => Some((Role::Plain, Mode::AfterComma(ending, place))),
        Token::Semicolon => Some((Role::Plain, Mode::AfterSemicolon(ending, place))),
        Token::Dot | Token::Close | Token::Graph => block_ends(token, ending, place),
        _ => None,
    }
}

fn after_semicolon(token: &Token, ending: Ending, place: Place) -> Option<(Role, Mode)>
    ensures { result ≡ next (Mode.AfterSemicolon ending place) token.now }
{
    match token {
        Token::Semicolon => Some((Role::Plain, Mode::AfterSemicolon(ending, place))),
        Token::Dot | Token::Close | Token::Graph => block_ends(token, ending, place),
        _ => when(is_verb(token), Role::Verb, Mode::AfterVerb(ending, place)),
    }
}

fn cut_due(token: &Token) -> Option<(Role, Mode)>
    ensures { result ≡ next Mode.CutDue token.now }
{
    match token {
        Token::Limit => Some((Role::Plain, Mode::LimitDue)),
        Token::Offset => Some((Role::Plain, Mode::OffsetDue)),
        _ => None,
    }
}

/// The digits that have to stand here.
fn digits(token: &Token, role: Role, mode: Mode) -> Option<(Role, Mode)>
    ensures { result ≡ counted token.now role mode }
{
    match token {
        Token::Number(Number::Digits, _) => Some((role, mode)),
        _ => None,
    }
}

/// What the token is after such tokens, and where it leads; nothing where it may not stand there.
pub fn next(mode: Mode, token: &Token) -> Option<(Role, Mode)>
    ensures { result ≡ next mode token.now }
{
    match mode {
        Mode::Head => head(token),
        Mode::NamespaceDue => match token {
            Token::Namespace(_) => Some((Role::Declared, Mode::IriDue)),
            _ => None,
        },
        Mode::IriDue => match token {
            Token::Iri(_) => Some((Role::DeclaredIri, Mode::Head)),
            _ => None,
        },
        Mode::SelectDue => select_due(token),
        Mode::FirstVar => first_var(token),
        Mode::MoreVars => more_vars(token),
        Mode::TemplateDue => template_due(token),
        Mode::ShortDue => open(token, Mode::BlockDue(Ending::Cut, Place::InShort)),
        Mode::GroupDue(ending) => group_due(token, ending),
        Mode::OpenDue(ending) => open(token, Mode::BlockDue(ending, Place::InGroup)),
        Mode::BlockDue(ending, place) => block_due(token, ending, place),
        Mode::GraphDue(ending) => when(
            is_graph_name(token),
            Role::GraphName,
            Mode::GraphOpenDue(ending),
        ),
        Mode::GraphOpenDue(ending) => open(token, Mode::GraphStart(ending)),
        Mode::GraphStart(ending) => graph_start(token, ending),
        Mode::AfterGraph(ending) => after_graph(token, ending),
        Mode::AfterSubject(true, ending, place) => after_subject_string(token, ending, place),
        Mode::AfterSubject(false, ending, place) => after_subject(token, ending, place),
        Mode::SubjectTypeDue(ending, place) => when(
            is_iri(token),
            Role::SubjectType,
            Mode::AfterSubject(false, ending, place),
        ),
        Mode::AfterVerb(ending, place) => object(token, ending, place),
        Mode::AfterObject(true, ending, place) => after_object_string(token, ending, place),
        Mode::AfterObject(false, ending, place) => after_object(token, ending, place),
        Mode::ObjectTypeDue(ending, place) => when(
            is_iri(token),
            Role::ObjectType,
            Mode::AfterObject(false, ending, place),
        ),
        Mode::AfterComma(ending, place) => object(token, ending, place),
        Mode::AfterSemicolon(ending, place) => after_semicolon(token, ending, place),
        Mode::CutDue => cut_due(token),
        Mode::LimitDue => digits(token, Role::Limit, Mode::AfterLimit),
        Mode::AfterLimit => match token {
            Token::Offset => Some((Role::Plain, Mode::LastOffsetDue)),
            _ => None,
        },
        Mode::LastOffsetDue => digits(token, Role::Offset, Mode::Ended),
        Mode::OffsetDue => digits(token, Role::Offset, Mode::AfterOffset),
        Mode::AfterOffset => match token {
            Token::Limit => Some((Role::Plain, Mode::LastLimitDue)),
            _ => None,
        },
        Mode::LastLimitDue => digits(token, Role::Limit, Mode::Ended),
        Mode::Ended => None,
    }
}

/// Whether the tokens so far are a query.
pub fn can_end(mode: Mode) -> bool
    ensures { result ≡ can_end mode }
{
    matches!(
        mode,
        Mode::CutDue | Mode::AfterLimit | Mode::AfterOffset | Mode::Ended
    )
}
