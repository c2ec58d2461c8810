// The subset's grammar as rows: what is due, a token's kind that may stand there, and what is due then.
#![tactic(auto)]

ghost use Rattle.std.specs.Prelude.{◌≡◌};
ghost use Rattle.grammar.specs.Rows.{in_condition, balanced, depth_after, next_due, follow};

use tokens::Kind;

// What may stand next, in the order in which it stands in a text.
#[derive(Clone, Copy, Debug, PartialEq, Eq)]
pub enum Phase {
    Outside,
    InitialName,
    StepName,
    ColonDue,
    ActionDue,
    OpenDue,
    QualifierDue,
    CloseDue,
    SemicolonDue,
    // The steps before: a name or `(`; the first name in brackets; the first comma; a further name; `,` or `)`.
    FromDue,
    BeforeDue,
    BeforeFirst,
    BeforeComma,
    BeforeName,
    BeforeMore,
    // The steps after, likewise.
    ToDue,
    AfterDue,
    AfterFirst,
    AfterComma,
    AfterName,
    AfterMore,
    AssignDue,
    // An operand, perhaps with NOT; an operand after NOT; AND, OR, `)` or `;`.
    OperandDue,
    PlainDue,
    OperatorDue,
    EndDue,
    // Nothing: a token was wrong.
    Stopped,
}

// What may stand next, and how many brackets of a condition are open.
#[derive(Clone, Copy)]
pub struct Due {
    pub phase: Phase,
    pub depth: u32,
}

// The rows of the grammar: what is due, a token's kind that may stand there, and what is due then.
const ROWS: [(Phase, Kind, Phase); 44] = [
    (Phase::Outside, Kind::InitialStep, Phase::InitialName),
    (Phase::Outside, Kind::Step, Phase::StepName),
    (Phase::Outside, Kind::Transition, Phase::FromDue),
    (Phase::Outside, Kind::End, Phase::Outside),
    (Phase::InitialName, Kind::Name, Phase::ColonDue),
    (Phase::StepName, Kind::Name, Phase::ColonDue),
    (Phase::ColonDue, Kind::Colon, Phase::ActionDue),
    (Phase::ActionDue, Kind::Name, Phase::OpenDue),
    (Phase::ActionDue, Kind::EndStep, Phase::Outside),
    (Phase::OpenDue, Kind::Open, Phase::QualifierDue),
    (Phase::QualifierDue, Kind::Name, Phase::CloseDue),
    (Phase::CloseDue, Kind::Close, Phase::SemicolonDue),
    (Phase::SemicolonDue, Kind::Semicolon, Phase::ActionDue),
    (Phase::FromDue, Kind::From, Phase::BeforeDue),
    (Phase::BeforeDue, Kind::Name, Phase::ToDue),
    (Phase::BeforeDue, Kind::Open, Phase::BeforeFirst),
    (Phase::BeforeFirst, Kind::Name, Phase::BeforeComma),
    (Phase::BeforeComma, Kind::Comma, Phase::BeforeName),
    (Phase::BeforeName, Kind::Name, Phase::BeforeMore),
    (Phase::BeforeMore, Kind::Comma, Phase::BeforeName),
    (Phase::BeforeMore, Kind::Close, Phase::ToDue),
    (Phase::ToDue, Kind::To, Phase::AfterDue),
    (Phase::AfterDue, Kind::Name, Phase::AssignDue),
    (Phase::AfterDue, Kind::Open, Phase::AfterFirst),
    (Phase::AfterFirst, Kind::Name, Phase::AfterComma),
    (Phase::AfterComma, Kind::Comma, Phase::AfterName),
    (Phase::AfterName, Kind::Name, Phase::AfterMore),
    (Phase::AfterMore, Kind::Comma, Phase::AfterName),
    (Phase::AfterMore, Kind::Close, Phase::AssignDue),
    (Phase::AssignDue, Kind::Assign, Phase::OperandDue),
    (Phase::OperandDue, Kind::Not, Phase::PlainDue),
    (Phase::OperandDue, Kind::Open, Phase::OperandDue),
    (Phase::OperandDue, Kind::True, Phase::OperatorDue),
    (Phase::OperandDue, Kind::False, Phase::OperatorDue),
    (Phase::OperandDue, Kind::Name, Phase::OperatorDue),
    (Phase::PlainDue, Kind::Open, Phase::OperandDue),
    (Phase::PlainDue, Kind::True, Phase::OperatorDue),
    (Phase::PlainDue, Kind::False, Phase::OperatorDue),
    (Phase::PlainDue, Kind::Name, Phase::OperatorDue),
    (Phase::OperatorDue, Kind::And, Phase::OperandDue),
    (Phase::OperatorDue, Kind::Or, Phase::OperandDue),
    (Phase::OperatorDue, Kind::Close, Phase::OperatorDue),
    (Phase::OperatorDue, Kind::Semicolon, Phase::EndDue),
    (Phase::EndDue, Kind::EndTransition, Phase::Outside),
];

// What is due after a token of a kind, which may or may not stand as a qualifier.
#[tactic(auto, unfolding(crate::specs::Rows::follow))]
pub fn follow(d: Due, kind: Kind, qualifier: bool) -> Due
    ensures { result ≡ follow d kind qualifier }
{
    if balanced(d, kind) && (qualifier || d.phase != Phase::QualifierDue) {
        return Due {
            phase: next_due(d.phase, kind),
            depth: depth_after(d, kind),
        };
    }
    Due {
        phase: Phase::Stopped,
        depth: 0,
    }
}

// By the first row that a phase and a kind have.
fn next_due(phase: Phase, kind: Kind) -> Phase
    ensures { result ≡ next_due phase kind }
{
    for (due, stands, next) in &ROWS {
        if *due == phase && *stands == kind {
            return *next;
        }
    }
    Phase::Stopped
}

fn in_condition(phase: Phase) -> bool
    ensures { result ≡ in_condition phase }
{
    matches!(
        phase,
        Phase::OperandDue | Phase::PlainDue | Phase::OperatorDue
    )
}

// A condition's brackets: none is closed that is not open, and all are closed at its end.
fn balanced(d: Due, kind: Kind) -> bool
    ensures { result ≡ balanced d kind }
{
    match (d.phase, kind) {
        (Phase::OperatorDue, Kind::Close) => d.depth != 0,
        (Phase::OperatorDue, Kind::Semicolon) => d.depth == 0,
        _ => true,
    }
}

fn depth_after(d: Due, kind: Kind) -> u32
    ensures { result ≡ depth_after d kind }
{
    if !in_condition(d.phase) {
        return d.depth;
    }
    match kind {
        Kind::Open => tokens::up(d.depth),
        Kind::Close => d.depth.saturating_sub(1),
        _ => d.depth,
    }
}
