//! Static faults: why the text of a design is refused, and where.

ghost use Rattle.std.specs.Prelude.{◌≡◌};
ghost use Rattle.vl_tree.specs.Fault.{name_of, on_line};

/// What is wrong with the text of a design, by phase. A kind says what is wrong; `specs/Fault` has its name, and the
/// definition of its phase says exactly where it stands.
#[derive(Clone, Copy, Debug, PartialEq, Eq)]
pub enum FaultKind {
    /// Phase 1: a directive that isn't one, or not in its form.
    BadDirective,
    /// Phase 1: a conditional directive without its partner.
    Unbalanced,
    /// Phase 1: the use of a macro that isn't defined.
    UnknownMacro,
    /// Phase 1: a macro inside 16 others.
    MacroDepth,
    /// Phase 1: more than 16,777,216 bytes of clean text.
    TooLong,
    /// Phase 1: a byte that no text may have.
    BadByte,
    /// Phase 1: a comment without its end.
    OpenComment,
    /// Phase 2: no token stands there.
    BadToken,
    /// Phase 2: a number that isn't one.
    BadNumber,
    /// Phases 2, 5 and 6: a number, a vector or an expression of too many bits.
    TooWide,
    /// Phase 2: a string without its end.
    OpenString,
    /// Phase 2: more than 1,048,576 tokens.
    TooManyTokens,
    /// Phase 3: no source goes on with the tokens up to this one.
    Syntax,
    /// Phase 3: a token deeper than 200.
    Deep,
    /// Phase 4: a second module of a name.
    DuplicateModule,
    /// Phase 4: no one module that is the top.
    NoTop,
    /// Phase 4: an instance of a module that isn't there.
    UnknownModule,
    /// Phase 4: a bound parameter that isn't there, or too many or repeated binds.
    UnknownParameter,
    /// Phase 4: an instance inside 32 others.
    TooDeep,
    /// Phase 4: more than 4,096 instances.
    TooManyInstances,
    /// Phase 4: more than 4,096 turns of one generate loop.
    TooManyTurns,
    /// Phase 4: a port or a parameter in a generate block, or a generate loop whose variable isn't one genvar.
    Misplaced,
    /// Phases 4 and 6: an expression that has to be constant and isn't.
    NotConstant,
    /// Phase 5: a name that is declared twice in a scope.
    Duplicate,
    /// Phase 5: bounds that no vector or memory has.
    BadRange,
    /// Phase 5: a port without a direction, of disagreeing declarations, or connected wrongly.
    BadPort,
    /// Phase 5: a named port that isn't there.
    UnknownPort,
    /// Phase 5: more signals than a design may have.
    TooManySignals,
    /// Phase 5: more words of memories than a design may have.
    TooManyWords,
    /// Phase 5: more data inputs, or bits of them, than a design may have.
    TooManyInputs,
    /// Phase 6: a name that nothing in sight declares.
    UnknownName,
    /// Phase 6: a select that its object doesn't have, or a memory without a word's index.
    BadSelect,
    /// Phase 6: a replication or a select of no bits.
    ZeroReplication,
    /// Phase 6: a call of no function, or with another number of arguments.
    BadCall,
    /// Phase 6: an assignment to what can't be its target.
    BadTarget,
    /// Phase 6: a format that has a wrong item, or another number of arguments.
    BadFormat,
    /// Phase 7: `posedge` beside another event.
    AsyncControl,
    /// Phase 7: `negedge`.
    NegativeEdge,
    /// Phase 7: `=` in a clocked block, or `<=` elsewhere.
    WrongAssign,
    /// Phase 7: a loop variable that is used or assigned outside of its loop.
    LoopVariable,
    /// Phase 7: a bit of a combinational block that isn't assigned on every path, or is read before it is assigned.
    Latch,
    /// Phase 7: a function that calls itself.
    Recursive,
    /// Phase 7: a function that reads what isn't its own.
    FunctionScope,
    /// Phase 7: what no `initial` block may do.
    BadInitial,
    /// Phase 7: a task outside of clocked blocks.
    TaskPlace,
    /// Phase 7: more than 65,536 unrolled statements in a block.
    Unrolled,
    /// Phases 4 and 7: more than 4,194,304 expanded tokens.
    Expanded,
    /// Phase 8: a bit of two drivers, or a memory of two blocks.
    ManyDrivers,
    /// Phase 8: a variable that a clocked and a combinational block assign.
    MixedKinds,
    /// Phase 8: a clock that is no plain input of one bit.
    BadClock,
    /// Phase 8: a second clock of the top.
    SecondClock,
    /// Phase 8: a clock name that is read or driven otherwise.
    ClockAsData,
    /// Phase 9: a driven part that reads itself.
    Loop,
}

impl FaultKind {
    /// The name of the kind, as a report has it.
    pub fn name(self) -> &'static str
        ensures { result.now ≡ name_of self }
    {
        match self {
            FaultKind::BadDirective => "BadDirective",
            FaultKind::Unbalanced => "Unbalanced",
            FaultKind::UnknownMacro => "UnknownMacro",
            FaultKind::MacroDepth => "MacroDepth",
            FaultKind::TooLong => "TooLong",
            FaultKind::BadByte => "BadByte",
            FaultKind::OpenComment => "OpenComment",
            FaultKind::BadToken => "BadToken",
            FaultKind::BadNumber => "BadNumber",
            FaultKind::TooWide => "TooWide",
            FaultKind::OpenString => "OpenString",
            FaultKind::TooManyTokens => "TooManyTokens",
            FaultKind::Syntax => "Syntax",
            FaultKind::Deep => "Deep",
            FaultKind::DuplicateModule => "DuplicateModule",
            FaultKind::NoTop => "NoTop",
            FaultKind::UnknownModule => "UnknownModule",
            FaultKind::UnknownParameter => "UnknownParameter",
            FaultKind::TooDeep => "TooDeep",
            FaultKind::TooManyInstances => "TooManyInstances",
            FaultKind::TooManyTurns => "TooManyTurns",
            FaultKind::Misplaced => "Misplaced",
            FaultKind::NotConstant => "NotConstant",
            FaultKind::Duplicate => "Duplicate",
            FaultKind::BadRange => "BadRange",
            FaultKind::BadPort => "BadPort",
            FaultKind::UnknownPort => "UnknownPort",
            FaultKind::TooManySignals => "TooManySignals",
            FaultKind::TooManyWords => "TooManyWords",
            FaultKind::TooManyInputs => "TooManyInputs",
            FaultKind::UnknownName => "UnknownName",
            FaultKind::BadSelect => "BadSelect",
            FaultKind::ZeroReplication => "ZeroReplication",
            FaultKind::BadCall => "BadCall",
            FaultKind::BadTarget => "BadTarget",
            FaultKind::BadFormat => "BadFormat",
            FaultKind::AsyncControl => "AsyncControl",
            FaultKind::NegativeEdge => "NegativeEdge",
            FaultKind::WrongAssign => "WrongAssign",
            FaultKind::LoopVariable => "LoopVariable",
            FaultKind::Latch => "Latch",
            FaultKind::Recursive => "Recursive",
            FaultKind::FunctionScope => "FunctionScope",
            FaultKind::BadInitial => "BadInitial",
            FaultKind::TaskPlace => "TaskPlace",
            FaultKind::Unrolled => "Unrolled",
            FaultKind::Expanded => "Expanded",
            FaultKind::ManyDrivers => "ManyDrivers",
            FaultKind::MixedKinds => "MixedKinds",
            FaultKind::BadClock => "BadClock",
            FaultKind::SecondClock => "SecondClock",
            FaultKind::ClockAsData => "ClockAsData",
            FaultKind::Loop => "Loop",
        }
    }
}

/// Where a fault stands: its line, from 1, and the number of its token, from 0, in the phases that read tokens.
#[derive(Clone, Copy, Debug, PartialEq, Eq)]
pub struct FaultPlace {
    pub line: u32,
    pub token: Option<u32>,
}

/// Why a phase refuses a text.
#[derive(Clone, Copy, Debug, PartialEq, Eq)]
pub enum StaticFault {
    /// Its first fault: the phase that finds it, where it stands, and its kind.
    At {
        phase: u8,
        place: FaultPlace,
        kind: FaultKind,
    },
    /// Out of memory.
    Memory,
}

impl StaticFault {
    /// A fault of a phase that reads no tokens.
    pub fn on_line(phase: u8, line: u32, kind: FaultKind) -> StaticFault
        ensures { result ≡ on_line phase line kind }
    {
        StaticFault::At {
            phase,
            place: FaultPlace { line, token: None },
            kind,
        }
    }
}
